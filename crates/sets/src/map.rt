// The sets of all packets: for each packet number its pages.
ghost use Rattle.std.specs.Prelude.{◌≡◌, ℕ, ◌-◌, ◌^◌, ◌<◌, ◌≤◌, [], map, length, take, set, replicate, not, count_ones, nat_lt, slice_index_or};
ghost use Rattle.std.specs.Option.{SomeIff};
ghost use Rattle.rules.specs.Lists.{owned, first_empty, free_below};
ghost use Rattle.rules.specs.Bits.{bit};
ghost use Rattle.rules.specs.WellFormed.{GoodPages};
ghost use Rattle.lists.specs.Facts.{Decides};
ghost use Rattle.sets.specs.Views.{pages_of};
ghost use Rattle.sets.specs.Joins.{Joins, FewEach, join4};

use crate::Packet;
use crate::set::lowest;

// The packet's pages: none where there is no such packet.
pub fn set_of(sets: &[u32], packet: Packet) -> u32
    ensures { pages_of result ≡ slice_index_or (map pages_of sets.now) packet.0 [] }
{
    sets.get(packet.0 as usize).copied().unwrap_or(0)
}

// The pages that packets own.
pub fn owned_set(sets: &[u32]) -> u32
    ensures { (p : ℕ) → bit p result ≡ owned p (map pages_of sets.now) }
{
    let mut taken = 0;
    for set in sets {
        taken |= *set;
    }
    taken
}

// All pages of a part that has so many.
fn all_pages(count: usize) -> u32
    requires { count ≤ 24 }
    ensures { result ≡ 2 ^ count - 1 }
{
    (1 << count) - 1
}

// The pages that no packet owns: a part has as many as packets.
pub fn free_set(sets: &[u32]) -> u32
    requires { length sets.now ≤ 24 }
    ensures { pages_of result ≡ free_below (length sets.now) (map pages_of sets.now) }
{
    let all = all_pages(sets.len());
    (owned_set(sets) ^ all) & all
}

// The lowest number with no pages, and the number of sets where each has some.
pub fn lowest_unallocated(sets: &[u32]) -> usize
    ensures { result ≡ first_empty (map pages_of sets.now) }
{
    sets.iter().position(|set| *set == 0).unwrap_or(sets.len())
}

// No packet has pages. Only what is not 0 is stored: stores of all are a call of memset by the length, and a write's stack 16 bytes deeper.
pub fn cleared(sets: &mut [u32])
    ensures { map pages_of sets.new ≡ replicate (length sets.old) [] }
{
    for set in sets.iter_mut() {
        if *set != 0 {
            *set = 0;
        }
    }
}

// The packet's pages are free.
pub fn released(sets: &mut [u32], packet: Packet)
    requires { packet.0 < length sets.old }
    ensures { map pages_of sets.new ≡ set (map pages_of sets.old) packet.0 [] }
{
    sets[packet.0 as usize] = 0;
}

// The packet has the `need` lowest free pages, which are returned.
pub fn granted(sets: &mut [u32], packet: Packet, need: u32) -> u32
    requires { (packet.0 < length sets.old) × (length sets.old ≤ 24) }
    ensures pages { pages_of result ≡ take need (free_below (length sets.old) (map pages_of sets.old)) }
    ensures given { map pages_of sets.new ≡ set (map pages_of sets.old) packet.0 (take need (free_below (length sets.old) (map pages_of sets.old))) }
{
    let pages = lowest(free_set(sets), need);
    sets[packet.0 as usize] = pages;
    pages
}

// As many pages as a packet may have.
const MOST: u32 = 8;

// Has the packet more pages than it may?
fn crowded(set: u32) -> bool
    ensures { result ≡ nat_lt 8 (count_ones set) }
{
    MOST < set.count_ones()
}

// Has no packet more pages than it may?
fn few_each(sets: &[u32]) -> bool
    ensures { Decides result (FewEach 8 sets.now) }
{
    sets.iter().all(|set| !crowded(*set))
}

// The sets joined, those of packets 0, 4, 8 .. apart from 1, 5, 9 .. and so on, and the sum of all.
#[derive(Clone, Copy)]
struct Rows {
    a: u32,
    b: u32,
    c: u32,
    d: u32,
    sum: u32,
}

impl Rows {
    // The pages of all sets.
    fn pages(self) -> u32
        ensures { result ≡ join4 self.a self.b self.c self.d }
    {
        (self.a | self.b) | (self.c | self.d)
    }

    // Stand more pages in one of the joins than a packet may have?
    fn crowded(self) -> bool
        ensures { Decides (not result) ((count_ones self.a ≤ 8) × (count_ones self.b ≤ 8) × (count_ones self.c ≤ 8) × (count_ones self.d ≤ 8)) }
    {
        crowded(self.a) | crowded(self.b) | crowded(self.c) | crowded(self.d)
    }
}

// Four sets in a step with no branch, which the compiler makes one vector, and six steps, which it lays out flat.
fn joined(sets: &[u32]) -> Rows
    requires { length sets.now ≡ 24 }
    ensures { Joins sets.now result.a result.b result.c result.d result.sum [] }
{
    let mut a = 0;
    let mut b = 0;
    let mut c = 0;
    let mut d = 0;
    let mut sum = 0u32;
    for row in 0..6 {
        let w = sets[4 * row];
        let x = sets[4 * row + 1];
        let y = sets[4 * row + 2];
        let z = sets[4 * row + 3];
        a |= w;
        b |= x;
        c |= y;
        d |= z;
        sum = sum
            .wrapping_add(w)
            .wrapping_add(x)
            .wrapping_add(y)
            .wrapping_add(z);
    }
    Rows { a, b, c, d, sum }
}

// How many pages are free, where the page lists are what document 01 asks of a part with so many pages, and nothing where they are not.
// The sum is the join exactly where no page is in two sets. The sets are counted one by one only where more than 8 pages stand in one of the four joins.
pub fn audit(sets: &[u32], count: usize) -> Option<u32>
    requires { (length sets.now ≡ 24) × (count ≤ 24) }
    ensures { SomeIff result (GoodPages count (map pages_of sets.now)) (length (free_below count (map pages_of sets.now))) }
{
    let rows = joined(sets);
    let owned = rows.pages();
    if all_pages(count) < owned || rows.sum != owned {
        return None;
    }
    let pages = owned.count_ones();
    if MOST < pages && rows.crowded() && !few_each(sets) {
        return None;
    }
    Some(count as u32 - pages)
}
