// One packet's pages.
ghost use Rattle.std.specs.Prelude.{◌≡◌, ◌<◌, length, take, drop, slice_index};
ghost use Rattle.rules.specs.Lists.{some?};
ghost use Rattle.sets.specs.Views.{pages_of};

use crate::Page;

// How many pages the set has.
pub fn page_count(set: u32) -> u32
    ensures { result ≡ length (pages_of set) }
{
    set.count_ones()
}

// Has the set a page?
pub fn has_pages(set: u32) -> bool
    ensures { result ≡ some? (pages_of set) }
{
    set != 0
}

// The set without its k lowest pages.
pub fn without(set: u32, k: u32) -> u32
    ensures { pages_of result ≡ drop k (pages_of set) }
{
    let mut rest = set;
    for _ in 0..k {
        rest &= rest.wrapping_sub(1);
    }
    rest
}

// The lowest page of a set that has one.
pub fn lowest_page(set: u32) -> Page
    requires { 0 < set }
    ensures { result.0 ≡ slice_index (pages_of set) 0 }
{
    Page(set.trailing_zeros() as u8)
}

// Page k of the set: the place of its bit with k ones below it.
pub fn nth_page(set: u32, k: u32) -> Page
    requires { k < length (pages_of set) }
    ensures { result.0 ≡ slice_index (pages_of set) k }
{
    lowest_page(without(set, k))
}

// The n lowest pages of the set, or all where it has no more.
pub fn lowest(set: u32, n: u32) -> u32
    ensures { pages_of result ≡ take n (pages_of set) }
{
    set ^ without(set, n)
}
