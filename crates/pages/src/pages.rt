// Which pages are free: MIR keeps their number, and it changes with the page sets.
ghost use Rattle.std.specs.Prelude.{◌≡◌, [], map, ◌+◌, ◌-◌, ◌*◌, ◌/◌, ◌≤◌, ◌<◌, length, take, set};
ghost use Rattle.rules.specs.Chip.{paged, free_for};
ghost use Rattle.rules.specs.WellFormed.{GoodPages};
ghost use Rattle.sets.specs.Views.{pages_of};
ghost use Rattle.state.specs.View.{word, figures, Kept};
ghost use Rattle.state.specs.Promise.{SetsIn};
ghost use Rattle.pages.specs.Pages.{Grantable, Repages};

use sets::Packet;
use state::MIR;

// How many pages are free: MIR's high byte (`free_told`: as many as a count gives).
pub fn free_count(words: &[u16]) -> u32
    requires { length words.now ≡ 32 }
    ensures { result ≡ word words.now 4 / 256 }
{
    bits::high_byte(words[MIR]) as u32
}

// MIR with so many free pages less, and more: their number is its high byte.
pub fn fewer(mir: u16, pages: u32) -> u16
    requires { 256 * pages ≤ mir }
    ensures { result ≡ mir - 256 * pages }
{
    mir - 256 * pages as u16
}

pub fn more(mir: u16, pages: u32) -> u16
    requires { mir + 256 * pages < 65536 }
    ensures { result ≡ mir + 256 * pages }
{
    mir + 256 * pages as u16
}

// The packet, which has none, gets the `need` lowest free pages, which are returned.
pub fn grant(words: &mut [u16], sets: &mut [u32], packet: Packet, need: u32) -> u32
    requires { Kept words.old × SetsIn (figures words.old) sets.old × Grantable packet.0 need (map pages_of sets.old) }
    ensures pages { pages_of result ≡ take need (free_for paged (map pages_of sets.old)) }
    ensures given { Repages (λ ls. set ls packet.0 (take need (free_for paged ls))) words.old sets.old words.new sets.new }
{
    words[MIR] = fewer(words[MIR], need);
    sets::granted(sets, packet, need)
}

// The packet's pages are free again.
pub fn make_free(words: &mut [u16], sets: &mut [u32], packet: Packet)
    requires { Kept words.old × SetsIn (figures words.old) sets.old × GoodPages (length sets.old) (map pages_of sets.old) × (packet.0 < length sets.old) }
    ensures { Repages (λ ls. set ls packet.0 []) words.old sets.old words.new sets.new }
{
    let pages = sets::page_count(sets[packet.0 as usize]);
    words[MIR] = more(words[MIR], pages);
    sets::released(sets, packet);
}
