// Is a record in order: does it name a part, is it laid out as it must be, and of a chip that is well formed? What document 01's refusal 16 asks.
#![tactic(auto)]

mod layout; // layout.rt: is a record in order, in either layout
mod fifos; // fifos.rt: the three queues
mod words; // words.rt: the registers

ghost use Rattle.std.specs.Prelude.{◌≡◌, map, ◌-◌, ◌≤◌, length, drop, replicate};
ghost use Rattle.rules.specs.Lists.{free_below};
ghost use Rattle.rules.specs.WellFormed.{GoodPages};
ghost use Rattle.lists.specs.Facts.{Decides};
ghost use Rattle.sets.specs.Views.{pages_of};
ghost use Rattle.state.specs.Entry.{Holds};

pub use fifos::queues_good;
pub use layout::Ordered;
use state::{MIR, PACKET, WAITING};
pub use words::{request_good, words_good};

// Are the places of no packet empty? A record has 24, the part so many packets.
pub fn empty_from(sets: &[u32], size: usize) -> bool
    requires { (length sets.now ≡ 24) × (size ≤ 24) }
    ensures { Decides result (drop size sets.now ≡ replicate (24 - size) 0) }
{
    sets[size..].iter().all(|&set| set == 0)
}

// Are the page lists what document 01 asks, with so many pages free?
fn pages_good(sets: &[u32], free: u32, size: usize) -> bool
    requires { (length sets.now ≡ 24) × (size ≤ 24) }
    ensures { let ls = map pages_of sets.now in Decides result (GoodPages size ls × (free ≡ length (free_below size ls))) }
{
    sets::audit(sets, size) == Some(free)
}

pub fn well_formed(words: &[u16], sets: &[u32], queues: &[u8]) -> bool
    requires { (length words.now ≡ 32) × (length sets.now ≡ 24) × (length queues.now ≡ 72) }
    ensures { Decides result (Holds words.now sets.now queues.now) }
{
    let size = state::size_in(words);
    state::is_part(size)
        && words_good(words, size)
        && empty_from(sets, size)
        && pages_good(sets, (words[MIR] / 256) as u32, size)
        && request_good(words[MIR], words[PACKET], words[WAITING])
        && queues_good(words, sets, queues, size)
}
