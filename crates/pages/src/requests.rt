// Allocations, of either layout: one that is granted, one that waits, and pages given back, of which the one that waits gets its own.
ghost use Rattle.std.specs.Prelude.{◌≤◌, ◌<◌, length};
ghost use Rattle.rules.specs.Chip.{free_for};
ghost use Rattle.rules.specs.Fields.{set_result, set_waiting};
ghost use Rattle.rules.specs.Mmu as rules;
ghost use Rattle.wellformed.specs.Layouts.{GoodLists};
ghost use Rattle.state.specs.View.{word, figures, lists_of, Kept};
ghost use Rattle.state.specs.Promise.{Sets, PagesIn};
ghost use Rattle.pages.specs.Pages.{AltersOf};

use crate::layout::Layout;
use crate::pages::free_count;
use sets::Packet;
use state::{PACKET, WAITING};

// The allocation result is such, and so many pages are waited for.
pub fn give_result(words: &mut [u16], res: u8, waiting: u16)
    requires { Kept words.old }
    ensures { Sets (λ r. set_waiting waiting (set_result res r)) words.old words.new }
{
    words[PACKET] = bits::word(bits::low_byte(words[PACKET]), res);
    words[WAITING] = waiting;
}

// An allocation is granted: the lowest unallocated number gets the pages, the result reads it, and none waits.
pub fn allocate<L: Layout>(words: &mut [u16], sets: &mut [u32], need: u32)
    requires { Kept words.old × PagesIn L.layout (figures words.old) sets.old × GoodLists L.layout (length sets.old) (lists_of L.layout sets.old) × (1 ≤ need) × (need ≤ 8) × (need ≤ length (free_for L.layout (lists_of L.layout sets.old))) }
    ensures { AltersOf L.layout (rules.grant need) words.old sets.old words.new sets.new }
{
    let packet = L::lowest_unallocated(sets);
    L::grant(words, sets, packet, need);
    give_result(words, packet.0, 0);
}

// An allocation that waits is granted where as many pages are free.
#[tactic(auto, using(crate::proofs::Granting::none_waits))]
fn settle<L: Layout>(words: &mut [u16], sets: &mut [u32])
    requires { Kept words.old × PagesIn L.layout (figures words.old) sets.old × GoodLists L.layout (length sets.old) (lists_of L.layout sets.old) × (word words.old 23 ≤ 8) }
    ensures { AltersOf L.layout rules.settle words.old sets.old words.new sets.new }
{
    let need = words[WAITING] as u32;
    if need == 0 {
        return;
    }
    if free_count(words) < need {
        return;
    }
    allocate::<L>(words, sets, need);
}

// The packet's pages are given back.
pub fn give_back<L: Layout>(words: &mut [u16], sets: &mut [u32], packet: Packet)
    requires { Kept words.old × PagesIn L.layout (figures words.old) sets.old × GoodLists L.layout (length sets.old) (lists_of L.layout sets.old) × (packet.0 < length sets.old) × (word words.old 23 ≤ 8) }
    ensures { AltersOf L.layout (rules.give_back packet.0) words.old sets.old words.new sets.new }
{
    L::make_free(words, sets, packet);
    settle::<L>(words, sets);
}
