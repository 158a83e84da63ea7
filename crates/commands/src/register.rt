// The commands on the packet number register: refusal 5 where its packet is not allocated, 6 where it is in RX or TX.
ghost use Rattle.std.specs.Prelude.{◌≡◌, List, ℕ, ◌%◌, ◌≤◌, length};
ghost use Rattle.rules.specs.Mmu as rules;
ghost use Rattle.wellformed.specs.Layouts.{GoodLists};
ghost use Rattle.state.specs.View.{word, figures, lists_of, Kept};
ghost use Rattle.state.specs.Promise.{PagesIn, ReadyOf};
ghost use Rattle.commands.specs.Orders.{PerformsOf};

use pages::Layout;
use pool::Tx;
use sets::Packet;
use state::{Answer, PACKET, Refusal};

// The packet that the register names.
pub fn named(words: &[u16]) -> Packet
    requires { Kept words.now }
    ensures { result.0 ≡ word words.now 17 % 256 }
{
    Packet(bits::low_byte(words[PACKET]))
}

pub fn do_release<L: Layout>(words: &mut [u16], sets: &mut [u32]) -> Answer
    requires { Kept words.old × PagesIn L.layout (figures words.old) sets.old × GoodLists L.layout (length sets.old) (lists_of L.layout sets.old) × (word words.old 23 ≤ 8) }
    ensures { (q : List ℕ) → ReadyOf L.layout words.old sets.old q → PerformsOf L.layout rules.release words.old sets.old q result words.new sets.new q }
{
    let packet = named(words);
    if !L::is_allocated(sets, packet) {
        return Err(Refusal::NotAllocated);
    }
    if pool::is_queued(words, packet) {
        return Err(Refusal::StillQueued);
    }
    pages::give_back::<L>(words, sets, packet);
    Ok(0)
}

pub fn do_enqueue<L: Layout>(words: &mut [u16], sets: &[u32], queues: &mut [u8]) -> Answer
    requires { ReadyOf L.layout words.old sets.now queues.old }
    ensures { PerformsOf L.layout rules.enqueue words.old sets.now queues.old result words.new sets.now queues.new }
{
    let packet = named(words);
    if !L::is_allocated(sets, packet) {
        return Err(Refusal::NotAllocated);
    }
    if pool::is_queued(words, packet) {
        return Err(Refusal::StillQueued);
    }
    pool::join::<Tx>(words, queues, packet);
    Ok(0)
}
