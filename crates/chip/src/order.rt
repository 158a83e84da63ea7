// Is a record in order?
ghost use Rattle.std.specs.Prelude.{◌≡◌, length};
ghost use Rattle.lists.specs.Facts.{Decides};
ghost use Rattle.state.specs.Entry.{WholeOf};

use crate::Chip;

// A record of a well-formed chip, beside the bytes of each packet of its part; anything else is refused with 16.
pub fn in_order<L: Chip>(words: &[u16], sets: &[u32], queues: &[u8], memory: &[u8]) -> bool
    requires { (length words.now ≡ 32) × (length sets.now ≡ 24) × (length queues.now ≡ 72) }
    ensures { Decides result (WholeOf L.layout words.now sets.now queues.now memory.now) }
{
    if memory.len() != L::PACKET_BYTES * state::size_in(words) {
        return false;
    }
    L::well_formed(words, sets, queues)
}
