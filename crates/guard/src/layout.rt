// Is a record in order, in either layout?
ghost use Rattle.std.specs.Prelude.{◌≡◌, refl, ℕ, ◌*◌, ◌<◌, length};
ghost use Rattle.std.proofs.Common.{rules, arith};
ghost use Rattle.rules.specs.Chip.{page_numbers};
ghost use Rattle.lists.specs.Facts.{Decides};
ghost use Rattle.state.specs.Entry.{HoldsOf};

use pages::{Layout, Paged};

pub trait Ordered: Layout {
    // The bytes of memory for each packet of the part: as many as its pages are.
    const PACKET_BYTES: usize;

    ghost PACKET_BYTES: { ℕ };

    // What refusal 16 asks of a record, but for the length of its memory.
    fn well_formed(words: &[u16], sets: &[u32], queues: &[u8]) -> bool
        requires { (length words.now ≡ 32) × (length sets.now ≡ 24) × (length queues.now ≡ 72) }
        ensures { Decides result (HoldsOf Self.layout words.now sets.now queues.now) };

    ghost long: { (n : ℕ) → PACKET_BYTES * n ≡ 256 * page_numbers Self.layout n };

    ghost few: { PACKET_BYTES < 2049 };
}

impl Ordered for Paged {
    const PACKET_BYTES: usize = 256;

    ghost PACKET_BYTES = { 256 };

    fn well_formed(words: &[u16], sets: &[u32], queues: &[u8]) -> bool {
        crate::well_formed(words, sets, queues)
    }

    ghost long = { λ n. refl };

    ghost few = { Prim.search rules };
}
