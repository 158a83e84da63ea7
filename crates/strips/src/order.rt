// Is a record in order: what refusal 16 asks of a chip of strips, but for the length of its memory.
ghost use Rattle.std.proofs.Common.{rules, arith};
ghost use Rattle.std.specs.Prelude.{◌≡◌, ◌<◌, length};
ghost use Rattle.rules.specs.Chip.{strips};
ghost use Rattle.lists.specs.Facts.{Decides};
ghost use Rattle.state.specs.Entry.{HoldsOf};
ghost use Rattle.strips.specs.Counts.{GoodCounts};

use crate::counts::Strips;
use guard::{Ordered, empty_from, queues_good, request_good, words_good};
use pages::free_count;
use state::{MIR, PACKET, WAITING};

// As many pages as a strip has.
const STRIP_PAGES: u32 = 8;

// Has no packet more pages than its strip, and are the packets' pages and the free ones as many as the part has?
fn counts_good(counts: &[u32], free: u32, size: usize) -> bool
    requires { (length counts.now ≡ 24) × (free < 256) }
    ensures { Decides result (GoodCounts size free counts.now) }
{
    let mut sum = free;
    for &pages in counts {
        if STRIP_PAGES < pages {
            return false;
        }
        sum += pages;
    }
    sum as usize == size
}

impl Ordered for Strips {
    const PACKET_BYTES: usize = 2048;

    ghost PACKET_BYTES = { 2048 };

    // MIR has the part's number of packets in its low byte, and how many pages are free in its high byte. The queues ask of a packet only whether it has pages, so a check made
    // for page sets may be handed the counts: 0 is "no pages" in both.
    fn well_formed(words: &[u16], counts: &[u32], queues: &[u8]) -> bool {
        let size = state::size_in(words);
        state::is_part(size)
            && words_good(words, size)
            && empty_from(counts, size)
            && counts_good(counts, free_count(words), size)
            && request_good(words[MIR], words[PACKET], words[WAITING])
            && queues_good(words, counts, queues, size)
    }

    ghost long = { λ n. omega arith };

    ghost few = { Prim.search rules };
}
