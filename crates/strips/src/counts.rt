// How many pages each packet has: the first of its own strip, so that a number says all of them. How many are free is MIR's high byte.
ghost use Rattle.std.specs.Prelude.{◌≡◌, [], length, get_or};
ghost use Rattle.rules.specs.Chip.{strips};
ghost use Rattle.state.specs.View.{strips_from};

use pages::{Layout, fewer, more};
use sets::Packet;
use state::MIR;

// How many pages the packet has: none where there is no such packet.
pub fn pages_of(counts: &[u32], packet: Packet) -> u32
    ensures count { result ≡ get_or counts.now packet.0 0 }
    ensures pages { result ≡ length (get_or (strips_from 0 counts.now) packet.0 []) }
{
    counts.get(packet.0 as usize).copied().unwrap_or(0)
}

// The chip of strips: each packet's pages are the first of its own strip.
pub struct Strips;

impl Layout for Strips {
    ghost layout = { strips };

    // Where each packet has pages it is their number, which is no packet's. 0 is "no pages", of a count as of a set.
    fn lowest_unallocated(counts: &[u32]) -> Packet {
        Packet(sets::lowest_unallocated(counts) as u8)
    }

    fn is_allocated(counts: &[u32], packet: Packet) -> bool {
        pages_of(counts, packet) != 0
    }

    fn grant(words: &mut [u16], counts: &mut [u32], packet: Packet, need: u32) {
        words[MIR] = fewer(words[MIR], need);
        counts[packet.0 as usize] = need;
    }

    fn make_free(words: &mut [u16], counts: &mut [u32], packet: Packet) {
        words[MIR] = more(words[MIR], pages_of(counts, packet));
        counts[packet.0 as usize] = 0;
    }
}
