// The chip of strips: a packet's bytes lie in a row in its own strip.
ghost use Rattle.std.specs.Prelude.{◌*◌};
ghost use Rattle.rules.specs.Lists.{up_from};
ghost use Rattle.stores.specs.Rooms.{StripFits, strip_as};

use crate::store::Store;
use sets::{Address, Packet};
use strips::Strips;

// A packet and how many pages of its strip it has.
#[derive(Drop)]
#[derive(Clone, Copy)]
pub struct Strip {
    pub packet: Packet,
    pub pages: u32,
}

impl Store for Strips {
    type Home = Strip;

    ghost pages_in = { λ home. up_from (8 * home.packet.0) home.pages };

    ghost Fits = { λ home memory. StripFits home.packet.0 home.pages memory };

    fn home(counts: &[u32], packet: Packet) -> Strip {
        Strip {
            packet,
            pages: strips::pages_of(counts, packet),
        }
    }

    fn page_count(home: Strip) -> u32 {
        home.pages
    }

    fn read_byte(memory: &[u8], home: Strip, at: Address) -> u8 {
        strip_bytes::read_byte(memory, home.packet, at)
    }

    fn read_word(memory: &[u8], home: Strip, at: Address) -> u16 {
        strip_bytes::read_word(memory, home.packet, at)
    }

    fn copy_out(memory: &[u8], home: Strip, len: usize, out: &mut [u8]) {
        strip_bytes::copy_out(memory, home.packet, len, out);
    }

    fn write_status(memory: &mut [u8], home: Strip, status: u16) {
        strip_bytes::write_word(memory, home.packet, Address(0), status);
    }

    fn store_frame(
        memory: &mut [u8],
        home: Strip,
        status: u16,
        count: u16,
        frame: &[u8],
        n: usize,
    ) {
        strip_bytes::store_frame(memory, home.packet, status, count, frame, n);
    }

    ghost fits_as = { λ home. strip_as home.packet.0 home.pages };
}
