// The chip of pages: a packet's bytes by its page set.
ghost use Rattle.std.specs.Prelude.{◌/◌, length};
ghost use Rattle.lists.specs.Bytes.{Below};
ghost use Rattle.sets.specs.Views.{pages_of};
ghost use Rattle.stores.specs.Rooms.{below_as};

use crate::store::Store;
use pages::Paged;
use sets::{Address, Packet};

// A packet's pages, bit p for page p.
#[derive(Drop)]
#[derive(Clone, Copy)]
pub struct PageSet(pub u32);

impl Store for Paged {
    type Home = PageSet;

    ghost pages_in = { λ home. pages_of home.0 };

    ghost Fits = { λ home memory. Below (length memory / 256) (pages_of home.0) };

    fn home(sets: &[u32], packet: Packet) -> PageSet {
        PageSet(sets::set_of(sets, packet))
    }

    fn page_count(home: PageSet) -> u32 {
        sets::page_count(home.0)
    }

    fn read_byte(memory: &[u8], home: PageSet, at: Address) -> u8 {
        packet::read_byte(memory, home.0, at)
    }

    fn read_word(memory: &[u8], home: PageSet, at: Address) -> u16 {
        packet::read_word(memory, home.0, at)
    }

    fn copy_out(memory: &[u8], home: PageSet, len: usize, out: &mut [u8]) {
        packet::copy_out(memory, home.0, len, out);
    }

    fn write_status(memory: &mut [u8], home: PageSet, status: u16) {
        packet::write_status(memory, home.0, status);
    }

    fn store_frame(
        memory: &mut [u8],
        home: PageSet,
        status: u16,
        count: u16,
        frame: &[u8],
        n: usize,
    ) {
        packet::store_frame(memory, home.0, status, count, frame, n);
    }

    ghost fits_as = { λ home. below_as (pages_of home.0) };
}
