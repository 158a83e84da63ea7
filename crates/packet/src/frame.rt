// A whole frame as the chip stores it.
ghost use Rattle.std.specs.Prelude.{◌≡◌, [], ◌∷◌, ◌+◌, ◌/◌, ◌%◌, ◌≤◌, length, take, drop};
ghost use Rattle.rules.specs.Bits.{low_byte, high_byte};
ghost use Rattle.rules.specs.Packet.{put_bytes};
ghost use Rattle.rules.specs.Receive.{count_of, trailer};
ghost use Rattle.sets.specs.Views.{pages_of};
ghost use Rattle.packet.specs.Room.{Room, image_of};

use crate::access::{place_in, put_word};
use crate::fill::fill_page;
use sets::Address;

// Status and byte count, both in the first page.
pub fn write_head(memory: &mut [u8], pages: u32, status: u16, count: u16)
    requires { Room 4 pages memory.old }
    ensures { memory.new ≡ put_bytes (low_byte status ∷ high_byte status ∷ low_byte count ∷ high_byte count ∷ []) 0 (pages_of pages) memory.old }
{
    let i = place_in(pages, Address(0));
    put_word(memory, i, status);
    put_word(memory, i + 2, count);
}

// The first n bytes of the frame, from packet address 4 on. Page k (k at least 1) is at address 256k: the part of the frame that starts at byte 256k - 4, as much as
// the page holds, is handed on to fill it, and then what is left, which is none where the page's end is address n + 4. Returns the pages from that address's on.
pub fn store_data(memory: &mut [u8], pages: u32, frame: &[u8], n: usize) -> u32
    requires { (n ≤ length frame.now) × Room (n + 5) pages memory.old }
    ensures stored { memory.new ≡ put_bytes (take n frame.now) 4 (pages_of pages) memory.old }
    ensures last { pages_of result ≡ drop ((n + 4) / 256) (pages_of pages) }
{
    let mut rest = pages;
    let mut at = 4;
    let mut left = &frame[..n];
    while let Some((part, more)) = left.split_at_checked(256 - at) {
        fill_page(memory, rest, Address(at as u16), part);
        rest = sets::without(rest, 1);
        left = more;
        at = 0;
    }
    fill_page(memory, rest, Address(at as u16), left);
    rest
}

// After even n a zero and 40h, after odd n 60h: at address n + 4, in the first of the pages that are left. Even n leaves room for both.
pub fn write_trailer(memory: &mut [u8], last: u32, n: usize)
    requires { (n ≤ 8192) × Room 1 last memory.old }
    ensures { memory.new ≡ put_bytes (trailer n) ((n + 4) % 256) (pages_of last) memory.old }
{
    let i = place_in(last, Address((n + 4) as u16));
    if bits::is_odd(n) {
        memory[i] = 0x60;
    } else {
        put_word(memory, i, 0x4000);
    }
}

// Status, byte count, n bytes of the frame, and the trailer, from packet address 0 on. All other bytes stay.
pub fn store_frame(memory: &mut [u8], pages: u32, status: u16, count: u16, frame: &[u8], n: usize)
    requires { (n ≤ length frame.now) × Room (count_of n) pages memory.old }
    ensures { memory.new ≡ put_bytes (image_of status count n frame.now) 0 (pages_of pages) memory.old }
{
    write_head(memory, pages, status, count);
    let last = store_data(memory, pages, frame, n);
    write_trailer(memory, last, n);
}
