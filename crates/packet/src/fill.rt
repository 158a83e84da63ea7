// Runs of bytes into a page of a packet, and out of its pages.
ghost use Rattle.std.specs.Prelude.{◌≡◌, ◌+◌, ◌%◌, ◌≤◌, length};
ghost use Rattle.rules.specs.Answers.{over};
ghost use Rattle.rules.specs.Packet.{get_bytes, put_bytes};
ghost use Rattle.sets.specs.Views.{pages_of};
ghost use Rattle.packet.specs.Room.{Room};

use crate::access::place_in;
use sets::Address;

// Writes the bytes over the front of the part that it is lent, and leaves the rest of it. The compiler makes vector moves of the loop, with no test of an index, also
// where it stands inlined in `store_frame` and `copy_out`; `copy_from_slice` needs `memmove` of who links the library for C, which may need `memcpy` and `memset`.
pub fn fill_part(part: &mut [u8], bytes: &[u8])
    requires { length bytes.now ≤ length part.old }
    ensures { part.new ≡ over bytes.now part.old }
{
    for (i, byte) in bytes.iter().enumerate() {
        part[i] = *byte;
    }
}

// The page from the address on is a part from the middle of memory. It is lent to `fill_part` with the part of a frame that goes there.
pub fn fill_page(memory: &mut [u8], rest: u32, at: Address, part: &[u8])
    requires { (at.0 % 256 + length part.now ≤ 256) × Room 1 rest memory.old }
    ensures { memory.new ≡ put_bytes part.now (at.0 % 256) (pages_of rest) memory.old }
{
    let start = place_in(rest, at);
    let end = start + (256 - at.0 as usize % 256);
    fill_part(&mut memory[start..end], part);
}

// Fills the buffer with the packet's bytes from the address on, all in the first page of those that are left.
pub fn copy_page(memory: &[u8], rest: u32, at: Address, out: &mut [u8])
    requires { (at.0 % 256 + length out.old ≤ 256) × Room 1 rest memory.now }
    ensures { out.new ≡ get_bytes (length out.old) (at.0 % 256) (pages_of rest) memory.now }
{
    let start = place_in(rest, at);
    let end = start + out.len();
    fill_part(out, &memory[start..end]);
}

// The packet's data, from address 4 on, over the front of the buffer: 252 bytes of it are in the first page, and 256 in each after it. By index, since after
// `chunks_mut` a proof knows the buffer's length alone.
pub fn copy_out(memory: &[u8], pages: u32, len: usize, out: &mut [u8])
    requires { (len ≤ length out.old) × Room (len + 4) pages memory.now }
    ensures { out.new ≡ over (get_bytes len 4 (pages_of pages) memory.now) out.old }
{
    copy_page(memory, pages, Address(4), &mut out[..len.min(252)]);
    let mut rest = pages;
    for from in (252..len).step_by(256) {
        let n = (len - from).min(256);
        rest = sets::without(rest, 1);
        copy_page(memory, rest, Address(0), &mut out[from..from + n]);
    }
}
