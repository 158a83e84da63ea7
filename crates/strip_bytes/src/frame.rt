// A whole frame into its strip, and the data of one out of it.
ghost use Rattle.std.specs.Prelude.{◌≡◌, ◌+◌, ◌≤◌, length, take};
ghost use Rattle.rules.specs.Answers.{over};
ghost use Rattle.rules.specs.Packet.{get_bytes, put_bytes};
ghost use Rattle.rules.specs.Receive.{count_of, trailer};
ghost use Rattle.packet.specs.Room.{image_of};
ghost use Rattle.strip_bytes.specs.Strip.{strip_of, InStrip};

use crate::access::{place_of, write_byte, write_word};
use sets::{Address, Packet};

// The first n bytes of the frame, from address 4 on: one copy, since a strip's bytes lie in a row.
fn store_data(memory: &mut [u8], packet: Packet, frame: &[u8], n: usize)
    requires { (n ≤ length frame.now) × InStrip (n + 4) packet.0 memory.old }
    ensures { memory.new ≡ put_bytes (take n frame.now) 4 (strip_of packet.0) memory.old }
{
    let start = place_of(packet, Address(4));
    let end = start + n;
    packet::fill_part(&mut memory[start..end], &frame[..n]);
}

// Behind the data: 60h where n is odd, else a zero and 40h.
fn write_trailer(memory: &mut [u8], packet: Packet, n: usize)
    requires { InStrip (count_of n) packet.0 memory.old }
    ensures { memory.new ≡ put_bytes (trailer n) (n + 4) (strip_of packet.0) memory.old }
{
    let at = Address((n + 4) as u16);
    if bits::is_odd(n) {
        write_byte(memory, packet, at, 0x60);
    } else {
        write_word(memory, packet, at, 0x4000);
    }
}

// Status, byte count, n bytes of the frame, and what follows them, from address 0 on. All other bytes stay.
pub fn store_frame(
    memory: &mut [u8],
    packet: Packet,
    status: u16,
    count: u16,
    frame: &[u8],
    n: usize,
)
    requires { (n ≤ length frame.now) × InStrip (count_of n) packet.0 memory.old }
    ensures { memory.new ≡ put_bytes (image_of status count n frame.now) 0 (strip_of packet.0) memory.old }
{
    write_word(memory, packet, Address(0), status);
    write_word(memory, packet, Address(2), count);
    store_data(memory, packet, frame, n);
    write_trailer(memory, packet, n);
}

// The packet's data, from address 4 on, over the front of the buffer.
pub fn copy_out(memory: &[u8], packet: Packet, len: usize, out: &mut [u8])
    requires { (len ≤ length out.old) × InStrip (len + 4) packet.0 memory.now }
    ensures { out.new ≡ over (get_bytes len 4 (strip_of packet.0) memory.now) out.old }
{
    let start = place_of(packet, Address(4));
    let end = start + len;
    packet::fill_part(out, &memory[start..end]);
}
