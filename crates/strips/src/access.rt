// Data accesses: byte a of packet k is memory[2048 * k + a].
ghost use Rattle.std.specs.Prelude.{◌≡◌, ◌||◌, ◌+◌, ◌*◌, ◌≤◌, ◌<◌, ltb, length};
ghost use Rattle.rules.specs.Chip.{strips};
ghost use Rattle.rules.specs.Packet.{get_bytes, put_bytes};
ghost use Rattle.rules.specs.Data.{address, against, odd_fixed, value_of, read_data, write_data};
ghost use Rattle.state.specs.View.{view_of};
ghost use Rattle.state.specs.Promise.{ReadyOf, MakesOf};
ghost use Rattle.data.specs.Access.{width_of, bytes_for};
ghost use Rattle.strip_bytes.specs.Strip.{strip_of, InStrip};

use crate::counts::{Strips, pages_of};
use data::Data;
use sets::{Address, Packet};
use state::{Answer, POINTER};

// How many bytes an access moves.
fn width_of(wide: bool) -> u16
    ensures { result ≡ width_of wide }
{
    if wide { 2 } else { 1 }
}

// Is an access of so many bytes refused, to a packet with so many pages? One without pages ends before its first byte.
fn is_refused(pages: u32, width: u16, reading: bool, pointer: u16) -> bool
    requires { (pages ≤ 8) × (width < 3) }
    ensures { result ≡ against reading pointer || (odd_fixed pointer || ltb (256 * pages) (address pointer + width)) }
{
    if data::is_against(pointer, reading) {
        return true;
    }
    if data::is_odd_fixed(pointer) {
        return true;
    }
    256 * pages < pointer as u32 % 2048 + width as u32
}

// The byte or the word at an address.
fn value_at(memory: &[u8], packet: Packet, at: Address, wide: bool) -> u16
    requires { InStrip (at.0 + width_of wide) packet.0 memory.now }
    ensures { result ≡ value_of (get_bytes (width_of wide) at.0 (strip_of packet.0) memory.now) }
{
    if wide {
        return strip_bytes::read_word(memory, packet, at);
    }
    strip_bytes::read_byte(memory, packet, at) as u16
}

// The same written.
fn put_at(memory: &mut [u8], packet: Packet, at: Address, wide: bool, value: u16)
    requires { InStrip (at.0 + width_of wide) packet.0 memory.old }
    ensures { memory.new ≡ put_bytes (bytes_for wide value) at.0 (strip_of packet.0) memory.old }
{
    if wide {
        strip_bytes::write_word(memory, packet, at, value);
        return;
    }
    strip_bytes::write_byte(memory, packet, at, value);
}

impl Data for Strips {
    fn read_data(
        words: &mut [u16],
        counts: &[u32],
        queues: &[u8],
        memory: &[u8],
        wide: bool,
    ) -> Answer {
        let packet = data::meant(words, queues);
        let pages = pages_of(counts, packet);
        let pointer = words[POINTER];
        let width = width_of(wide);
        if is_refused(pages, width, true, pointer) {
            return Err(data::refusal(pages != 0, true, pointer));
        }
        let value = value_at(memory, packet, Address(pointer % 2048), wide);
        data::advance(words, width);
        Ok(value)
    }

    fn write_data(
        words: &mut [u16],
        counts: &[u32],
        queues: &[u8],
        memory: &mut [u8],
        wide: bool,
        value: u16,
    ) -> Answer {
        let packet = data::meant(words, queues);
        let pages = pages_of(counts, packet);
        let pointer = words[POINTER];
        let width = width_of(wide);
        if is_refused(pages, width, false, pointer) {
            return Err(data::refusal(pages != 0, false, pointer));
        }
        put_at(memory, packet, Address(pointer % 2048), wide, value);
        data::advance(words, width);
        Ok(0)
    }
}
