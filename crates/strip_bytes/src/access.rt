// A byte or a word at an address of a packet.
ghost use Rattle.std.specs.Prelude.{◌≡◌, [], ◌∷◌, ◌+◌, ◌*◌};
ghost use Rattle.rules.specs.Bits.{low_byte, high_byte};
ghost use Rattle.rules.specs.Packet.{get_bytes, put_bytes};
ghost use Rattle.rules.specs.Data.{value_of};
ghost use Rattle.strip_bytes.specs.Strip.{strip_of, InStrip};

use sets::{Address, Packet};

// How long a strip is.
const STRIP: usize = 2048;

// Where in memory the address lies.
pub fn place_of(packet: Packet, at: Address) -> usize
    ensures { result ≡ 2048 * packet.0 + at.0 }
{
    STRIP * packet.0 as usize + at.0 as usize
}

pub fn read_byte(memory: &[u8], packet: Packet, at: Address) -> u8
    requires { InStrip (at.0 + 1) packet.0 memory.now }
    ensures { result ≡ value_of (get_bytes 1 at.0 (strip_of packet.0) memory.now) }
{
    let i = place_of(packet, at);
    memory[i]
}

// A word is two bytes, lower first.
pub fn read_word(memory: &[u8], packet: Packet, at: Address) -> u16
    requires { InStrip (at.0 + 2) packet.0 memory.now }
    ensures { result ≡ value_of (get_bytes 2 at.0 (strip_of packet.0) memory.now) }
{
    let i = place_of(packet, at);
    bits::word(memory[i], memory[i + 1])
}

// Writes the lower byte of the value.
pub fn write_byte(memory: &mut [u8], packet: Packet, at: Address, value: u16)
    requires { InStrip (at.0 + 1) packet.0 memory.old }
    ensures { memory.new ≡ put_bytes (low_byte value ∷ []) at.0 (strip_of packet.0) memory.old }
{
    let i = place_of(packet, at);
    memory[i] = bits::low_byte(value);
}

// Writes both bytes of the value, the lower first.
pub fn write_word(memory: &mut [u8], packet: Packet, at: Address, value: u16)
    requires { InStrip (at.0 + 2) packet.0 memory.old }
    ensures { memory.new ≡ put_bytes (low_byte value ∷ high_byte value ∷ []) at.0 (strip_of packet.0) memory.old }
{
    let i = place_of(packet, at);
    memory[i] = bits::low_byte(value);
    memory[i + 1] = bits::high_byte(value);
}
