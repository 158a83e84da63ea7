// The packets of a queue as one number, bit k for packet k; it is kept as two words, the lower 16 bits first.
ghost use Rattle.std.specs.Prelude.{◌≡◌, ◌+◌, ◌-◌, ◌*◌, ◌/◌, ◌%◌, ◌^◌, ◌≤◌, ◌<◌};
ghost use Rattle.rules.specs.Bits.{bit};

use sets::Packet;

// The bits of both words.
pub fn joined(low: u16, high: u16) -> u32
    ensures { result ≡ low + high * 65536 }
{
    low as u32 + high as u32 * 65536
}

pub fn low_half(bits: u32) -> u16
    ensures { result ≡ bits % 65536 }
{
    (bits % 65536) as u16
}

pub fn high_half(bits: u32) -> u16
    ensures { result ≡ bits / 65536 }
{
    (bits / 65536) as u16
}

// Is the packet's bit set?
pub fn has(bits: u32, packet: Packet) -> bool
    requires { packet.0 < 32 }
    ensures { result ≡ bit packet.0 bits }
{
    (bits >> packet.0) % 2 == 1
}

// The packet's bit alone.
fn bit_of(packet: Packet) -> u32
    requires { packet.0 < 32 }
    ensures { result ≡ 2 ^ packet.0 }
{
    1 << packet.0
}

// The packet's bit, which is clear, is set.
pub fn with(bits: u32, packet: Packet) -> u32
    requires { bits + 2 ^ packet.0 < 2 ^ 32 }
    ensures { result ≡ bits + 2 ^ packet.0 }
{
    bits + bit_of(packet)
}

// The packet's bit, which is set, is cleared.
pub fn without(bits: u32, packet: Packet) -> u32
    requires { 2 ^ packet.0 ≤ bits }
    ensures { result ≡ bits - 2 ^ packet.0 }
{
    bits - bit_of(packet)
}
