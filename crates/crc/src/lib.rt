// The 32-bit remainder of IEEE 802.3 over a part of a slice, in wire bit order and preset to ones, held with its bits in the other order
// (`mirror 32`), as the standard publishes it but for the complement.
#![tactic(auto)]

mod tables; // tables.rt: what 32 shifts make of each nibble

ghost use Rattle.std.specs.Prelude.{◌≡◌, ◌*◌, ◌≤◌};
ghost use Rattle.rules.specs.Crc.{crc_bits, crc_from, crc, mirror, fcs_word};

use tables::nibble_out;

// 32 shifts of a's N lowest nibbles in the last places, the lowest first, with no bit coming in: each by its own row.
fn nibbles_out<const N: usize>(a: u32) -> u32
    requires { N ≤ 8 }
    ensures { result ≡ mirror 32 (crc_bits 32 0 (mirror (4 * N) a)) }
{
    let mut left = a;
    let mut r = 0;
    for k in 8 - N..8 {
        r ^= nibble_out(k, left % 16);
        left /= 16;
    }
    r
}

// A byte shifted in, its lowest bit first.
fn byte_in(s: u32, byte: u8) -> u32
    ensures { mirror 32 result ≡ crc_bits 8 byte (mirror 32 s) }
{
    let a = s ^ u32::from(byte);
    nibbles_out::<2>(a) ^ a / 256
}

// Four bytes shifted in: as one word, the first lowest.
fn four_in(s: u32, four: [u8; 4]) -> u32
    ensures { mirror 32 result ≡ crc_from (mirror 32 s) four }
{
    nibbles_out::<8>(s ^ u32::from_le_bytes(four))
}

// The remainder s, taken on over the bytes, four at a time.
fn remainder_from(s: u32, bytes: &[u8]) -> u32
    ensures { mirror 32 result ≡ crc_from (mirror 32 s) bytes.now }
{
    let (fours, rest) = bytes.as_chunks::<4>();
    let mut r = s;
    for &four in fours {
        r = four_in(r, four);
    }
    for &byte in rest {
        r = byte_in(r, byte);
    }
    r
}

// The remainder over the bytes.
pub fn remainder(bytes: &[u8]) -> u32
    ensures { result ≡ mirror 32 (crc bytes.now) }
{
    remainder_from(0xffff_ffff, bytes)
}

// The frame check sequence of the bytes, as a number whose lowest byte goes out first: the complement.
pub fn fcs(bytes: &[u8]) -> u32
    ensures { result ≡ fcs_word bytes.now }
{
    !remainder(bytes)
}
