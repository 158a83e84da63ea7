// The figures that the words keep: which packets a queue has, and all of them where there are none.
ghost use Rattle.std.specs.Prelude.{◌≡◌, ◌+◌, ◌-◌, ◌^◌, ◌<◌, ◌≤◌, IfSome, length};
ghost use Rattle.state.specs.View.{no_figures, Kept};
ghost use Rattle.state.specs.Stores.{Recounts};
ghost use Rattle.pool.specs.Fifos.{bits_at, with_bits, bits_by};

use crate::Fifo;
use queues::marks;
use sets::Packet;
use state::{COMPLETION_COUNT, IN_RX, IN_RX_HIGH, IN_TX, IN_TX_HIGH, MIR, RX_COUNT, TX_COUNT};

// The bits in two words, the lower 16 in the first.
pub fn bits(words: &[u16], low: usize) -> u32
    requires { low + 1 < length words.now }
    ensures { result ≡ bits_at low words.now }
{
    marks::joined(words[low], words[low + 1])
}

fn store_bits(words: &mut [u16], low: usize, bits: u32)
    requires { low + 1 < length words.old }
    ensures { words.new ≡ with_bits low bits words.old }
{
    words[low] = marks::low_half(bits);
    words[low + 1] = marks::high_half(bits);
}

// The packet's bit, which is clear, is set, where the queue's bits are kept.
pub fn set_bit<Q: Fifo>(words: &mut [u16], packet: Packet)
    requires { (length words.old ≡ 32) × IfSome Q.BITS (λ low. bits_at low words.old + 2 ^ packet.0 < 2 ^ 32) }
    ensures { words.new ≡ bits_by Q.BITS (λ x. x + 2 ^ packet.0) words.old }
{
    if let Some(low) = Q::BITS {
        let before = bits(words, low);
        store_bits(words, low, marks::with(before, packet));
    }
}

// The packet's bit, which is set, is cleared.
pub fn clear_bit<Q: Fifo>(words: &mut [u16], packet: Packet)
    requires { (length words.old ≡ 32) × IfSome Q.BITS (λ low. 2 ^ packet.0 ≤ bits_at low words.old) }
    ensures { words.new ≡ bits_by Q.BITS (λ x. x - 2 ^ packet.0) words.old }
{
    if let Some(low) = Q::BITS {
        let before = bits(words, low);
        store_bits(words, low, marks::without(before, packet));
    }
}

// No bit is set.
pub fn clear_all<Q: Fifo>(words: &mut [u16])
    requires { length words.old ≡ 32 }
    ensures { words.new ≡ bits_by Q.BITS (λ x. 0) words.old }
{
    if let Some(low) = Q::BITS {
        store_bits(words, low, 0);
    }
}

// No packet of so many has pages, and no queue has entries.
pub fn store_none(words: &mut [u16], packets: u8)
    requires { Kept words.old }
    ensures { Recounts (no_figures packets) words.old words.new }
{
    words[RX_COUNT] = 0;
    words[TX_COUNT] = 0;
    words[COMPLETION_COUNT] = 0;
    words[MIR] = bits::word(packets, packets);
    words[IN_RX] = 0;
    words[IN_RX_HIGH] = 0;
    words[IN_TX] = 0;
    words[IN_TX_HIGH] = 0;
}
