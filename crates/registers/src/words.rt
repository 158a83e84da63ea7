// What a write leaves of a word.
ghost use Rattle.std.specs.Prelude.{◌≡◌, cond, ◌+◌, ◌*◌, ◌/◌, ◌<◌};
ghost use Rattle.rules.specs.Bits.{bit};
ghost use Rattle.rules.specs.Registers as rules;

use state::flags;

// The high byte of the bank, and of the pages reserved for transmit, always reads 33h.
pub const HIGH_33: u16 = 0x3300;

// A word with another low byte.
pub fn low_set(x: u16, low: u16) -> u16
    requires { low < 256 }
    ensures { result ≡ x / 256 * 256 + low }
{
    x / 256 * 256 + low
}

// EPHSR without bits 15, 10, 9, 5, 4 and 0.
fn forgotten(ephsr: u16) -> u16
    ensures { result ≡ rules.forgotten ephsr }
{
    let a = bits::with_clear(bits::with_clear(ephsr, flags::TX_SUC), flags::COL16);
    let b = bits::with_clear(bits::with_clear(a, flags::SQET), flags::LATCOL);
    bits::with_clear(bits::with_clear(b, flags::LOST_CARR), flags::TXUNRN)
}

// EPHSR after a write that leaves TCR as it stands here.
pub fn ephsr_after(tcr: u16, ephsr: u16) -> u16
    ensures { result ≡ cond (bit 0 tcr) (rules.forgotten ephsr) ephsr }
{
    if bits::is_set(tcr, flags::TXENA) {
        return forgotten(ephsr);
    }
    ephsr
}
