// Writes that look at the words alone.
ghost use Rattle.std.specs.Prelude.{◌≡◌, ◌<◌, length};
ghost use Rattle.rules.specs.Registers as rules;
ghost use Rattle.state.specs.Meaning.{width_of, Placed};
ghost use Rattle.state.specs.View.{Kept};
ghost use Rattle.state.specs.Promise.{Does};
ghost use Rattle.state.specs.Writes.{Plain};

use crate::words::{HIGH_33, ephsr_after, low_set};
use state::{Answer, BANK, CONTROL, EPHSR, LINK, PACKET, RESERVED, Refusal, TCR, Width};

// A register that is a word, at its place.
pub fn write_word(words: &mut [u16], at: usize, width: Width, offset: u8, value: u16) -> Answer
    requires { Kept words.old × (at < 32) × ((r : rules.Register) × Plain r at) }
    ensures done { (r : rules.Register) → Plain r at → Does (rules.write_register r (rules.lanes_at (width_of width) offset) value) words.old result words.new }
    ensures long { length words.new ≡ 32 }
{
    words[at] = state::merged(width, offset, value, words[at]);
    Ok(0)
}

// TCR, and with TXENA left set EPHSR.
pub fn write_tcr(words: &mut [u16], width: Width, offset: u8, value: u16) -> Answer
    requires { Kept words.old }
    ensures { Does (rules.write_register rules.TCR (rules.lanes_at (width_of width) offset) value) words.old result words.new }
{
    let tcr = state::merged(width, offset, value, words[TCR]);
    words[TCR] = tcr;
    words[EPHSR] = ephsr_after(tcr, words[EPHSR]);
    Ok(0)
}

// Control. A change of the link is forgotten.
pub fn write_control(words: &mut [u16], width: Width, offset: u8, value: u16) -> Answer
    requires { Kept words.old }
    ensures { Does (rules.write_register rules.CONTROL (rules.lanes_at (width_of width) offset) value) words.old result words.new }
{
    words[CONTROL] = state::merged(width, offset, value, words[CONTROL]);
    words[LINK] = words[LINK] % 2;
    Ok(0)
}

// Pages reserved for transmit, beside 33h.
pub fn write_reserved(words: &mut [u16], width: Width, offset: u8, value: u16) -> Answer
    requires { Kept words.old × Placed width offset }
    ensures { Does (rules.write_register rules.RESERVED (rules.lanes_at (width_of width) offset) value) words.old result words.new }
{
    if state::is_high(width, offset) {
        return Err(Refusal::ReadOnly);
    }
    words[RESERVED] = HIGH_33 + value % 256;
    Ok(0)
}

// The packet number, beside the allocation result.
pub fn write_packet(words: &mut [u16], width: Width, offset: u8, value: u16) -> Answer
    requires { Kept words.old × Placed width offset }
    ensures { Does (rules.write_register rules.PACKET (rules.lanes_at (width_of width) offset) value) words.old result words.new }
{
    if state::is_high(width, offset) {
        return Err(Refusal::ReadOnly);
    }
    words[PACKET] = low_set(words[PACKET], value % 64);
    Ok(0)
}

// The bank, beside 33h.
pub fn write_bank(words: &mut [u16], width: Width, offset: u8, value: u16) -> Answer
    requires { Kept words.old × Placed width offset }
    ensures { Does (rules.write_register rules.BANK (rules.lanes_at (width_of width) offset) value) words.old result words.new }
{
    if state::is_high(width, offset) {
        return Err(Refusal::ReadOnly);
    }
    words[BANK] = HIGH_33 + value % 8;
    Ok(0)
}
