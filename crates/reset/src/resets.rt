// Reset values, and the soft reset by RCR.
ghost use Rattle.std.specs.Prelude.{◌≡◌, List, ℕ, length, replicate};
ghost use Rattle.rules.specs.Chip.{Layout};
ghost use Rattle.rules.specs.Registers as rules;
ghost use Rattle.state.specs.Meaning.{width_of};
ghost use Rattle.state.specs.View.{view_of};
ghost use Rattle.state.specs.Promise.{SoundOf, MakesOf};
ghost use Rattle.reset.specs.Promises.{zero_but, WordsReset, SoftResetsOf};

use crate::words::new_rcr;
use registers::HIGH_33;
use state::{Answer, BANK, LATCHES, LINK, PACKET, RCR, RESERVED, STATION, Width, flags};

// Every word is 0.
pub fn zeroed(words: &mut [u16])
    ensures { words.new ≡ replicate (length words.old) 0 }
{
    let mut k = 0;
    while k < words.len() {
        words[k] = 0;
        k += 1;
    }
}

// Every word is 0 but those of the station address.
fn cleared_words(words: &mut [u16])
    requires { length words.old ≡ 32 }
    ensures zeros { words.new ≡ zero_but words.old }
    ensures long { length words.new ≡ 32 }
{
    zeroed(&mut words[0..STATION]);
    zeroed(&mut words[STATION + 3..32]);
}

// The reset values of all words but those of the station address, which stays; so does the link, and its change is forgotten.
pub fn reset_words(words: &mut [u16])
    requires { length words.old ≡ 32 }
    ensures { WordsReset words.old words.new }
{
    let link = words[LINK] % 2;
    cleared_words(words);
    words[LINK] = link;
    words[RESERVED] = HIGH_33;
    words[BANK] = HIGH_33;
    words[LATCHES] = 1 << flags::TX_EMPTY;
    words[PACKET] = 1 << flags::ALLOCATION_FAILED;
}

// All is reset but the station address, the link and the memory.
fn soft_reset(words: &mut [u16], sets: &mut [u32], queues: &mut [u8])
    requires { (l : Layout) × SoundOf l words.old sets.old queues.old }
    ensures { (l : Layout) → SoundOf l words.old sets.old queues.old → SoftResetsOf l words.old sets.old queues.old words.new sets.new queues.new }
{
    reset_words(words);
    pool::reset(words, sets, queues);
    words[RCR] = 1 << flags::SOFT_RST;
}

// RCR. A write that leaves bit 15 set resets.
pub fn write_rcr(
    words: &mut [u16],
    sets: &mut [u32],
    queues: &mut [u8],
    width: Width,
    offset: u8,
    value: u16,
) -> Answer
    requires { (l : Layout) × SoundOf l words.old sets.old queues.old }
    ensures done { (l : Layout) (mem : List ℕ) → SoundOf l words.old sets.old queues.old → MakesOf l (rules.write_register rules.RCR (rules.lanes_at (width_of width) offset) value (view_of l words.old sets.old queues.old mem)) result words.new sets.new queues.new mem }
    ensures long { (length words.new ≡ 32) × (length sets.new ≡ length sets.old) × (length queues.new ≡ 72) }
{
    let rcr = new_rcr(width, offset, value, words[RCR]);
    if bits::is_set(rcr, flags::SOFT_RST) {
        soft_reset(words, sets, queues);
        return Ok(0);
    }
    words[RCR] = rcr;
    Ok(0)
}
