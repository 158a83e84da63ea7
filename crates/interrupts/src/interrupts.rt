// Interrupt status, EPH, acknowledge, and the line.
ghost use Rattle.std.specs.Prelude.{◌≡◌, ◌&&◌, ◌||◌, List, ℕ, ◌+◌, ◌*◌, ◌<◌, length};
ghost use Rattle.rules.specs.Bits.{bit, flag, word_of};
ghost use Rattle.rules.specs.Chip.{Layout};
ghost use Rattle.rules.specs.Interrupts as rules;
ghost use Rattle.rules.specs.Registers as registers;
ghost use Rattle.rules.specs.Registers.{lanes_at, write_register};
ghost use Rattle.state.specs.Meaning.{width_of, Placed};
ghost use Rattle.state.specs.View.{registers_in, figures, view_of, Kept};
ghost use Rattle.state.specs.Promise.{QueuesIn, PagesIn, MakesOf};
ghost use Rattle.interrupts.specs.Promises.{Acknowledges};

use crate::link::has_changed;
use crate::words::{high_only, latches_after};
use pool::Completion;
use state::{
    Answer, COMPLETION_COUNT, CONTROL, EPHSR, INTERRUPT, LATCHES, LINK, PACKET, RX_COUNT, Width,
    flags,
};

// Has a send failed, by EPHSR?
fn failed(ephsr: u16) -> bool
    ensures { result ≡ rules.failed ephsr }
{
    let a = bits::either(
        bits::is_set(ephsr, flags::TXUNRN),
        bits::is_set(ephsr, flags::LOST_CARR),
    );
    let b = bits::either(a, bits::is_set(ephsr, flags::LATCOL));
    let c = bits::either(b, bits::is_set(ephsr, flags::SQET));
    let d = bits::either(c, bits::is_set(ephsr, flags::COL16));
    bits::both(d, !bits::is_set(ephsr, flags::TX_SUC))
}

// EPH: a counter is full, a send has failed, or a change of the link was seen.
fn eph(ephsr: u16, control: u16, link: u16) -> bool
    requires { link < 4 }
    ensures { result ≡ (bit 12 ephsr && bit 6 control) || (rules.failed ephsr && bit 5 control) || (bit 1 link && bit 7 control) }
{
    let full = bits::both(
        bits::is_set(ephsr, flags::CTR_ROL),
        bits::is_set(control, flags::CR_ENABLE),
    );
    let fail = bits::both(failed(ephsr), bits::is_set(control, flags::TE_ENABLE));
    let change = bits::both(has_changed(link), bits::is_set(control, flags::LE_ENABLE));
    bits::either(bits::either(full, fail), change)
}

// The bits of interrupt status; the latches stand at theirs.
fn gathered(rx: bool, completion: bool, latches: u16, granted: bool, eph: bool) -> u16
    requires { latches < 21 }
    ensures sum { result ≡ flag rx + 2 * flag completion + latches + 8 * flag granted + 32 * flag eph }
    ensures small { result < 64 }
{
    let low = (1 << flags::RCV_INT) * bits::flag_of(rx)
        + (1 << flags::TX_INT) * bits::flag_of(completion);
    low + latches
        + (1 << flags::ALLOC_INT) * bits::flag_of(granted)
        + (1 << flags::EPH_INT) * bits::flag_of(eph)
}

// Interrupt status. It and the line are those of the queues that the counts are right for, which are not looked at.
pub fn status(words: &[u16]) -> u16
    requires { Kept words.now }
    ensures shown { (l : Layout) (s q mem : List ℕ) → QueuesIn (figures words.now) q → result ≡ rules.status (view_of l words.now s q mem) }
    ensures small { result < 64 }
{
    let granted = !bits::is_set(words[PACKET], flags::ALLOCATION_FAILED);
    let eph = eph(words[EPHSR], words[CONTROL], words[LINK]);
    gathered(
        words[RX_COUNT] != 0,
        words[COMPLETION_COUNT] != 0,
        words[LATCHES],
        granted,
        eph,
    )
}

// Is the interrupt line up?
pub fn line_up(words: &[u16]) -> bool
    requires { Kept words.now × ((q : List ℕ) × QueuesIn (figures words.now) q) }
    ensures { (l : Layout) (s q mem : List ℕ) → QueuesIn (figures words.now) q → result ≡ rules.line_up (view_of l words.now s q mem) }
{
    status(words) & (words[INTERRUPT] / 256) != 0
}

// Interrupt status, and the mask above it.
pub fn interrupt(words: &[u16]) -> u16
    requires { Kept words.now × ((q : List ℕ) × QueuesIn (figures words.now) q) }
    ensures { (l : Layout) (s q mem : List ℕ) → QueuesIn (figures words.now) q → result ≡ word_of (rules.status (view_of l words.now s q mem)) (registers_in words.now).mask }
{
    status(words) + words[INTERRUPT]
}

// A write of the low byte of v to interrupt status: bit 1 removes the head of completion, 2 and 4 clear their latch.
fn acknowledge(words: &mut [u16], queues: &mut [u8], v: u16)
    requires { Kept words.old × QueuesIn (figures words.old) queues.old }
    ensures { Acknowledges v words.old queues.old words.new queues.new }
{
    words[LATCHES] = latches_after(words[LATCHES], v);
    if !bits::is_set(v, flags::TX_INT) {
        return;
    }
    if words[COMPLETION_COUNT] == 0 {
        return;
    }
    pool::leave::<Completion>(words, queues);
}

// Interrupt status is acknowledged, the mask stored.
pub fn write_interrupt(
    words: &mut [u16],
    queues: &mut [u8],
    width: Width,
    offset: u8,
    value: u16,
) -> Answer
    requires { Kept words.old × QueuesIn (figures words.old) queues.old × Placed width offset × ((l : Layout) × (s : List ℕ) × PagesIn l (figures words.old) s) }
    ensures done { (l : Layout) (s mem : List ℕ) → PagesIn l (figures words.old) s → MakesOf l (write_register registers.INTERRUPT (lanes_at (width_of width) offset) value (view_of l words.old s queues.old mem)) result words.new s queues.new mem }
    ensures long { (length words.new ≡ 32) × (length queues.new ≡ 72) }
{
    words[INTERRUPT] = high_only(state::merged(width, offset, value, words[INTERRUPT]));
    if state::is_high(width, offset) {
        return Ok(0);
    }
    acknowledge(words, queues, value);
    Ok(0)
}
