// What becomes of a frame: the first that holds.
ghost use Rattle.std.specs.Prelude.{◌≡◌, ◌||◌, ◌+◌, ◌/◌, ◌%◌, ◌≤◌, ltb, length};
ghost use Rattle.rules.specs.Receive.{bad_crc, dropped, needed, judge};
ghost use Rattle.state.specs.View.{word, registers_in};
ghost use Rattle.judging.specs.Frames.{frame_of, with_control};
ghost use Rattle.judging.specs.Verdicts.{arrival_of};

use crate::Rejection;
use crate::address::{destination, is_accepted};
use crate::check::is_bad;
use crate::length::{LONGEST_STORED, SHORTEST, data_length, pages_for};
use state::{CONTROL, RCR, RESERVED, flags};

// Flagged or under 64 bytes. The CRC is asked last: it goes through the whole frame.
fn is_flawed(frame: &[u8], alignment: bool) -> bool
    requires { 18 ≤ length frame.now }
    ensures { result ≡ bad_crc frame.now || alignment || ltb (length frame.now) 64 }
{
    alignment || frame.len() < SHORTEST || is_bad(frame)
}

// Such a frame is dropped unless RCV_BAD is set.
#[tactic(auto, unfolding(rules::specs::Receive::dropped))]
fn is_dropped(control: u16, frame: &[u8], alignment: bool) -> bool
    requires { 18 ≤ length frame.now }
    ensures { result ≡ dropped (with_control control) (frame_of frame.now alignment) }
{
    !bits::is_set(control, flags::RCV_BAD) && is_flawed(frame, alignment)
}

// Fewer pages are free than the frame needs together with those reserved for transmit, the low byte of their word.
#[tactic(auto, using(wellformed::specs::Frames::data_short, crate::proofs::Facts::few_pages, crate::specs::Frames::needed_by))]
fn is_full(words: &[u16], len: usize) -> bool
    requires { (length words.now ≡ 32) × (18 ≤ len) × (len ≤ 1532) }
    ensures { result ≡ ltb (word words.now 4 / 256) (needed (registers_in words.now) len + word words.now 5 % 256) }
{
    let need = pages_for(data_length(words[RCR], len));
    pages::free_count(words) < need + (words[RESERVED] % 256) as u32
}

// By the words alone: MIR's high byte counts the free pages.
#[tactic(auto, unfolding(rules::specs::Receive::judge, rules::specs::Receive::dropped))]
pub fn judged(words: &[u16], frame: &[u8], alignment: bool) -> Result<(), Rejection>
    requires { (length words.now ≡ 32) × (18 ≤ length frame.now) }
    ensures { arrival_of result ≡ judge (registers_in words.now) (word words.now 4 / 256) (frame_of frame.now alignment) }
{
    if !bits::is_set(words[RCR], flags::RXEN) {
        return Err(Rejection::Disabled);
    }
    if !is_accepted(destination(frame), words) {
        return Err(Rejection::NotAccepted);
    }
    let len = frame.len();
    if LONGEST_STORED < len {
        return Err(Rejection::TooLong);
    }
    if is_dropped(words[CONTROL], frame, alignment) {
        return Err(Rejection::Bad);
    }
    if is_full(words, len) {
        return Err(Rejection::NoRoom);
    }
    Ok(())
}
