// Which packet the pointer means, and where the first byte of an access lies or why it is refused.
ghost use Rattle.std.specs.Prelude.{◌≡◌, ◌+◌, ◌*◌, ◌%◌, ◌<◌, get_or, Err};
ghost use Rattle.rules.specs.Answers as rules;
ghost use Rattle.rules.specs.Data.{against, odd_fixed};
ghost use Rattle.sets.specs.Views.{pages_of};
ghost use Rattle.state.specs.Meaning.{reply_of};
ghost use Rattle.state.specs.View.{word, figures, Kept};
ghost use Rattle.state.specs.Promise.{QueuesIn, Sound};
ghost use Rattle.data.specs.Access.{meant_in, pages_meant, refusal_if, Guards};

use crate::Spot;
use pool::Rx;
use sets::{Address, Packet};
use state::{PACKET, PAGE_BYTES, PLACES, POINTER, RX_COUNT, Refusal, flags};

// RCV set means the head of RX, clear means the packet number register. No packet of either part has the number PLACES, which stands for the head of an empty RX.
pub fn meant(words: &[u16], queues: &[u8]) -> Packet
    requires { Kept words.now × QueuesIn (figures words.now) queues.now }
    ensures { result.0 ≡ meant_in words.now queues.now }
{
    if !bits::is_set(words[POINTER], flags::RCV) {
        return Packet(bits::low_byte(words[PACKET]));
    }
    if words[RX_COUNT] == 0 {
        return Packet(PLACES);
    }
    pool::head::<Rx>(queues)
}

// Refusal 8: is the access against the READ bit?
pub fn is_against(pointer: u16, reading: bool) -> bool
    ensures { result ≡ against reading pointer }
{
    if reading {
        return !bits::is_set(pointer, flags::READ);
    }
    bits::is_set(pointer, flags::READ)
}

// Refusal 9: is the pointer odd, and AUTO INCR clear?
pub fn is_odd_fixed(pointer: u16) -> bool
    ensures { result ≡ odd_fixed pointer }
{
    bits::both(
        bits::is_set(pointer, 0),
        !bits::is_set(pointer, flags::AUTO_INCR),
    )
}

// The refusals in their order: 7 or 5, 8, 9, 10.
pub fn refusal(has_pages: bool, reading: bool, pointer: u16) -> Refusal
    ensures { reply_of (Err result) ≡ rules.refusal (refusal_if has_pages reading pointer) }
{
    if !has_pages {
        if bits::is_set(pointer, flags::RCV) {
            return Refusal::RxEmpty;
        }
        return Refusal::NotAllocated;
    }
    if is_against(pointer, reading) {
        return Refusal::AgainstRead;
    }
    if is_odd_fixed(pointer) {
        return Refusal::OddPointer;
    }
    Refusal::PastPages
}

// Where byte `at` of the set's lowest page lies in memory.
pub fn place_in(set: u32, at: Address) -> usize
    requires { 0 < set }
    ensures { result ≡ get_or (pages_of set) 0 0 * 256 + at.0 % 256 }
{
    sets::lowest_page(set).0 as usize * 256 + at.0 as usize % 256
}

// May an access to the first byte go on?
fn checked(set: u32, reading: bool, pointer: u16) -> Result<Spot, Refusal>
    ensures { Guards reading pointer (pages_of set) result }
{
    let rest = sets::without(set, pointer as u32 % 2048 / PAGE_BYTES);
    let refused = bits::either(is_against(pointer, reading), is_odd_fixed(pointer));
    if bits::either(rest == 0, refused) {
        return Err(refusal(sets::has_pages(set), reading, pointer));
    }
    let at = place_in(rest, Address(pointer));
    Ok(Spot { at, rest })
}

// The same, for the packet that the pointer means.
pub fn gate_of(words: &[u16], sets: &[u32], queues: &[u8], reading: bool) -> Result<Spot, Refusal>
    requires { Sound words.now sets.now queues.now }
    ensures { Guards reading (word words.now 19) (pages_meant words.now sets.now queues.now) result }
{
    let set = sets::set_of(sets, meant(words, queues));
    checked(set, reading, words[POINTER])
}
