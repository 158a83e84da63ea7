// The lent state: 32 words of registers, a page set for each packet of the part, and 72 bytes of queues. What a step answers, and which bytes of a word an access reaches.
#![tactic(auto)]

mod bytes; // bytes.rt: the bytes of a word that an access reads or writes
pub mod flags; // flags.rt: the bits of the words, by the data sheet's names
mod link; // link.rt: EPHSR as it is shown
mod part; // part.rt: the two parts
mod places; // places.rt: which word is which register, and where the queues stand

ghost use Rattle.std.specs.Prelude.{◌≡◌};
ghost use Rattle.state.specs.Meaning.{reply_of};

pub use bytes::{is_high, merged, misplaced, taken};
pub use link::shown_ephsr;
pub use part::{Part, is_part, packets_of, part_named, size_in};
pub use places::{
    BANK, COMMAND, COMPLETION, COMPLETION_COUNT, CONTROL, ECR, EPHSR, HEADS, IN_RX, IN_RX_HIGH,
    IN_TX, IN_TX_HIGH, INTERRUPT, LATCHES, LINK, MIR, PACKET, POINTER, QUEUES_END, RCR, RESERVED,
    RX, RX_COUNT, STATION, STATION_1, STATION_2, TABLE, TABLE_1, TABLE_2, TABLE_3, TCR, TX,
    TX_COUNT, WAITING,
};

// The bytes of a page.
pub const PAGE_BYTES: u32 = 256;

// A record has places for so many packets, and a queue room for all of them: each packet number of either part is below it.
pub const PLACES: u8 = 24;

// What the allocation result and the heads of queues are where there is no packet: bit 7 (FAILED, EMPTY) alone.
pub const NO_PACKET: u8 = 0x80;

#[derive(Clone, Copy, PartialEq, Eq)]
pub enum Width {
    Byte,
    Word,
}

// What a step answers: it is done, with a value, or it is refused. `reply_of` gives document 01's number and value of each.
pub type Answer = Result<u16, Refusal>;

// Document 01's refusals, in the order of their numbers but for the last two, which are 18 and 19.
#[derive(Clone, Copy, PartialEq, Eq)]
pub enum Refusal {
    Misplaced,
    NotModelled,
    ReadOnly,
    Reserved,
    NotAllocated,
    StillQueued,
    RxEmpty,
    AgainstRead,
    OddPointer,
    PastPages,
    OutsideLimits,
    NothingToSend,
    // the byte count, which is odd
    OddCount(u16),
    CompletionFull,
    ShortOutput,
    Damaged,
    // of the bench program alone
    CutShort,
    // the byte count, under 12, and past the packet's pages
    ShortCount(u16),
    LongCount(u16),
}

// What the bench prints of an answer: its number and its value.
#[derive(Clone, Copy)]
pub struct Shown(pub u8, pub u16);

impl From<Answer> for Shown {
    ghost from_gives = { λ a s. (s.0 ≡ (reply_of a).number) × (s.1 ≡ (reply_of a).value) };

    fn from(answer: Answer) -> Shown {
        match answer {
            Ok(value) => Shown(0, value),
            Err(refusal) => shown_refusal(refusal),
        }
    }
}

fn shown_refusal(refusal: Refusal) -> Shown
    ensures { (result.0 ≡ (reply_of (Err refusal)).number) × (result.1 ≡ (reply_of (Err refusal)).value) }
{
    match refusal {
        Refusal::Misplaced => Shown(1, 0),
        Refusal::NotModelled => Shown(2, 0),
        Refusal::ReadOnly => Shown(3, 0),
        Refusal::Reserved => Shown(4, 0),
        Refusal::NotAllocated => Shown(5, 0),
        Refusal::StillQueued => Shown(6, 0),
        Refusal::RxEmpty => Shown(7, 0),
        Refusal::AgainstRead => Shown(8, 0),
        Refusal::OddPointer => Shown(9, 0),
        Refusal::PastPages => Shown(10, 0),
        Refusal::OutsideLimits => Shown(11, 0),
        Refusal::NothingToSend => Shown(12, 0),
        Refusal::OddCount(count) => Shown(13, count),
        Refusal::CompletionFull => Shown(14, 0),
        Refusal::ShortOutput => Shown(15, 0),
        Refusal::Damaged => Shown(16, 0),
        Refusal::CutShort => Shown(17, 0),
        Refusal::ShortCount(count) => Shown(18, count),
        Refusal::LongCount(count) => Shown(19, count),
    }
}

// What the public entries take by value and give back; the steps below them borrow what is in them, and of the page sets those of the part.
#[derive(Drop)]
pub struct Registers {
    pub words: [u16; 32],
}

#[derive(Drop)]
pub struct Pages {
    pub sets: [u32; 24],
}

#[derive(Drop)]
pub struct Queues {
    pub slots: [u8; 72],
}

#[derive(Drop)]
pub struct Returned {
    pub answer: Answer,
    pub registers: Registers,
    pub pages: Pages,
    pub queues: Queues,
}
