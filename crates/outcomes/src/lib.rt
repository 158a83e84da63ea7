// What follows from how a send ended (document 01, "A send finishes"): the registers and TX after it, and what becomes of its packet.
#![tactic(auto)]

mod event; // event.rt: how a send ended
mod nibbles; // nibbles.rt: the nibbles of ECR
mod status; // status.rt: EPHSR and TCR after it
mod after; // after.rt: the registers and TX after it
mod completion; // completion.rt: what becomes of the packet

pub use after::after_send;
pub use completion::{is_full, is_released, retire};
pub use event::{is_good, is_within};

// How a send ended, as its input says; `send_of` gives the rules' record of it. Bytes, since `is_within` and `is_good` answer for any number.
#[derive(Clone, Copy)]
pub struct Send {
    pub outcome: u8,
    pub collisions: u8,
    pub deferral: u8,
}

// The nibbles of ECR, lowest first: good after one collision; two or more; deferral 1; deferral 2.
#[derive(Clone, Copy)]
struct Tally {
    pub single: u16,
    pub several: u16,
    pub deferred: u16,
    pub excessive: u16,
}
