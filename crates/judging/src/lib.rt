// What becomes of a frame that arrives, by its bytes and the registers: the verdict; and of one that is stored its length, pages and status.
#![tactic(auto)]

mod address; // address.rt: the destination address, and whether it is accepted
mod check; // check.rt: the frame check sequence
mod length; // length.rt: how much is stored of a frame, and its status
mod judge; // judge.rt: the verdict

// `judged` and `status_of` may ask for no narrower type than two slices and a flag, so the parts too are lent the words and the frame as slices.
pub use judge::judged;
pub use length::{count_of, data_length, pages_for, status_of};

// Why a frame is not stored; the answer's value in the order of document 01 is 1 to 5.
#[derive(Clone, Copy, PartialEq, Eq)]
pub enum Rejection {
    Disabled,
    NotAccepted,
    TooLong,
    Bad,
    NoRoom,
}
