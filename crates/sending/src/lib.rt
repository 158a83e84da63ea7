// Document 01, "A send finishes". What follows from how it ended is in `outcomes`.
#![tactic(auto)]

mod address; // address.rt: the kind of the address
mod output; // output.rt: what is put out
mod finish; // finish.rt: all of it, with its refusals

pub use address::address_bits;
pub use finish::finished;
pub use output::{LEAST_COUNT, is_past, put_out};
