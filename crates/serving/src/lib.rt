// The bench behind its programs: one record after another, from standard input to standard output.
#![tactic(auto)]

mod bench; // bench.rt: the chip's state, and what is lent beside it
mod serve; // serve.rt: reading, answering and writing until the input ends

pub use serve::{run, watch};
