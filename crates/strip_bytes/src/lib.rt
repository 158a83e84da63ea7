// A packet's bytes in its own strip: memory has a strip of 2,048 bytes for each packet, and byte a of packet k is memory[2048 * k + a].
#![tactic(auto)]

mod access; // access.rt: a byte or a word at an address
mod frame; // frame.rt: a whole frame

pub use access::{read_byte, read_word, write_byte, write_word};
pub use frame::{copy_out, store_frame};
