// A packet's bytes in memory. Packet address a lies in page a / 256 of the packet's set, so adjacent addresses may lie in pages that are not adjacent.
#![tactic(auto)]

mod access; // access.rt: a byte or a word at an address
mod fill; // fill.rt: a run of bytes, page by page
mod frame; // frame.rt: a whole frame

pub use access::{read_byte, read_word, write_status};
pub use fill::{copy_out, fill_part};
pub use frame::store_frame;
