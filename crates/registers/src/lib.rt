// Document 01's section "Registers", but for data accesses, MMU commands, interrupts and RCR: what each register reads, and what a write to it does.
#![tactic(auto)]

mod link; // link.rt: the link set
mod reads; // reads.rt: reads that are not a word as it stands
mod words; // words.rt: what a write leaves of a word
mod writes; // writes.rt: writes

pub use link::plug;
pub use reads::{ephsr, heads, read_ecr};
pub use words::HIGH_33;
pub use writes::{write_bank, write_control, write_packet, write_reserved, write_tcr, write_word};
