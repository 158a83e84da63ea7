// Document 01's interrupts: status, the line, and what a write to interrupt status and mask does.
#![tactic(auto)]

mod interrupts; // interrupts.rt: interrupt status, acknowledge, the line
mod link; // link.rt: was a change of the link seen
mod words; // words.rt: what a write leaves of a word

pub use interrupts::{interrupt, line_up, write_interrupt};
