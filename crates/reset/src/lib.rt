// Reset values, at power-up and by RCR, whose bit 15 resets.
#![tactic(auto)]

mod resets; // resets.rt: reset values, and RCR
mod words; // words.rt: what a write leaves of RCR

pub use resets::{reset_words, write_rcr, zeroed};
pub use words::new_rcr;
