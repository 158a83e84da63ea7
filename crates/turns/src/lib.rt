// One step of the bench, on a chip of either layout: a record, and what becomes of it.
#![tactic(auto)]

mod turn; // turn.rt: its arms, by what the record asks for

pub use turn::{answer, answer_cut, gather_more};
