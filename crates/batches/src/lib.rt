// The records at hand, on the paged chip: each is answered, and its line joins those to be written.
#![tactic(auto)]

mod batch; // batch.rt: the records of a read, and the line of each

pub use batch::{answer_all, last_line, lone_line};
