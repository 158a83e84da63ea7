// The bench program's lines: a record's number, its answer and its value as they are printed, and what `watch` prints beside them.
#![tactic(auto)]

mod count; // count.rt: a record number, and its digits
mod line; // line.rt: the bench's line
mod watched; // watched.rt: the line of `watch`

pub use count::{Counter, counter_of, next};
pub use line::line_at;
pub use watched::watched_at;
