// The bench on the chip of strips (document 02, W3), simply written: one record after another, from standard input to standard output.
#![tactic(auto)]

mod serve; // serve.rt: a record is read, answered, and its line written

pub use serve::run;
