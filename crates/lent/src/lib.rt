// What C lends to the functions of `skarvoya`: is it in order, a part started in it, and what a call returns. State and memory are slices, of whatever length and
// contents.
#![tactic(auto)]

mod order; // order.rt: is what was lent in order, refusal 16
mod start; // start.rt: a part at power-up in what was lent
mod returned; // returned.rt: what a call returns

pub use order::{in_order, long_as, ready};
pub use returned::{told, width_of};
pub use start::started;
