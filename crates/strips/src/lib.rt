// The chip of strips (document 02, W3): each packet has a strip of eight pages of its own, and of pages there are only numbers: how many each packet has, and how many are free.
#![tactic(auto)]

mod access; // access.rt: data accesses
mod counts; // counts.rt: how many pages each packet has, granted and given back
mod order; // order.rt: is a state in order, refusal 16

pub use counts::{Strips, pages_of};
