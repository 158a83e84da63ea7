// The pointer and the data accesses, over the lent state: what both layouts have of them, and those of the paged chip.
#![tactic(auto)]

mod checks; // checks.rt: which packet the pointer means, and where the first byte lies or why it is refused
mod layout; // layout.rt: data accesses in either layout
mod pointer; // pointer.rt: the pointer after an access
mod reads; // reads.rt: reads behind the gate
mod writes; // writes.rt: writes behind the gate

pub use checks::{is_against, is_odd_fixed, meant, refusal};
pub use layout::Data;
pub use pointer::advance;

// Where an access goes: the place of its first byte, in the lowest page of the set, which is the packet's from there on.
#[derive(Clone, Copy)]
struct Spot {
    at: usize,
    rest: u32,
}
