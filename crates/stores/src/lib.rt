// Where a packet's bytes lie in memory, in either layout: in the pages of its set, or in a row in its own strip.
#![tactic(auto)]

mod paged; // paged.rt: by the packet's page set
mod store; // store.rt: what both layouts do
mod strip; // strip.rt: in the packet's own strip

pub use paged::PageSet;
pub use store::Store;
pub use strip::Strip;
