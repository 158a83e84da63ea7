// Which pages are free, and who gets them. Page sets and the free count that MIR keeps change here alone (a reset of all is `pool`'s): where pages are granted, and where they are given back.
#![tactic(auto)]

mod layout; // layout.rt: how a chip lays its packets' pages out
mod pages; // pages.rt: pages granted and made free, and how many are free
mod requests; // requests.rt: allocations, and pages given back

pub use layout::{Layout, Paged};
pub use pages::{fewer, free_count, grant, more};
pub use requests::{allocate, give_back, give_result};
