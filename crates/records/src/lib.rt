// The bench program's records: what a record asks for, and the wire bytes gathered so far.
#![tactic(auto)]

mod event; // event.rt: a record's event
mod gather; // gather.rt: wire bytes gathered

pub use event::{Event, event_of, is_send, part_asked};
pub use gather::gathered;
