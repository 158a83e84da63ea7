// The chip, and one record of the bench, as functions that C links: include/skarvoya.h (document 02, W6). State, memory and buffers are lent, of whatever length and
// contents; each function looks at what it was lent, refuses what is not in order, and calls the step that other crates promise.
#![tactic(auto)]

mod driver; // driver.rt: accesses of the driver to the sixteen I/O addresses
mod events; // events.rt: arriving frames, finished sends and link events
mod entries; // entries.rt: power-up, and the interrupt line
mod record; // record.rt: a record of the bench, and its printed line

pub use driver::{skarvoya_read, skarvoya_write};
pub use entries::{skarvoya_line, skarvoya_power_up};
pub use events::{skarvoya_frame, skarvoya_link, skarvoya_send};
pub use record::skarvoya_record;
