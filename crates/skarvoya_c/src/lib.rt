// The functions of include/skarvoya.h, exported to C (document 02, W6): each calls the one of its name in the library `skarvoya`, and promises what that promises.
#![tactic(auto)]

mod driver; // driver.rt: accesses of the driver to the sixteen I/O addresses
mod events; // events.rt: arriving frames, finished sends and link events
mod entries; // entries.rt: power-up, and the interrupt line
mod record; // record.rt: a record of the bench

pub use driver::{skarvoya_read, skarvoya_write};
pub use entries::{skarvoya_line, skarvoya_power_up};
pub use events::{skarvoya_frame, skarvoya_link, skarvoya_send};
pub use record::skarvoya_record;
