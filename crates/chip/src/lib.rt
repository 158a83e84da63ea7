// The chip, of either layout: every access, arriving frame, finished send and link event. Each has two doors: a public entry for any record and memory, by value, which refuses with 16
// what is not in order; and the same step below it, over a state that its caller lends and keeps in order, with a number for the packets of its part alone.
#![tactic(auto)]

mod driver; // driver.rt: accesses of the driver to the sixteen I/O addresses
mod frames; // frames.rt: arriving frames
mod sends; // sends.rt: finished sends
mod links; // links.rt: link events
mod entries; // entries.rt: power-up, and the interrupt line
mod order; // order.rt: is a record in order, refusal 16

use data::Data;
pub use driver::{Request, access, read, read_whole, write, write_whole};
pub use entries::{line, power_up, powered};
pub use frames::{arrived, arrived_whole, frame};
use guard::Ordered;
pub use links::{link, linked, linked_whole};
use pages::Paged;
pub use sends::{finished, finished_whole, send};
use stores::Store;
use strips::Strips;

// What a layout has: whose pages are whose, where bytes lie, data accesses, and what is in order.
pub trait Chip: Data + Store + Ordered {}

impl Chip for Paged {}

impl Chip for Strips {}
