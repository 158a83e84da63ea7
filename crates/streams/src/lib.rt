// Standard input and output for programs in which nothing fails silently: a descriptor that has nothing yet is waited for, and what cannot be read or written
// is told on standard error. What is read or written no contract can say.
#![tactic(auto)]

mod handle; // handle.rt: the streams and the clock, as the runtime has them
mod wait; // wait.rt: a pause, and the failures that are none
mod input; // input.rt: reading
mod output; // output.rt: writing
mod errors; // errors.rt: what is said on standard error
mod record; // record.rt: a record of eight bytes, and all of the input

pub use errors::{misused, unread, unwritten};
pub use handle::StandardStreams;
pub use input::read_more;
pub use output::{Unwritten, write_out};
pub use record::{read_full, read_record};
