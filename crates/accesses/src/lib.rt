// Accesses to the sixteen I/O addresses, on a state that is in order: where the register of an access stands, and one table for reads and one for writes, over all banks.
#![tactic(auto)]

mod reads; // reads.rt: reads
mod writes; // writes.rt: writes

ghost use Rattle.std.specs.Prelude.{◌≡◌, length};
ghost use Rattle.accesses.specs.Lanes.{wide};
ghost use Rattle.accesses.specs.Reach.{place_of};

pub use reads::{read, read_ecr, read_register};
use state::{BANK, Width};
pub use writes::{write, write_register};

// Data's two places: bank 2, offsets 8 to B.
pub const DATA: usize = 20;

pub const DATA_1: usize = 21;

// Does the access move two bytes of data?
pub fn is_wide(width: Width) -> bool
    ensures { result ≡ wide width }
{
    match width {
        Width::Byte => false,
        Width::Word => true,
    }
}

// Where the register of an access stands: at bank * 8 + offset / 2.
pub fn place(words: &[u16], offset: u8) -> usize
    requires { length words.now ≡ 32 }
    ensures { result ≡ place_of words.now offset }
{
    words[BANK] as usize % 8 * 8 + offset as usize / 2
}
