// A record of eight bytes, as the benches read one by itself; and all of the input at once.
ghost use Rattle.std.specs.Prelude.{◌≡◌, ◌≤◌, length};

use crate::errors::unread;
use crate::handle::StandardStreams;
use crate::input::read_more;

// Reads a record: eight bytes, or those that are left where the input ends. That it cannot be read is said. Returns how many bytes there are.
pub fn read_record(
    rt: &impl StandardStreams,
    program: &[u8],
    bytes: &mut [u8],
    number: u64,
) -> usize
    requires { (length bytes.old ≡ 8) × (1 ≤ number) }
    ensures { result ≤ 8 }
{
    let mut filled = 0;
    while filled < 8 {
        match read_more(rt, bytes, filled) {
            Ok(Some(n)) => filled = n,
            Ok(None) => break,
            Err(reason) => {
                unread(rt, program, number - 1, reason);
                break;
            }
        }
    }
    filled
}

// Fills the buffer, up to where the input ends, or cannot be read, which is not said. Returns how many bytes there are.
pub fn read_full(rt: &impl StandardStreams, bytes: &mut [u8]) -> usize
    ensures { result ≤ length bytes.old }
{
    let mut filled = 0;
    while filled < bytes.len() {
        let Ok(Some(n)) = read_more(rt, bytes, filled) else {
            break;
        };
        filled = n;
    }
    filled
}
