// Reading standard input.
ghost use Rattle.std.specs.Prelude.{◌≡◌, ◌≤◌, length, take};
ghost use Rattle.streams.specs.Reads.{Fills};

use crate::handle::StandardStreams;
use crate::wait::{is_early, pause};
use std::io::Result;

// Reads what is there into the buffer, and waits for a byte at least. Returns how many bytes stand in it then, or that the input has ended.
fn read_some(rt: &impl StandardStreams, buf: &mut [u8]) -> Result<Option<usize>>
    ensures { Fills 0 (length buf.old) result }
{
    for _ in 0..u64::MAX {
        match rt.read_input(buf) {
            Ok(0) => return Ok(None),
            Ok(n) => return Ok(Some(n)),
            Err(reason) if is_early(reason) => pause(rt),
            Err(reason) => return Err(reason),
        }
    }
    Ok(None)
}

// The same behind the bytes that are kept.
pub fn read_more(rt: &impl StandardStreams, input: &mut [u8], kept: usize) -> Result<Option<usize>>
    requires { kept ≤ length input.old }
    ensures filled { Fills kept (length input.old) result }
    ensures stay { take kept input.new ≡ take kept input.old }
{
    let rest = &mut input[kept..];
    Ok(read_some(rt, rest)?.map(|n| kept + n))
}
