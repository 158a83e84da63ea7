// Writing standard output.
ghost use Rattle.std.specs.Prelude.{◌≡◌, ◌≤◌, ◌<◌, length, IfOk, IfErr};

use crate::handle::StandardStreams;
use crate::wait::{is_early, pause};
use std::io;
use std::io::{Error, ErrorKind};

// Why not all of the bytes were taken, and how many were.
#[derive(Drop)]
pub struct Unwritten {
    pub done: usize,
    pub reason: Error,
}

// Writes some of the bytes, and waits until one at least is taken. Returns how many were: 0 where none can be.
fn write_some(rt: &impl StandardStreams, bytes: &[u8]) -> io::Result<usize>
    ensures { IfOk result (λ n. n ≤ length bytes.now) }
{
    for _ in 0..u64::MAX {
        match rt.write_some(bytes) {
            Ok(n) => return Ok(n),
            Err(reason) if is_early(reason) => pause(rt),
            Err(reason) => return Err(reason),
        }
    }
    Ok(0)
}

// Writes the bytes, and returns how many were taken: all, unless the output cannot be written.
pub fn write_out(rt: &impl StandardStreams, bytes: &[u8]) -> Result<usize, Unwritten>
    ensures all { IfOk result (λ n. n ≡ length bytes.now) }
    ensures part { IfErr result (λ e. e.done < length bytes.now) }
{
    let mut done = 0;
    while done < bytes.len() {
        match write_some(rt, &bytes[done..]) {
            Ok(0) => {
                let reason = Error::from(ErrorKind::WriteZero);
                return Err(Unwritten { done, reason });
            }
            Ok(n) => done += n,
            Err(reason) => return Err(Unwritten { done, reason }),
        }
    }
    Ok(done)
}
