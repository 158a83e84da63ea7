// What the programs ask of the runtime.
ghost use Rattle.std.specs.Io.{ReadsAtMost};

use std::io::{Eprint, Print, Read, Result, Write};
use std::time::Clock;

// The three standard streams, none of them buffered, and the clock. What is printed as text goes by `Print` and `Eprint`.
pub trait StandardStreams: Print + Eprint + Clock {
    // Reads what is there, once.
    fn read_input(&self, buf: &mut [u8]) -> Result<usize>
        ensures bound { ReadsAtMost result buf.new };

    // Writes the bytes to standard error, which need not be text, as far as it takes them.
    fn complain(&self, bytes: &[u8]);
}

impl StandardStreams for HostRuntime {
    fn read_input(&self, buf: &mut [u8]) -> Result<usize> {
        self.stdin().read(buf)
    }

    fn complain(&self, bytes: &[u8]) {
        let _ = Write::write_all(&mut self.stderr(), bytes);
    }
}
