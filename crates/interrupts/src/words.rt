// What a write leaves of a word.
ghost use Rattle.std.specs.Prelude.{◌≡◌, ◌*◌, ◌/◌};
ghost use Rattle.state.specs.View.{Latches};
ghost use Rattle.interrupts.specs.Promises.{Acknowledged};

// A word without its low byte.
pub fn high_only(x: u16) -> u16
    ensures { result ≡ x / 256 * 256 }
{
    x / 256 * 256
}

// The latches after an acknowledge by the low byte of v.
pub fn latches_after(latches: u16, v: u16) -> u16
    requires { Latches latches }
    ensures { Acknowledged v latches result }
{
    latches & (0xffff - v)
}
