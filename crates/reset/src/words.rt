// What a write leaves of RCR.
ghost use Rattle.std.specs.Prelude.{◌≡◌};
ghost use Rattle.rules.specs.Registers as rules;
ghost use Rattle.state.specs.Meaning.{width_of};

use state::{Width, flags};

// RX_ABORT is cleared by a write, never set.
pub fn new_rcr(width: Width, offset: u8, value: u16, rcr: u16) -> u16
    ensures { result ≡ rules.new_rcr (rules.lanes_at (width_of width) offset) value rcr }
{
    let x = state::merged(width, offset, value, rcr);
    if bits::is_set(rcr, flags::RX_ABORT) {
        return x;
    }
    bits::with_clear(x, flags::RX_ABORT)
}
