// The link, which a new event sets.
ghost use Rattle.std.specs.Prelude.{◌≡◌, length};
ghost use Rattle.rules.specs.Link as rules;
ghost use Rattle.state.specs.View.{Kept};
ghost use Rattle.state.specs.Promise.{Does};

use state::{Answer, LINK, Refusal, flags};

// The link is down (0) or up (1). The same state again is no change.
pub fn plug(words: &mut [u16], up: u8) -> Answer
    requires { Kept words.old }
    ensures done { Does (rules.plug up) words.old result words.new }
    ensures long { length words.new ≡ 32 }
{
    if 1 < up {
        return Err(Refusal::OutsideLimits);
    }
    if words[LINK] % 2 == up as u16 {
        return Ok(0);
    }
    words[LINK] = (1 << flags::LINK_CHANGED) + up as u16;
    Ok(0)
}
