// The pointer after an access.
ghost use Rattle.std.specs.Prelude.{◌≡◌, ◌<◌};
ghost use Rattle.rules.specs.Data.{next};
ghost use Rattle.state.specs.View.{Kept};
ghost use Rattle.state.specs.Promise.{Sets};
ghost use Rattle.data.specs.Access.{moves};

use state::{POINTER, flags};

// A packet's addresses: eight pages.
const ADDRESSES: u16 = 2048;

// With AUTO INCR the address grows by the width, modulo 2,048; other bits stay.
fn next_pointer(pointer: u16, width: u16) -> u16
    requires { width < 3 }
    ensures { result ≡ next width pointer }
{
    if bits::is_set(pointer, flags::AUTO_INCR) {
        return pointer / ADDRESSES * ADDRESSES + (pointer % ADDRESSES + width) % ADDRESSES;
    }
    pointer
}

pub fn advance(words: &mut [u16], width: u16)
    requires { Kept words.old × (width < 3) }
    ensures { Sets (moves width) words.old words.new }
{
    words[POINTER] = next_pointer(words[POINTER], width);
}
