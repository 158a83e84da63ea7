// What a record asks for.
ghost use Rattle.std.specs.Prelude.{◌≡◌, length};
ghost use Rattle.rules.specs.Bench.{event_of, asks_for};
ghost use Rattle.rules.specs.Watch.{is_send};
ghost use Rattle.state.specs.Meaning.{packets_named};
ghost use Rattle.records.specs.Event.{meant};

use state::{Part, Width};

// Width, offset and value of an access, the count of wire bytes, the flag alignment, a send's outcome, collisions and deferral, the link's byte, and the part's.
#[derive(Clone, Copy)]
pub enum Event {
    Read(Width, u8),
    Write(Width, u8, u16),
    Wire(u8),
    Ends(bool),
    Send(u8, u8, u8),
    Link(u8),
    Part(u8),
    Unknown,
}

pub fn event_of(bytes: &[u8]) -> Event
    requires { length bytes.now ≡ 8 }
    ensures { meant result bytes.now ≡ event_of bytes.now }
{
    match bytes[0] {
        1 => Event::Read(Width::Byte, bytes[1]),
        2 => Event::Read(Width::Word, bytes[1]),
        3 => Event::Write(Width::Byte, bytes[1], bits::word(bytes[2], bytes[3])),
        4 => Event::Write(Width::Word, bytes[1], bits::word(bytes[2], bytes[3])),
        5 => Event::Wire(bytes[1]),
        6 => Event::Ends(bits::byte_is_set(bytes[1], 1)),
        7 => Event::Send(bytes[1], bytes[2], bytes[3]),
        8 => Event::Link(bytes[1]),
        9 => Event::Part(bytes[1]),
        _ => Event::Unknown,
    }
}

// The part that a record asks for, if it asks for one.
pub fn part_asked(bytes: &[u8]) -> Option<Part>
    requires { length bytes.now ≡ 8 }
    ensures { packets_named result ≡ asks_for (event_of bytes.now) }
{
    if bytes[0] != 9 {
        return None;
    }
    state::part_named(bytes[1])
}

// Is it a send?
pub fn is_send(bytes: &[u8]) -> bool
    requires { length bytes.now ≡ 8 }
    ensures { result ≡ is_send (event_of bytes.now) }
{
    bytes[0] == 7
}
