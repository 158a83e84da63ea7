// A record, by what it asks for.
ghost use Rattle.std.specs.Prelude.{◌≡◌, [], ◌≤◌, ltb, length, take};
ghost use Rattle.rules.specs.Bench as rules;
ghost use Rattle.rules.specs.Step as steps;
ghost use Rattle.judging.specs.Frames.{frame_of};
ghost use Rattle.records.specs.Gathers.{holding};
ghost use Rattle.state.specs.View.{view_of};
ghost use Rattle.state.specs.Entry.{RightOf};
ghost use Rattle.turns.specs.Turns.{HeldOf, TurnsOf, Gathered};
ghost use Rattle.turns.specs.Served.{asked};

use chip::Chip;
use records::Event;
use state::{Answer, Refusal};

// Wire bytes join those gathered, or are refused. This looks at no chip.
pub fn gather_more(wire: &mut [u8], have: &mut usize, bytes: &[u8], count: u8) -> Answer
    requires { (length wire.old ≡ 2048) × (have.old ≤ 2048) × (length bytes.now ≡ 8) }
    ensures { Gathered wire.old have.old bytes.now count result wire.new have.new }
{
    *have = records::gathered(wire, *have, bytes, count).ok_or(Refusal::OutsideLimits)?;
    Ok(0)
}

// The gathered bytes arrive as a frame, and gathering starts anew whatever the answer.
fn frame_ends<L: Chip>(
    words: &mut [u16],
    sets: &mut [u32],
    queues: &mut [u8],
    memory: &mut [u8],
    wire: &[u8],
    have: &mut usize,
    align: bool,
) -> Answer
    requires { HeldOf L.layout words.old sets.old queues.old memory.old wire.now have.old }
    ensures { RightOf L.layout (steps.step (steps.frame (frame_of (take have.old wire.now) align)) (view_of L.layout words.old sets.old queues.old memory.old)) result words.new sets.new queues.new memory.new [] × (have.new ≡ 0) }
{
    let n = *have;
    *have = 0;
    chip::arrived::<L>(words, sets, queues, memory, &wire[..n], align)
}

// A record of eight bytes, behind the first or one that asks for no part.
pub fn answer<L: Chip>(
    words: &mut [u16],
    sets: &mut [u32],
    queues: &mut [u8],
    memory: &mut [u8],
    wire: &mut [u8],
    have: &mut usize,
    out: &mut [u8],
    bytes: &[u8],
) -> Answer
    requires { HeldOf L.layout words.old sets.old queues.old memory.old wire.old have.old × (length bytes.now ≡ 8) }
    ensures { TurnsOf L.layout (rules.answer (rules.event_of bytes.now) (holding (view_of L.layout words.old sets.old queues.old memory.old) (take have.old wire.old) out.old)) result words.new sets.new queues.new memory.new wire.new have.new out.new }
{
    let event = records::event_of(bytes);
    match event {
        Event::Read(width, offset) => chip::read::<L>(words, sets, queues, memory, width, offset),
        Event::Write(width, offset, value) => {
            chip::write::<L>(words, sets, queues, memory, width, offset, value)
        }
        Event::Wire(count) => gather_more(wire, have, bytes, count),
        Event::Ends(align) => { frame_ends::<L>(words, sets, queues, memory, wire, have, align) }
        Event::Send(outcome, collisions, deferral) => chip::finished::<L>(
            words, sets, queues, memory, out, outcome, collisions, deferral,
        ),
        Event::Link(up) => chip::linked::<L>(words, sets, queues, memory, up),
        // the part is asked for by record 1 alone, which is answered elsewhere
        Event::Part(_) => Err(Refusal::OutsideLimits),
        Event::Unknown => Err(Refusal::CutShort),
    }
}

// Are they fewer than a record has?
fn is_cut(bytes: &[u8]) -> bool
    ensures { result ≡ ltb (length bytes.now) 8 }
{
    bytes.len() < 8
}

// The same of a record that may be cut short, by the input's end: fewer bytes are refused with 17.
pub fn answer_cut<L: Chip>(
    words: &mut [u16],
    sets: &mut [u32],
    queues: &mut [u8],
    memory: &mut [u8],
    wire: &mut [u8],
    have: &mut usize,
    out: &mut [u8],
    bytes: &[u8],
) -> Answer
    requires { HeldOf L.layout words.old sets.old queues.old memory.old wire.old have.old × (length bytes.now ≤ 8) }
    ensures { TurnsOf L.layout (rules.answer (asked bytes.now) (holding (view_of L.layout words.old sets.old queues.old memory.old) (take have.old wire.old) out.old)) result words.new sets.new queues.new memory.new wire.new have.new out.new }
{
    if is_cut(bytes) {
        return Err(Refusal::CutShort);
    }
    answer::<L>(words, sets, queues, memory, wire, have, out, bytes)
}
