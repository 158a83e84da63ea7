// A frame arrives: on a state that is in order, and on any record.
ghost use Rattle.std.specs.Prelude.{[]};
ghost use Rattle.rules.specs.Step as rules;
ghost use Rattle.state.specs.View.{view_of};
ghost use Rattle.state.specs.Entry.{InOrderOf, RightOf, record_view, WholeOf, LeavesOf, AnswersBy};
ghost use Rattle.judging.specs.Frames.{frame_of};

use crate::Chip;
use crate::order::in_order;
use state::{Answer, Pages, Queues, Refusal, Registers, Returned};

// The step below the public entry: no check is repeated here.
pub fn arrived<L: Chip>(
    words: &mut [u16],
    sets: &mut [u32],
    queues: &mut [u8],
    memory: &mut [u8],
    frame: &[u8],
    alignment: bool,
) -> Answer
    requires { InOrderOf L.layout words.old sets.old queues.old memory.old }
    ensures { RightOf L.layout (rules.step (rules.frame (frame_of frame.now alignment)) (view_of L.layout words.old sets.old queues.old memory.old)) result words.new sets.new queues.new memory.new [] }
{
    receive::arrived::<L>(words, sets, queues, memory, frame, alignment)
}

// The same on a record in order, with its 24 places: the step is lent those of the part.
pub fn arrived_whole<L: Chip>(
    words: &mut [u16],
    sets: &mut [u32],
    queues: &mut [u8],
    memory: &mut [u8],
    frame: &[u8],
    alignment: bool,
) -> Answer
    requires { WholeOf L.layout words.old sets.old queues.old memory.old }
    ensures { LeavesOf L.layout (rules.step (rules.frame (frame_of frame.now alignment)) (record_view L.layout words.old sets.old queues.old memory.old)) result words.new sets.new queues.new memory.new [] }
{
    let n = state::size_in(words);
    arrived::<L>(words, &mut sets[..n], queues, memory, frame, alignment)
}

// A frame arrives: its bytes with FCS, and the flag alignment.
pub fn frame<L: Chip>(
    r: Registers,
    p: Pages,
    q: Queues,
    memory: &mut [u8],
    bytes: &[u8],
    alignment: bool,
) -> Returned
    ensures { AnswersBy L.layout (rules.frame (frame_of bytes.now alignment)) r p q memory.old result memory.new [] }
{
    let mut words = r.words;
    let mut sets = p.sets;
    let mut slots = q.slots;
    let answer = if in_order::<L>(&words, &sets, &slots, memory) {
        arrived_whole::<L>(&mut words, &mut sets, &mut slots, memory, bytes, alignment)
    } else {
        Err(Refusal::Damaged)
    };
    let registers = Registers { words };
    let pages = Pages { sets };
    let queues = Queues { slots };
    Returned {
        answer,
        registers,
        pages,
        queues,
    }
}
