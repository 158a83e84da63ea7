// The link is set: on a state that is in order, and on any record.
ghost use Rattle.std.specs.Prelude.{[]};
ghost use Rattle.rules.specs.Step as rules;
ghost use Rattle.state.specs.View.{view_of};
ghost use Rattle.state.specs.Entry.{InOrderOf, RightOf, record_view, WholeOf, LeavesOf, AnswersBy};

use crate::Chip;
use crate::order::in_order;
use state::{Answer, Pages, Queues, Refusal, Registers, Returned};

// The step below the public entry: no check is repeated here.
pub fn linked<L: Chip>(
    words: &mut [u16],
    sets: &[u32],
    queues: &[u8],
    memory: &[u8],
    up: u8,
) -> Answer
    requires { InOrderOf L.layout words.old sets.now queues.now memory.now }
    ensures { RightOf L.layout (rules.step (rules.link up) (view_of L.layout words.old sets.now queues.now memory.now)) result words.new sets.now queues.now memory.now [] }
{
    registers::plug(words, up)
}

// The same on a record in order, with its 24 places: the step is lent those of the part.
pub fn linked_whole<L: Chip>(
    words: &mut [u16],
    sets: &[u32],
    queues: &[u8],
    memory: &[u8],
    up: u8,
) -> Answer
    requires { WholeOf L.layout words.old sets.now queues.now memory.now }
    ensures { LeavesOf L.layout (rules.step (rules.link up) (record_view L.layout words.old sets.now queues.now memory.now)) result words.new sets.now queues.now memory.now [] }
{
    let n = state::size_in(words);
    linked::<L>(words, &sets[..n], queues, memory, up)
}

// The link is set down (0) or up (1); the memory is not looked at but for its length.
pub fn link<L: Chip>(r: Registers, p: Pages, q: Queues, memory: &[u8], up: u8) -> Returned
    ensures { AnswersBy L.layout (rules.link up) r p q memory.now result memory.now [] }
{
    let mut words = r.words;
    let sets = p.sets;
    let slots = q.slots;
    let answer = if in_order::<L>(&words, &sets, &slots, memory) {
        linked_whole::<L>(&mut words, &sets, &slots, memory, up)
    } else {
        Err(Refusal::Damaged)
    };
    let registers = Registers { words };
    let pages = Pages { sets };
    let queues = Queues { slots };
    Returned {
        answer,
        registers,
        pages,
        queues,
    }
}
