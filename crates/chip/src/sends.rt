// A send finishes: on a state that is in order, and on any record.
ghost use Rattle.rules.specs.Step as rules;
ghost use Rattle.state.specs.View.{view_of};
ghost use Rattle.state.specs.Entry.{InOrderOf, RightOf, record_view, WholeOf, LeavesOf, AnswersBy};

use crate::Chip;
use crate::order::in_order;
use state::{Answer, Pages, Queues, Refusal, Registers, Returned};

// The step below the public entry: no check is repeated here.
pub fn finished<L: Chip>(
    words: &mut [u16],
    sets: &mut [u32],
    queues: &mut [u8],
    memory: &mut [u8],
    out: &mut [u8],
    outcome: u8,
    collisions: u8,
    deferral: u8,
) -> Answer
    requires { InOrderOf L.layout words.old sets.old queues.old memory.old }
    ensures { RightOf L.layout (rules.step (rules.sent (record { outcome = outcome; collisions = collisions; deferral = deferral }) out.old) (view_of L.layout words.old sets.old queues.old memory.old)) result words.new sets.new queues.new memory.new out.new }
{
    sending::finished::<L>(
        words, sets, queues, memory, out, outcome, collisions, deferral,
    )
}

// The same on a record in order, with its 24 places: the step is lent those of the part.
pub fn finished_whole<L: Chip>(
    words: &mut [u16],
    sets: &mut [u32],
    queues: &mut [u8],
    memory: &mut [u8],
    out: &mut [u8],
    outcome: u8,
    collisions: u8,
    deferral: u8,
) -> Answer
    requires { WholeOf L.layout words.old sets.old queues.old memory.old }
    ensures { LeavesOf L.layout (rules.step (rules.sent (record { outcome = outcome; collisions = collisions; deferral = deferral }) out.old) (record_view L.layout words.old sets.old queues.old memory.old)) result words.new sets.new queues.new memory.new out.new }
{
    let n = state::size_in(words);
    finished::<L>(
        words,
        &mut sets[..n],
        queues,
        memory,
        out,
        outcome,
        collisions,
        deferral,
    )
}

// The packet at the head of TX has been sent; what is put out goes to the front of the output buffer.
pub fn send<L: Chip>(
    r: Registers,
    p: Pages,
    q: Queues,
    memory: &mut [u8],
    out: &mut [u8],
    outcome: u8,
    collisions: u8,
    deferral: u8,
) -> Returned
    ensures { AnswersBy L.layout (rules.sent (record { outcome = outcome; collisions = collisions; deferral = deferral }) out.old) r p q memory.old result memory.new out.new }
{
    let mut words = r.words;
    let mut sets = p.sets;
    let mut slots = q.slots;
    let answer = if in_order::<L>(&words, &sets, &slots, memory) {
        finished_whole::<L>(
            &mut words, &mut sets, &mut slots, memory, out, outcome, collisions, deferral,
        )
    } else {
        Err(Refusal::Damaged)
    };
    let registers = Registers { words };
    let pages = Pages { sets };
    let queues = Queues { slots };
    Returned {
        answer,
        registers,
        pages,
        queues,
    }
}
