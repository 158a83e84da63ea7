// Accesses to the sixteen I/O addresses: on a state that is in order, and on any record.
ghost use Rattle.std.specs.Prelude.{[]};
ghost use Rattle.rules.specs.Registers as registers;
ghost use Rattle.rules.specs.Step as rules;
ghost use Rattle.state.specs.Meaning.{width_of};
ghost use Rattle.state.specs.View.{view_of};
ghost use Rattle.state.specs.Entry.{InOrderOf, RightOf, record_view, WholeOf, LeavesOf, AnswersBy};
ghost use Rattle.chip.specs.Inputs.{access_of};

use crate::Chip;
use crate::order::in_order;
use state::{Answer, Pages, Queues, Refusal, Registers, Returned, Width};

// What a driver asks for: a width and an offset, and the value of a write.
#[derive(Drop)]
pub enum Request {
    Read(Width, u8),
    Write(Width, u8, u16),
}

// A read below the public entry: no check is repeated here.
pub fn read<L: Chip>(
    words: &mut [u16],
    sets: &[u32],
    queues: &[u8],
    memory: &[u8],
    width: Width,
    offset: u8,
) -> Answer
    requires { InOrderOf L.layout words.old sets.now queues.now memory.now }
    ensures { RightOf L.layout (rules.step (rules.driver (registers.read (width_of width) offset)) (view_of L.layout words.old sets.now queues.now memory.now)) result words.new sets.now queues.now memory.now [] }
{
    accesses::read::<L>(words, sets, queues, memory, width, offset)
}

// A write below the public entry.
pub fn write<L: Chip>(
    words: &mut [u16],
    sets: &mut [u32],
    queues: &mut [u8],
    memory: &mut [u8],
    width: Width,
    offset: u8,
    value: u16,
) -> Answer
    requires { InOrderOf L.layout words.old sets.old queues.old memory.old }
    ensures { RightOf L.layout (rules.step (rules.driver (registers.write (width_of width) offset value)) (view_of L.layout words.old sets.old queues.old memory.old)) result words.new sets.new queues.new memory.new [] }
{
    accesses::write::<L>(words, sets, queues, memory, width, offset, value)
}

// A read on a record in order, with its 24 places: the step is lent those of the part.
pub fn read_whole<L: Chip>(
    words: &mut [u16],
    sets: &[u32],
    queues: &[u8],
    memory: &[u8],
    width: Width,
    offset: u8,
) -> Answer
    requires { WholeOf L.layout words.old sets.now queues.now memory.now }
    ensures { LeavesOf L.layout (rules.step (rules.driver (registers.read (width_of width) offset)) (record_view L.layout words.old sets.now queues.now memory.now)) result words.new sets.now queues.now memory.now [] }
{
    let n = state::size_in(words);
    read::<L>(words, &sets[..n], queues, memory, width, offset)
}

// A write on one.
pub fn write_whole<L: Chip>(
    words: &mut [u16],
    sets: &mut [u32],
    queues: &mut [u8],
    memory: &mut [u8],
    width: Width,
    offset: u8,
    value: u16,
) -> Answer
    requires { WholeOf L.layout words.old sets.old queues.old memory.old }
    ensures { LeavesOf L.layout (rules.step (rules.driver (registers.write (width_of width) offset value)) (record_view L.layout words.old sets.old queues.old memory.old)) result words.new sets.new queues.new memory.new [] }
{
    let n = state::size_in(words);
    write::<L>(words, &mut sets[..n], queues, memory, width, offset, value)
}

// By the request.
fn accessed<L: Chip>(
    words: &mut [u16],
    sets: &mut [u32],
    queues: &mut [u8],
    memory: &mut [u8],
    a: Request,
) -> Answer
    requires { WholeOf L.layout words.old sets.old queues.old memory.old }
    ensures { LeavesOf L.layout (rules.step (rules.driver (access_of a)) (record_view L.layout words.old sets.old queues.old memory.old)) result words.new sets.new queues.new memory.new [] }
{
    match a {
        Request::Read(width, offset) => read_whole::<L>(words, sets, queues, memory, width, offset),
        Request::Write(width, offset, value) => {
            write_whole::<L>(words, sets, queues, memory, width, offset, value)
        }
    }
}

// An access of the driver, on any record. It works on the record where it is given back: with a copy beside it, as in `frame`, it takes more than 1,024 bytes of stack.
pub fn access<L: Chip>(r: Registers, p: Pages, q: Queues, memory: &mut [u8], a: Request) -> Returned
    ensures { AnswersBy L.layout (rules.driver (access_of a)) r p q memory.old result memory.new [] }
{
    let mut back = Returned {
        answer: Err(Refusal::Damaged),
        registers: r,
        pages: p,
        queues: q,
    };
    if in_order::<L>(
        &back.registers.words,
        &back.pages.sets,
        &back.queues.slots,
        memory,
    ) {
        back.answer = accessed::<L>(
            &mut back.registers.words,
            &mut back.pages.sets,
            &mut back.queues.slots,
            memory,
            a,
        );
    }
    back
}
