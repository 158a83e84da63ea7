// Accesses of the driver to the sixteen I/O addresses.
ghost use Rattle.std.specs.Prelude.{[]};
ghost use Rattle.rules.specs.Registers as registers;
ghost use Rattle.rules.specs.Step as rules;
ghost use Rattle.lent.specs.Lent.{wide};
ghost use Rattle.skarvoya.specs.Calls.{Calls};

use lent::{in_order, told, width_of};
use pages::Paged;
use state::{Answer, Refusal};

// Reads a word or a byte.
pub fn skarvoya_read(
    words: &mut [u16],
    sets: &[u32],
    queues: &[u8],
    memory: &[u8],
    word: bool,
    offset: u8,
) -> u32
    ensures { Calls (rules.driver (registers.read (wide word) offset)) words.old sets.now queues.now memory.now result words.new sets.now queues.now memory.now [] }
{
    if !in_order(words, sets, queues, memory) {
        return told(Err(Refusal::Damaged));
    }
    told(chip::read_whole::<Paged>(words, sets, queues, memory, width_of(word), offset))
}

// Writes a word, or the value's low byte.
pub fn skarvoya_write(
    words: &mut [u16],
    sets: &mut [u32],
    queues: &mut [u8],
    memory: &mut [u8],
    word: bool,
    offset: u8,
    value: u16,
) -> u32
    ensures { Calls (rules.driver (registers.write (wide word) offset value)) words.old sets.old queues.old memory.old result words.new sets.new queues.new memory.new [] }
{
    if !in_order(words, sets, queues, memory) {
        return told(Err(Refusal::Damaged));
    }
    told(chip::write_whole::<Paged>(words, sets, queues, memory, width_of(word), offset, value))
}
