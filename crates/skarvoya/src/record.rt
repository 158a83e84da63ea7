// A record of the bench, and its printed line.
ghost use Rattle.std.specs.Prelude.{◌≡◌, ◌≤◌, length, take};
ghost use Rattle.rules.specs.Bench as rules;
ghost use Rattle.lists.specs.Facts.{Decides};
ghost use Rattle.state.specs.Meaning.{packets_named};
ghost use Rattle.turns.specs.Served.{asked};
ghost use Rattle.skarvoya.specs.Records.{BenchHeld, BenchInOrder, Roomy, bench_of, part_started, TurnsBench, Serves, AnswersRecord};

use lent::{ready, started, told};
use on_wire::OUTPUT_BYTES;
use pages::Paged;
use state::{Answer, Part, Refusal, Shown};

// Room for the memory of either part.
const MEMORY_BYTES: usize = 6144;

// As many wire bytes are gathered at most, and their buffer has this room.
const WIRE_BYTES: usize = 2048;

// A line has room in this.
const LINE_BYTES: usize = 40;

// A count of records with no next one.
const LAST_COUNT: u64 = 0xffffffffffffffff;

// Is what a bench keeps from record to record in order? Its count of records must have a next one.
fn bench_in_order(
    words: &[u16],
    sets: &[u32],
    queues: &[u8],
    memory: &[u8],
    wire: &[u8],
    gathered: usize,
    count: u64,
) -> bool
    ensures { Decides result (BenchInOrder words.now sets.now queues.now memory.now wire.now gathered count) }
{
    if memory.len() != MEMORY_BYTES {
        return false;
    }
    if wire.len() != WIRE_BYTES {
        return false;
    }
    if WIRE_BYTES < gathered {
        return false;
    }
    if LAST_COUNT <= count {
        return false;
    }
    ready(words, sets, queues)
}

// The answer to the first eight bytes; fewer are a record cut short. The step is lent the places and the bytes of the part.
fn answer(
    words: &mut [u16],
    sets: &mut [u32],
    queues: &mut [u8],
    memory: &mut [u8],
    wire: &mut [u8],
    gathered: &mut usize,
    output: &mut [u8],
    bytes: &[u8],
) -> Answer
    requires { BenchHeld words.old sets.old queues.old memory.old wire.old gathered.old }
    ensures { TurnsBench (rules.answer (asked (take 8 bytes.now)) (bench_of words.old sets.old queues.old memory.old wire.old gathered.old output.old)) memory.old result words.new sets.new queues.new memory.new wire.new gathered.new output.new }
{
    if bytes.len() < 8 {
        return Err(Refusal::CutShort);
    }
    let n = state::size_in(words);
    turns::answer::<Paged>(
        words,
        &mut sets[..n],
        queues,
        &mut memory[..256 * n],
        wire,
        gathered,
        output,
        &bytes[..8],
    )
}

// The part that the record of this number starts, if it starts one: the first alone may.
fn part_started(number: u64, bytes: &[u8]) -> Option<Part>
    ensures { packets_named result ≡ part_started number (asked (take 8 bytes.now)) }
{
    if number != 1 {
        return None;
    }
    if bytes.len() < 8 {
        return None;
    }
    records::part_asked(&bytes[..8])
}

// The answer by the record's number: a part starts, in the first bytes of the memory, or the record is answered as any other.
fn turn(
    words: &mut [u16],
    sets: &mut [u32],
    queues: &mut [u8],
    memory: &mut [u8],
    wire: &mut [u8],
    gathered: &mut usize,
    output: &mut [u8],
    number: u64,
    bytes: &[u8],
) -> Answer
    requires { BenchHeld words.old sets.old queues.old memory.old wire.old gathered.old }
    ensures { TurnsBench (rules.answer_to number (asked (take 8 bytes.now)) (bench_of words.old sets.old queues.old memory.old wire.old gathered.old output.old)) memory.old result words.new sets.new queues.new memory.new wire.new gathered.new output.new }
{
    match part_started(number, bytes) {
        Some(part) => {
            started(words, sets, queues, memory, part);
            *gathered = 0;
            Ok(0)
        }
        None => answer(words, sets, queues, memory, wire, gathered, output, bytes),
    }
}

// The record of this number is answered, and its line written to the front of `line`; `printed` is where the line ends.
fn serve(
    words: &mut [u16],
    sets: &mut [u32],
    queues: &mut [u8],
    memory: &mut [u8],
    wire: &mut [u8],
    gathered: &mut usize,
    output: &mut [u8],
    number: u64,
    bytes: &[u8],
    line: &mut [u8],
    printed: &mut usize,
) -> Answer
    requires { BenchHeld words.old sets.old queues.old memory.old wire.old gathered.old × (40 ≤ length line.old) }
    ensures { Serves number (take 8 bytes.now) (bench_of words.old sets.old queues.old memory.old wire.old gathered.old output.old) memory.old line.old result words.new sets.new queues.new memory.new wire.new gathered.new output.new line.new printed.new }
{
    let given = turn(
        words, sets, queues, memory, wire, gathered, output, number, bytes,
    );
    let counter = lines::counter_of(number);
    *printed = lines::line_at(line, 0, counter, Shown::from(given));
    given
}

// Have the output and the line room?
fn roomy(output: &[u8], line: &[u8]) -> bool
    ensures { Decides result (Roomy output.now line.now) }
{
    if output.len() < OUTPUT_BYTES {
        return false;
    }
    LINE_BYTES <= line.len()
}

// A record of the bench: it is answered, and its line is printed. `count` is how many records there were before.
pub fn skarvoya_record(
    words: &mut [u16],
    sets: &mut [u32],
    queues: &mut [u8],
    memory: &mut [u8],
    wire: &mut [u8],
    gathered: &mut usize,
    output: &mut [u8],
    count: &mut u64,
    bytes: &[u8],
    line: &mut [u8],
    printed: &mut usize,
) -> u32
    ensures { AnswersRecord bytes.now words.old sets.old queues.old memory.old wire.old gathered.old output.old count.old line.old result words.new sets.new queues.new memory.new wire.new gathered.new output.new count.new line.new printed.new }
{
    *printed = 0;
    if !bench_in_order(words, sets, queues, memory, wire, *gathered, *count) {
        return told(Err(Refusal::Damaged));
    }
    if !roomy(output, line) {
        return told(Err(Refusal::ShortOutput));
    }
    *count += 1;
    told(serve(
        words, sets, queues, memory, wire, gathered, output, *count, bytes, line, printed,
    ))
}
