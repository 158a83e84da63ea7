// From standard input to standard output: a record is read, answered, and its line written, before the next is waited for.
ghost use Rattle.std.specs.Prelude.{◌≡◌, ℕ, ◌≤◌, length, take};
ghost use Rattle.rules.specs.Chip.{strips};
ghost use Rattle.rules.specs.Bench.{Event, asks_for, answer_to};
ghost use Rattle.lines.specs.Counting.{Counts};
ghost use Rattle.records.specs.Gathers.{holding};
ghost use Rattle.state.specs.Meaning.{packets_of, packets_named};
ghost use Rattle.state.specs.View.{view_of};
ghost use Rattle.turns.specs.Turns.{HeldOf, TurnsOf};
ghost use Rattle.turns.specs.Served.{asked, ServedOf};
ghost use Rattle.strip_serving.specs.First.{answers_on, starts_as, Opens};

use lines::Counter;
use state::{Answer, Part, Shown};
use std::io::Error;
use streams::StandardStreams;
use strips::Strips;

// The answer to a record. One that asked for the part, as record 1, is done: `started` tells that its part has powered up.
fn turn(
    words: &mut [u16],
    counts: &mut [u32],
    queues: &mut [u8],
    memory: &mut [u8],
    wire: &mut [u8],
    have: &mut usize,
    out: &mut [u8],
    bytes: &[u8],
    started: bool,
) -> Answer
    requires { HeldOf strips words.old counts.old queues.old memory.old wire.old have.old × (length bytes.now ≤ 8) }
    ensures { (number : ℕ) → Opens started number bytes.now (holding (view_of strips words.old counts.old queues.old memory.old) (take have.old wire.old) out.old) → TurnsOf strips (answer_to number (asked bytes.now) (answers_on started (holding (view_of strips words.old counts.old queues.old memory.old) (take have.old wire.old) out.old))) result words.new counts.new queues.new memory.new wire.new have.new out.new }
{
    if started {
        return Ok(0);
    }
    turns::answer_cut::<Strips>(words, counts, queues, memory, wire, have, out, bytes)
}

// Answers a record, and writes its line to the front of the buffer; returns the place behind it.
fn serve_record(
    words: &mut [u16],
    counts: &mut [u32],
    queues: &mut [u8],
    memory: &mut [u8],
    wire: &mut [u8],
    have: &mut usize,
    out: &mut [u8],
    bytes: &[u8],
    started: bool,
    counter: Counter,
    line: &mut [u8],
) -> usize
    requires held_of { HeldOf strips words.old counts.old queues.old memory.old wire.old have.old }
    requires bytes_len_bound { (length bytes.now ≤ 8) × Counts counter × (length line.old ≡ 40) × Opens started counter.number bytes.now (holding (view_of strips words.old counts.old queues.old memory.old) (take have.old wire.old) out.old) }
    ensures { ServedOf strips counter.number bytes.now (answers_on started (holding (view_of strips words.old counts.old queues.old memory.old) (take have.old wire.old) out.old)) words.new counts.new queues.new memory.new wire.new have.new out.new line.new result }
{
    let given = turn(
        words, counts, queues, memory, wire, have, out, bytes, started,
    );
    lines::line_at(line, 0, counter, Shown::from(given))
}

// The part that record 1 asks for, if it has eight bytes and asks for one.
fn part_in(bytes: &[u8]) -> Option<Part>
    requires { length bytes.now ≤ 8 }
    ensures { packets_named result ≡ asks_for (asked bytes.now) }
{
    if bytes.len() < 8 {
        return None;
    }
    records::part_asked(bytes)
}

// The part that powers up: the one that record 1 asks for, and without that the LAN91C96.
fn opens_with(asked: Option<Part>) -> Part
    ensures { (e : Event) → packets_named asked ≡ asks_for e → packets_of result ≡ starts_as e }
{
    asked.unwrap_or(Part::Lan91c96)
}

// The output cannot be written behind the line of this record, for this reason.
#[derive(Drop)]
struct Unwritten {
    record: u64,
    reason: Error,
}

// Writes the line of a record, which stands before `end`.
fn write_line(
    rt: &impl StandardStreams,
    line: &[u8],
    end: usize,
    number: u64,
) -> Result<(), Unwritten>
    requires { (end ≤ length line.now) × (1 ≤ number) }
{
    match streams::write_out(rt, &line[..end]) {
        Ok(_) => Ok(()),
        Err(failed) => Err(Unwritten {
            record: number - 1,
            reason: failed.reason,
        }),
    }
}

// Each record is served before the next is waited for, until the input ends; record 1, of `first` bytes, has been read, and `asked` tells whether it asked for the part. The loop ends at record 2^63, which no run comes to.
fn serve_from(
    rt: &impl StandardStreams,
    program: &[u8],
    words: &mut [u16],
    counts: &mut [u32],
    queues: &mut [u8],
    memory: &mut [u8],
    wire: &mut [u8],
    out: &mut [u8],
    bytes: &mut [u8],
    first: usize,
    asked: bool,
) -> Result<(), Unwritten>
    requires held_of { HeldOf strips words.old counts.old queues.old memory.old wire.old 0 × (length bytes.old ≡ 8) × (first ≤ 8) }
    requires opens { Opens asked 1 (take first bytes.old) (holding (view_of strips words.old counts.old queues.old memory.old) (take 0 wire.old) out.old) }
{
    let mut have = 0;
    let mut line = [0; 40];
    let mut filled = first;
    let mut started = asked;
    let mut counter = lines::counter_of(1);
    while counter.number < 0x8000000000000000 {
        if filled == 0 {
            break;
        }
        let end = serve_record(
            words,
            counts,
            queues,
            memory,
            wire,
            &mut have,
            out,
            &bytes[..filled],
            started,
            counter,
            &mut line,
        );
        write_line(rt, &line, end, counter.number)?;
        if filled < 8 {
            break;
        }
        started = false;
        counter = lines::next(counter);
        filled = streams::read_record(rt, program, bytes, counter.number);
    }
    Ok(())
}

// The bench of strips to the end of the input; `program` is the name that it has on standard error. Record 1 is read before the chip powers up, for it may ask for the part.
pub fn run(rt: &impl StandardStreams, program: &[u8]) {
    let mut bytes = [0; 8];
    let filled = streams::read_record(rt, program, &mut bytes, 1);
    let asked = part_in(&bytes[..filled]);
    let part = opens_with(asked);
    let n = state::packets_of(part);
    let start = chip::power_up(part);
    let mut words = start.registers.words;
    let mut counts = start.pages.sets;
    let mut queues = start.queues.slots;
    let mut memory = [0; 49152];
    let mut wire = [0; 2048];
    let mut out = [0; 2052];
    let served = serve_from(
        rt,
        program,
        &mut words,
        &mut counts[..n],
        &mut queues,
        &mut memory[..2048 * n],
        &mut wire,
        &mut out,
        &mut bytes,
        filled,
        asked.is_some(),
    );
    if let Err(failed) = served {
        streams::unwritten(rt, program, failed.record, failed.reason);
    }
}
