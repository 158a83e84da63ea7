// From standard input to standard output: what is there is read, its complete records are answered, and their lines are written, until the input ends.
ghost use Rattle.std.specs.Prelude.{◌≡◌, ◌-◌, ◌/◌, ◌%◌, ◌≤◌, ◌<◌, length, take, drop};
ghost use Rattle.batches.specs.Batch.{room_for};
ghost use Rattle.serving.specs.Bench.{Serves};
ghost use Rattle.serving.specs.Fills.{FillsMore};

use crate::bench::Bench;
use batches::{last_line, lone_line};
use state::Part;
use std::io::Error;
use streams::StandardStreams;

// No run comes to this record.
const NEVER: u64 = 0x8000_0000_0000_0000;

// The bytes behind the last complete record go to the front; returns how many they are.
fn keep_tail(input: &mut [u8], filled: usize) -> usize
    requires { filled ≤ length input.old }
    ensures { (result ≡ filled % 8) × (take result input.new ≡ take result (drop (filled - result) input.old)) }
{
    let kept = filled % 8;
    input.copy_within(filled - kept..filled, 0);
    kept
}

// How many lines end in these bytes.
fn line_count(bytes: &[u8]) -> u64
    ensures { result ≤ length bytes.now }
{
    bytes.iter().filter(|byte| **byte == b'\n').count() as u64
}

// The output cannot be written behind the line of this record, for this reason.
#[derive(Drop)]
struct Unwritten {
    record: u64,
    reason: Error,
}

// A program: the streams, the name that it has on standard error, and its room for records and for lines.
#[derive(Drop)]
struct Program<'a, R, const RECORDS: usize, const LINES: usize> {
    rt: &'a R,
    name: &'a [u8],
    input: [u8; RECORDS],
    lines: [u8; LINES],
    ghost room: { (8 ≤ RECORDS) × (RECORDS ≤ 8192) × (LINES ≤ 0x100000) },
}

impl<R: StandardStreams, const RECORDS: usize, const LINES: usize> Program<'_, R, RECORDS, LINES> {
    // Writes the lines that stand before `end`, the first being that of record `first`.
    fn write(&self, end: usize, first: u64) -> Result<(), Unwritten>
        requires { (end ≤ LINES) × (1 ≤ first) × (first < NEVER) }
    {
        match streams::write_out(self.rt, &self.lines[..end]) {
            Ok(_) => Ok(()),
            Err(failed) => Err(Unwritten {
                record: first - 1 + line_count(&self.lines[..failed.done]),
                reason: failed.reason,
            }),
        }
    }

    // What there is to answer: record 1 where it is kept whole, which was read before; else what is read behind the bytes that are kept. Nothing at the input's end, or where it cannot be read, which is said.
    fn read(&mut self, kept: usize, number: u64) -> Option<usize>
        requires { (kept ≤ 8) × (1 ≤ number) }
        ensures { FillsMore kept RECORDS result }
    {
        if kept == 8 {
            return Some(8);
        }
        match streams::read_more(self.rt, &mut self.input, kept) {
            Ok(filled) => filled,
            Err(reason) => {
                streams::unread(self.rt, self.name, number - 1, reason);
                None
            }
        }
    }

    // Every record is answered before more is waited for; one that is cut short has its line. Record 1 is in the input: where it asks for a part, that powers up, and it is done; else it is
    // answered on the LAN91C96.
    #[tactic(auto, using(batches::specs::Rooms::room_less))]
    fn serve_part(&mut self, watching: bool, asked: Option<Part>) -> Result<(), Unwritten>
        requires { room_for watching (RECORDS / 8) ≤ LINES }
    {
        let mut bench = Bench::powered_up(asked.unwrap_or(Part::Lan91c96));
        let mut kept = 8;
        let mut have = 0;
        let mut number = 1;
        if asked.is_some() {
            let end = lone_line(
                watching,
                &bench.words,
                &bench.out,
                &mut self.lines,
                1,
                Ok(0),
            );
            self.write(end, 1)?;
            kept = 0;
            number = 2;
        }
        while number < NEVER {
            let Some(filled) = self.read(kept, number) else {
                let end = last_line(
                    watching,
                    &bench.words,
                    &bench.out,
                    &mut self.lines,
                    kept,
                    number,
                );
                return self.write(end, number);
            };
            let input = &self.input[..filled];
            let (end, next) = bench.answer_all(&mut have, watching, input, &mut self.lines, number);
            self.write(end, number)?;
            number = next;
            kept = keep_tail(&mut self.input, filled);
        }
        Ok(())
    }

    // Until the input ends. Record 1 is read before the chip powers up, for it may ask for the part; one that is cut short is answered on the LAN91C96.
    #[tactic(auto, using(batches::specs::Rooms::room_less))]
    fn serve(&mut self, watching: bool) -> Result<(), Unwritten>
        requires { room_for watching (RECORDS / 8) ≤ LINES }
    {
        let input = &mut self.input[..];
        let first = &mut input[..8];
        let filled = streams::read_record(self.rt, self.name, first, 1);
        if filled == 8 {
            let asked = records::part_asked(first);
            return self.serve_part(watching, asked);
        }
        let bench = Bench::powered_up(Part::Lan91c96);
        let end = last_line(
            watching,
            &bench.words,
            &bench.out,
            &mut self.lines,
            filled,
            1,
        );
        self.write(end, 1)
    }

    // The same, and says where the output cannot be written.
    fn run(&mut self, watching: bool)
        requires { room_for watching (RECORDS / 8) ≤ LINES }
    {
        if let Err(failed) = self.serve(watching) {
            streams::unwritten(self.rt, self.name, failed.record, failed.reason);
        }
    }
}

// The bench; `program` is the name that it has on standard error.
#[tactic(auto, unfolding(batches::specs::Batch::room_for))]
pub fn run(rt: &impl StandardStreams, program: &[u8]) {
    let mut bench = Program {
        rt,
        name: program,
        input: [0; 8192],
        lines: [0; 32768],
    };
    bench.run(false);
}

// The same with the lines of `watch`, each of which may have 4,104 digits: it reads 64 records at once.
#[tactic(auto, unfolding(batches::specs::Batch::room_for))]
pub fn watch(rt: &impl StandardStreams, program: &[u8]) {
    let mut watch = Program {
        rt,
        name: program,
        input: [0; 512],
        lines: [0; 266240],
    };
    watch.run(true);
}
