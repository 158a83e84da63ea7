// The bench: a chip of either part, the wire bytes that are gathered, and the output buffer.
ghost use Rattle.std.specs.Prelude.{◌≡◌, ◌+◌, ◌*◌, ◌/◌, ◌≤◌, length, take};
ghost use Rattle.turns.specs.Turns.{Held};
ghost use Rattle.batches.specs.Batch.{room_for};
ghost use Rattle.serving.specs.Bench.{Serves};

use state::{Pages, Part, Queues, Registers, Returned};

// Answers the records, with so many places and their pages' bytes lent. By itself, since of a part of a field the proof does not know what it is once it is given back.
fn lend(
    watching: bool,
    size: usize,
    words: &mut [u16],
    sets: &mut [u32],
    queues: &mut [u8],
    memory: &mut [u8],
    wire: &mut [u8],
    have: &mut usize,
    out: &mut [u8],
    input: &[u8],
    lines: &mut [u8],
    number: u64,
) -> (usize, u64)
    requires held { Held words.old (take size sets.old) queues.old (take (256 * size) memory.old) wire.old have.old }
    requires in_bounds { (size ≤ length sets.old) × (256 * size ≤ length memory.old) × (length out.old ≡ 2052) }
    requires few { (length input.now ≤ 8192) × (number + 1024 ≤ 0xffffffffffffffff) }
    requires room { room_for watching (length input.now / 8) ≤ length lines.old }
    ensures held { Held words.new (take size sets.new) queues.new (take (256 * size) memory.new) wire.new have.new }
    ensures end { result.0 ≤ length lines.old }
    ensures next { result.1 ≡ number + length input.now / 8 }
{
    let mut end = 0;
    let mut next = number;
    batches::answer_all(
        watching,
        words,
        &mut sets[..size],
        queues,
        &mut memory[..256 * size],
        wire,
        have,
        out,
        input,
        lines,
        &mut end,
        &mut next,
    );
    (end, next)
}

// The part has `size` packets: it is lent so many of the sets, and of the memory the bytes of as many pages. How many wire bytes there are is no field: beside arrays that are
// written it would be read from memory for every record.
#[derive(Drop)]
pub struct Bench {
    pub size: usize,
    pub words: [u16; 32],
    pub sets: [u32; 24],
    pub queues: [u8; 72],
    pub memory: [u8; 6144],
    pub wire: [u8; 2048],
    pub out: [u8; 2052],
}

impl Bench {
    // At power-up of the part.
    pub fn powered_up(part: Part) -> Bench
        ensures { Serves result 0 }
    {
        let Returned {
            registers: Registers { words },
            pages: Pages { sets },
            queues: Queues { slots: queues },
            ..
        } = chip::power_up(part);
        Bench {
            size: state::packets_of(part),
            words,
            sets,
            queues,
            memory: [0; 6144],
            wire: [0; 2048],
            out: [0; 2052],
        }
    }

    // Each complete record of the input, of which the first is `number`. Returns the place behind their lines, and the number of the next.
    pub fn answer_all(
        &mut self,
        have: &mut usize,
        watching: bool,
        input: &[u8],
        lines: &mut [u8],
        number: u64,
    ) -> (usize, u64)
        requires serves { Serves self.old have.old }
        requires few { (length input.now ≤ 8192) × (number + 1024 ≤ 0xffffffffffffffff) }
        requires room { room_for watching (length input.now / 8) ≤ length lines.old }
        ensures serves { Serves self.new have.new }
        ensures end { result.0 ≤ length lines.old }
        ensures next { result.1 ≡ number + length input.now / 8 }
    {
        lend(
            watching,
            self.size,
            &mut self.words,
            &mut self.sets,
            &mut self.queues,
            &mut self.memory,
            &mut self.wire,
            have,
            &mut self.out,
            input,
            lines,
            number,
        )
    }
}
