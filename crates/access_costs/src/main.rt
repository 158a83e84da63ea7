// Runs steps below the public entries over and over, so that what they cost can be measured. Standard input, up to 4,096 bytes, is
// records of 8 bytes: those of document 01 for reads and writes, and byte 0 = 6 for a frame of 1,518 bytes that arrives. Any other
// does nothing. The records are answered 100 times over, and the sum of the answers' values is printed.
#![tactic(auto)]

ghost use Rattle.state.specs.Entry.{InOrder};

use pages::Paged;
use state::{Answer, Pages, Part, Queues, Registers, Returned, Shown, Width};
use std::array;

const ROUNDS: u64 = 100;

#[derive(Drop)]
struct Record {
    kind: u8,
    offset: u8,
    value: u16,
}

impl From<&[u8; 8]> for Record {
    fn from(bytes: &[u8; 8]) -> Record {
        Record {
            kind: bytes[0],
            offset: bytes[1],
            value: u16::from_le_bytes([bytes[2], bytes[3]]),
        }
    }
}

// Kinds 1 and 3 are accesses of a byte, 2 and 4 of a word.
fn width_of(kind: u8) -> Width {
    if kind % 2 == 1 {
        Width::Byte
    } else {
        Width::Word
    }
}

// The state that the steps are lent, of the LAN91C96.
#[derive(Drop)]
struct Lent {
    words: [u16; 32],
    sets: [u32; 24],
    queues: [u8; 72],
    memory: [u8; 6144],
}

impl Lent {
    fn powered_up() -> Lent
        ensures { InOrder result.words result.sets result.queues result.memory }
    {
        let Returned {
            registers: Registers { words },
            pages: Pages { sets },
            queues: Queues { slots: queues },
            ..
        } = chip::power_up(Part::Lan91c96);
        Lent {
            words,
            sets,
            queues,
            memory: [0; 6144],
        }
    }

    // What one record does.
    fn answer(&mut self, record: Record, frame: &[u8]) -> Answer
        requires { InOrder self.old.words self.old.sets self.old.queues self.old.memory }
        ensures { InOrder self.new.words self.new.sets self.new.queues self.new.memory }
    {
        let Lent {
            words,
            sets,
            queues,
            memory,
        } = self;
        match record.kind {
            1 | 2 => chip::read::<Paged>(
                words,
                sets,
                queues,
                memory,
                width_of(record.kind),
                record.offset,
            ),
            3 | 4 => chip::write::<Paged>(
                words,
                sets,
                queues,
                memory,
                width_of(record.kind),
                record.offset,
                record.value,
            ),
            6 => chip::arrived::<Paged>(words, sets, queues, memory, frame, false),
            _ => Ok(0),
        }
    }
}

// A frame that counts up from 0, so its first byte is even, and it is to no group; with its FCS, which zlib gives for the 1,514 bytes before it.
fn frame() -> [u8; 1518] {
    let mut frame = array::from_fn(|i| (i % 256) as u8);
    frame[1514..].copy_from_slice(&[0x05, 0x07, 0x87, 0xe7]);
    frame
}

// The complete records of the input, in all rounds from power-up on. With the answers' values added up none can be left out.
fn run(input: &[u8]) -> u64 {
    let (records, _) = input.as_chunks::<8>();
    let frame = frame();
    let mut lent = Lent::powered_up();
    let mut sum: u64 = 0;
    for _ in 0..ROUNDS {
        for record in records {
            let shown = Shown::from(lent.answer(Record::from(record), &frame));
            sum = sum.wrapping_add(shown.1 as u64);
        }
    }
    sum
}

fn main(rt: HostRuntime) {
    let mut input = [0; 4096];
    let n = streams::read_full(&rt, &mut input);
    let _ = println!(rt; "{}", run(&input[..n]));
}
