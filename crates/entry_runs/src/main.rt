// Runs the chip's public entries on records from outside, damaged ones too. Standard input, up to 131,072 bytes, is cases of 240 bytes:
// 32 words of registers, 24 page sets and 72 bytes of queues, each number with its lowest byte first, then a record of document 01,
// of kinds 1 to 4 or 6 to 8. Bytes 2 and 3 of kind 6 are the frame's length; byte 4 of kind 7 says how many the output buffer lacks.
// Byte 7 says how many pages the memory that is lent has, 0 where it has 24.
// All cases have one memory and one wire, zeros at first: a send puts out to the wire, and a frame comes from it. Each case has a line,
// in as many decimal digits as any other, so that all lines cost the same: the answer's number, its value, and a sum of the record given back.
#![tactic(auto)]

ghost use Rattle.std.specs.Prelude.{◌≡◌, ◌≤◌, length};

use chip::Request;
use pages::Paged;
use state::{Pages, Queues, Refusal, Registers, Returned, Shown, Width};
use std::io::Print;

// The bytes of a case.
const CASE: usize = 240;

// Kinds 1 and 3 are accesses of a byte, 2 and 4 of a word.
fn width_of(kind: u8) -> Width {
    if kind % 2 == 1 {
        Width::Byte
    } else {
        Width::Word
    }
}

// A send of a record of kind 7, onto the wire less its first bytes.
fn sent(
    registers: Registers,
    pages: Pages,
    queues: Queues,
    memory: &mut [u8],
    wire: &mut [u8],
    asked: &[u8; 8],
) -> Returned {
    let [_, outcome, collisions, deferral, lacks, ..] = *asked;
    if lacks == 0 {
        return chip::send::<Paged>(
            registers, pages, queues, memory, wire, outcome, collisions, deferral,
        );
    }
    let from = wire.len().min(lacks as usize);
    let out = &mut wire[from..];
    chip::send::<Paged>(
        registers, pages, queues, memory, out, outcome, collisions, deferral,
    )
}

// A frame of a record of kind 6, the wire's first bytes.
fn arrived(
    registers: Registers,
    pages: Pages,
    queues: Queues,
    memory: &mut [u8],
    wire: &[u8],
    asked: &[u8; 8],
) -> Returned {
    let [_, flags, low, high, ..] = *asked;
    let n = wire.len().min(u16::from_le_bytes([low, high]) as usize);
    let alignment = flags / 2 % 2 == 1;
    chip::frame::<Paged>(registers, pages, queues, memory, &wire[..n], alignment)
}

// `access` and `send` are called at two places each, so that the compiler calls them and does not have them in the loop, as a caller elsewhere would. A record of any other
// kind calls no entry, and the chip is given back as it came.
fn served(
    registers: Registers,
    pages: Pages,
    queues: Queues,
    memory: &mut [u8],
    wire: &mut [u8],
    asked: &[u8; 8],
) -> Returned {
    let [kind, offset, low, high, ..] = *asked;
    match kind {
        1 | 2 => {
            let read = Request::Read(width_of(kind), offset);
            chip::access::<Paged>(registers, pages, queues, memory, read)
        }
        3 | 4 => {
            let write = Request::Write(width_of(kind), offset, u16::from_le_bytes([low, high]));
            chip::access::<Paged>(registers, pages, queues, memory, write)
        }
        6 => arrived(registers, pages, queues, memory, wire, asked),
        7 => sent(registers, pages, queues, memory, wire, asked),
        8 => chip::link::<Paged>(registers, pages, queues, memory, offset),
        _ => Returned {
            answer: Err(Refusal::CutShort),
            registers,
            pages,
            queues,
        },
    }
}

// How many bytes so many pages have, of memory that has `all`.
fn lent_bytes(all: usize, pages: u8) -> usize
    ensures { result ≤ all }
{
    match pages {
        0 => all,
        _ => all.min(pages as usize * 256),
    }
}

// What a case's entry gives back.
fn returned_of(case: &[u8; CASE], memory: &mut [u8], wire: &mut [u8]) -> Returned {
    let mut words = [0; 32];
    for (word, bytes) in words.iter_mut().zip(case[..64].as_chunks::<2>().0) {
        *word = u16::from_le_bytes(*bytes);
    }
    let mut sets = [0; 24];
    for (set, bytes) in sets.iter_mut().zip(case[64..160].as_chunks::<4>().0) {
        *set = u32::from_le_bytes(*bytes);
    }
    let mut slots = [0; 72];
    slots.copy_from_slice(&case[160..232]);
    let asked = case.last_chunk::<8>().unwrap();
    let n = lent_bytes(memory.len(), asked[7]);
    served(
        Registers { words },
        Pages { sets },
        Queues { slots },
        &mut memory[..n],
        wire,
        asked,
    )
}

// Three times the sum so far and the next number: so it matters where a number stands, and no part of a record can be left out.
fn added<N: Copy + Into<u32>>(sum: u32, numbers: &[N]) -> u32 {
    numbers.iter().fold(
        sum,
        |sum, number| sum.wrapping_mul(3).wrapping_add((*number).into()),
    )
}

// Over the words, the sets and the queues.
fn sum_of(registers: Registers, pages: Pages, queues: Queues) -> u32 {
    added(
        added(added(0, &registers.words), &pages.sets),
        &queues.slots,
    )
}

// A number's last digits, at those places of a line. By hand: what `{:010}` costs goes by how many digits the number has.
fn put(line: &mut [u8; 20], from: usize, to: usize, number: u32)
    requires { (from ≤ to) × (to ≤ 20) }
{
    let mut left = number;
    for digit in line[from..to].iter_mut().rev() {
        *digit = b'0' + (left % 10) as u8;
        left /= 10;
    }
}

fn print_line(rt: &impl Print, given: Returned) {
    let shown = Shown::from(given.answer);
    let mut line = *b"NN VVVVV SSSSSSSSSS\n";
    put(&mut line, 0, 2, shown.0 as u32);
    put(&mut line, 3, 8, shown.1 as u32);
    put(
        &mut line,
        9,
        19,
        sum_of(given.registers, given.pages, given.queues),
    );
    let _ = rt.write_all(&line);
}

fn main(rt: HostRuntime) {
    let mut input = [0; 131072];
    let n = streams::read_full(&rt, &mut input);
    let mut memory = [0; 6144];
    let mut wire = [0; 2052];
    for case in input[..n].as_chunks::<CASE>().0 {
        print_line(&rt, returned_of(case, &mut memory, &mut wire));
    }
}
