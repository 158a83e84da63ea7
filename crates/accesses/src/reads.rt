// Reads.
ghost use Rattle.std.specs.Prelude.{◌≡◌, List, ℕ, ◌*◌, ◌/◌, length};
ghost use Rattle.rules.specs.Chip.{Layout, page_numbers};
ghost use Rattle.rules.specs.Registers as rules;
ghost use Rattle.state.specs.Meaning.{width_of, Placed};
ghost use Rattle.state.specs.View.{figures, view_of, Kept};
ghost use Rattle.state.specs.Promise.{QueuesIn, PagesIn, ReadyOf, MakesOf};
ghost use Rattle.accesses.specs.Reach.{place_of};

use crate::{DATA, DATA_1, is_wide, place};
use data::Data;
use state::{
    Answer, BANK, COMMAND, CONTROL, ECR, EPHSR, HEADS, INTERRUPT, MIR, PACKET, POINTER, RCR,
    RESERVED, Refusal, STATION, STATION_1, STATION_2, TABLE, TABLE_1, TABLE_2, TABLE_3, TCR, Width,
};

// Done, with what the access takes of the word.
fn gives(width: Width, offset: u8, word: u16) -> Answer
    ensures { result ≡ Ok (rules.taken (rules.lanes_at (width_of width) offset) word) }
{
    Ok(state::taken(width, offset, word))
}

// A read of ECR, the one register that a read clears.
pub fn read_ecr(words: &mut [u16], queues: &[u8], width: Width, offset: u8) -> Answer
    requires { Kept words.old × QueuesIn (figures words.old) queues.now × Placed width offset × (place_of words.old offset ≡ 3) × ((l : Layout) × (s : List ℕ) × PagesIn l (figures words.old) s) }
    ensures done { (l : Layout) (s mem : List ℕ) → PagesIn l (figures words.old) s → MakesOf l (rules.access (rules.read (width_of width) offset) (view_of l words.old s queues.now mem)) result words.new s queues.now mem }
    ensures long { length words.new ≡ 32 }
{
    gives(width, offset, registers::read_ecr(words))
}

// A read of the register at a place that is not data's or ECR's: it looks at no packet's pages, and changes nothing. Neighbouring places are dealt out to two arms with
// one body, for the compiler alone: a run of places in one arm is tested once more behind its table, by up to 8 instructions. A refusal is returned at once for it too: see `read`.
pub fn read_register(words: &[u16], queues: &[u8], at: usize, width: Width, offset: u8) -> Answer
    requires { Kept words.now × QueuesIn (figures words.now) queues.now × Placed width offset × (at ≡ place_of words.now offset) × (at / 2 ≡ 10 → ⊥) × (at ≡ 3 → ⊥) × ((l : Layout) × (s : List ℕ) × PagesIn l (figures words.now) s) }
    ensures { (l : Layout) (s mem : List ℕ) → PagesIn l (figures words.now) s → MakesOf l (rules.access (rules.read (width_of width) offset) (view_of l words.now s queues.now mem)) result words.now s queues.now mem }
{
    match at {
        MIR => gives(width, offset, words[MIR]),
        HEADS => gives(width, offset, registers::heads(words, queues)),
        INTERRUPT => gives(width, offset, interrupts::interrupt(words)),
        EPHSR => gives(width, offset, registers::ephsr(words)),
        // the bank, at offset E of every bank
        7 | 15 | 23 | 31 | 39 | 47 | 55 | 63 => gives(width, offset, words[BANK]),
        // not modelled: bank 0, C; bank 1, 0, 2 and A; bank 3, 8, A and C; bank 4
        6 | 8 | 13 | 28 | 30 | 32 | 34 | 36 | 38 => return Err(Refusal::NotModelled),
        9 | 29 | 33 | 35 | 37 => return Err(Refusal::NotModelled),
        TCR | RCR | STATION | STATION_2 | CONTROL | COMMAND | POINTER | TABLE | TABLE_2 => {
            gives(width, offset, words[at])
        }
        RESERVED | STATION_1 | PACKET | TABLE_1 | TABLE_3 => gives(width, offset, words[at]),
        // banks 5 to 7
        _ => gives(width, offset, 0x3333),
    }
}

// A read: of data, of ECR, or of another register. Each of data's places has an arm of its own, for the compiler alone: this table and that of `read_register` are one to it then.
// So is an answer first put by and then returned: returned straight from the call, its number and its value are packed into one number and taken apart again, by up to 17 instructions.
pub fn read<L: Data>(
    words: &mut [u16],
    sets: &[u32],
    queues: &[u8],
    memory: &[u8],
    width: Width,
    offset: u8,
) -> Answer
    requires { ReadyOf L.layout words.old sets.now queues.now × (length memory.now ≡ 256 * page_numbers L.layout (length sets.now)) }
    ensures { MakesOf L.layout (rules.access (rules.read (width_of width) offset) (view_of L.layout words.old sets.now queues.now memory.now)) result words.new sets.now queues.now memory.now }
{
    if state::misplaced(width, offset) {
        return Err(Refusal::Misplaced);
    }
    let at = place(words, offset);
    match at {
        DATA => {}
        DATA_1 => {}
        ECR => {
            let answer = read_ecr(words, queues, width, offset);
            return answer;
        }
        _ => {
            let answer = read_register(words, queues, at, width, offset);
            return answer;
        }
    }
    let answer = L::read_data(words, sets, queues, memory, is_wide(width));
    answer
}
