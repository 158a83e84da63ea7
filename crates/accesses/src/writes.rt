// Writes.
ghost use Rattle.std.specs.Prelude.{◌≡◌, List, ℕ, ◌*◌, ◌/◌, length};
ghost use Rattle.rules.specs.Chip.{Layout, page_numbers};
ghost use Rattle.rules.specs.Registers as rules;
ghost use Rattle.state.specs.Meaning.{width_of, Placed};
ghost use Rattle.state.specs.View.{figures, view_of, Kept};
ghost use Rattle.state.specs.Promise.{QueuesIn, PagesIn, ReadyOf, MakesOf};
ghost use Rattle.accesses.specs.Reach.{place_of};

use crate::{DATA, DATA_1, is_wide, place};
use data::Data;
use pages::Layout;
use state::{
    Answer, COMMAND, CONTROL, ECR, EPHSR, HEADS, INTERRUPT, MIR, PACKET, POINTER, RCR, RESERVED,
    Refusal, STATION, STATION_1, STATION_2, TABLE, TABLE_1, TABLE_2, TABLE_3, TCR, Width,
};

// The low byte is the command; the high byte is read-only.
fn write_command<L: Layout>(
    words: &mut [u16],
    sets: &mut [u32],
    queues: &mut [u8],
    width: Width,
    offset: u8,
    value: u16,
) -> Answer
    requires { ReadyOf L.layout words.old sets.old queues.old × Placed width offset }
    ensures { (mem : List ℕ) → MakesOf L.layout (rules.write_register rules.COMMAND (rules.lanes_at (width_of width) offset) value (view_of L.layout words.old sets.old queues.old mem)) result words.new sets.new queues.new mem }
{
    if state::is_high(width, offset) {
        return Err(Refusal::ReadOnly);
    }
    commands::commanded::<L>(words, sets, queues, bits::low_byte(value))
}

// A write to the register at a place that is not data's, RCR's or the command's: it looks at no packet's pages, and changes none. The table is as that of `read_register`.
pub fn write_register(
    words: &mut [u16],
    queues: &mut [u8],
    at: usize,
    width: Width,
    offset: u8,
    value: u16,
) -> Answer
    requires { Kept words.old × QueuesIn (figures words.old) queues.old × Placed width offset × (at ≡ place_of words.old offset) × (at / 2 ≡ 10 → ⊥) × (at ≡ 2 → ⊥) × (at ≡ 16 → ⊥) × ((l : Layout) × (s : List ℕ) × PagesIn l (figures words.old) s) }
    ensures done { (l : Layout) (s mem : List ℕ) → PagesIn l (figures words.old) s → MakesOf l (rules.access (rules.write (width_of width) offset value) (view_of l words.old s queues.old mem)) result words.new s queues.new mem }
    ensures long { (length words.new ≡ 32) × (length queues.new ≡ 72) }
{
    match at {
        TCR => registers::write_tcr(words, width, offset, value),
        RESERVED => registers::write_reserved(words, width, offset, value),
        CONTROL => registers::write_control(words, width, offset, value),
        PACKET => registers::write_packet(words, width, offset, value),
        INTERRUPT => interrupts::write_interrupt(words, queues, width, offset, value),
        7 | 15 | 23 | 31 | 39 | 47 | 55 | 63 => {
            registers::write_bank(words, width, offset, value)
        }
        EPHSR | ECR | HEADS => Err(Refusal::ReadOnly),
        MIR => Err(Refusal::ReadOnly),
        6 | 8 | 13 | 28 | 30 | 32 | 34 | 36 | 38 => Err(Refusal::NotModelled),
        9 | 29 | 33 | 35 | 37 => Err(Refusal::NotModelled),
        STATION | STATION_2 | POINTER | TABLE | TABLE_2 => {
            registers::write_word(words, at, width, offset, value)
        }
        STATION_1 | TABLE_1 | TABLE_3 => { registers::write_word(words, at, width, offset, value) }
        // banks 5 to 7: ignored
        _ => Ok(0),
    }
}

// A write: to data, to one of the two registers that may free or grant pages, or to another. Data's places are as in `read`.
pub fn write<L: Data>(
    words: &mut [u16],
    sets: &mut [u32],
    queues: &mut [u8],
    memory: &mut [u8],
    width: Width,
    offset: u8,
    value: u16,
) -> Answer
    requires { ReadyOf L.layout words.old sets.old queues.old × (length memory.old ≡ 256 * page_numbers L.layout (length sets.old)) }
    ensures { MakesOf L.layout (rules.access (rules.write (width_of width) offset value) (view_of L.layout words.old sets.old queues.old memory.old)) result words.new sets.new queues.new memory.new }
{
    if state::misplaced(width, offset) {
        return Err(Refusal::Misplaced);
    }
    let at = place(words, offset);
    match at {
        DATA => {}
        DATA_1 => {}
        RCR => return reset::write_rcr(words, sets, queues, width, offset, value),
        COMMAND => return write_command::<L>(words, sets, queues, width, offset, value),
        _ => return write_register(words, queues, at, width, offset, value),
    }
    L::write_data(words, sets, queues, memory, is_wide(width), value)
}
