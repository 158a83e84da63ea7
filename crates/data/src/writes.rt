// Writes behind the gate: the first byte lies at i, in the lowest page of `rest`.
ghost use Rattle.std.specs.Prelude.{◌≡◌, true, false, ◌%◌, length};
ghost use Rattle.data.specs.Access.{bytes_for, Room, Writes};

use crate::checks::place_in;
use crate::pointer::advance;
use sets::Address;
use state::{Answer, Refusal};

// A word whose second byte lies in the next page.
fn write_across(words: &mut [u16], memory: &mut [u8], i: usize, rest: u32, value: u16) -> Answer
    requires { Room words.old memory.old i rest × (i % 256 ≡ 255) }
    ensures writes { Writes (bytes_for true value) i rest words.old memory.old result words.new memory.new }
    ensures long { length words.new ≡ length words.old }
    ensures full { length memory.new ≡ length memory.old }
{
    let more = sets::without(rest, 1);
    if more == 0 {
        return Err(Refusal::PastPages);
    }
    advance(words, 2);
    memory[i] = bits::low_byte(value);
    memory[place_in(more, Address(0))] = bits::high_byte(value);
    Ok(0)
}

pub fn write_word(words: &mut [u16], memory: &mut [u8], i: usize, rest: u32, value: u16) -> Answer
    requires { Room words.old memory.old i rest }
    ensures writes { Writes (bytes_for true value) i rest words.old memory.old result words.new memory.new }
    ensures long { length words.new ≡ length words.old }
    ensures full { length memory.new ≡ length memory.old }
{
    if i % 256 == 255 {
        return write_across(words, memory, i, rest, value);
    }
    advance(words, 2);
    memory[i] = bits::low_byte(value);
    memory[i + 1] = bits::high_byte(value);
    Ok(0)
}

pub fn write_byte(words: &mut [u16], memory: &mut [u8], i: usize, rest: u32, value: u16) -> Answer
    requires { Room words.old memory.old i rest }
    ensures writes { Writes (bytes_for false value) i rest words.old memory.old result words.new memory.new }
    ensures long { length words.new ≡ length words.old }
    ensures full { length memory.new ≡ length memory.old }
{
    advance(words, 1);
    memory[i] = bits::low_byte(value);
    Ok(0)
}
