// Reads behind the gate: the first byte lies at i, in the lowest page of `rest`.
ghost use Rattle.std.specs.Prelude.{◌≡◌, ◌%◌, length};
ghost use Rattle.data.specs.Access.{Room, Reads};

use crate::checks::place_in;
use crate::pointer::advance;
use sets::Address;
use state::{Answer, Refusal};

// A word whose second byte lies in the next page.
fn read_across(words: &mut [u16], memory: &[u8], i: usize, rest: u32) -> Answer
    requires { Room words.old memory.now i rest × (i % 256 ≡ 255) }
    ensures reads { Reads 2 i rest words.old memory.now result words.new }
    ensures long { length words.new ≡ length words.old }
{
    let more = sets::without(rest, 1);
    if more == 0 {
        return Err(Refusal::PastPages);
    }
    advance(words, 2);
    Ok(bits::word(memory[i], memory[place_in(more, Address(0))]))
}

pub fn read_word(words: &mut [u16], memory: &[u8], i: usize, rest: u32) -> Answer
    requires { Room words.old memory.now i rest }
    ensures reads { Reads 2 i rest words.old memory.now result words.new }
    ensures long { length words.new ≡ length words.old }
{
    if i % 256 == 255 {
        return read_across(words, memory, i, rest);
    }
    advance(words, 2);
    Ok(bits::word(memory[i], memory[i + 1]))
}

// A byte behind the gate is never refused: its value alone.
pub fn read_byte(words: &mut [u16], memory: &[u8], i: usize, rest: u32) -> u16
    requires { Room words.old memory.now i rest }
    ensures reads { Reads 1 i rest words.old memory.now (Ok result) words.new }
    ensures long { length words.new ≡ length words.old }
{
    advance(words, 1);
    bits::word(memory[i], 0)
}
