// The printed line. It is written once for each record, so the number's digits come with it, those of the answer are written in pairs
// at places that a few comparisons give, and the value's four characters are made in one word.
ghost use Rattle.std.specs.Prelude.{◌≡◌, [], ◌∷◌, ◌+◌, ◌≤◌, ◌<◌, length};
ghost use Rattle.rules.specs.Bench.{decimal, hex4, line};
ghost use Rattle.lists.specs.Written.{Writes};
ghost use Rattle.lines.specs.Decimal.{digits2, digits4};
ghost use Rattle.lines.specs.Word.{bytes4, bytes8};
ghost use Rattle.lines.specs.Counting.{Counts};
ghost use Rattle.lines.specs.Parts.{Begins, rest};

use crate::count::Counter;
use state::Shown;

pub fn byte_at(lines: &mut [u8], at: usize, x: u8) -> usize
    requires { at + 1 ≤ length lines.old }
    ensures { Writes lines.old at (x ∷ []) lines.new result }
{
    lines[at] = x;
    at + 1
}

fn two_at(lines: &mut [u8], at: usize, x: u32) -> usize
    requires { (x < 100) × (at + 2 ≤ length lines.old) }
    ensures { Writes lines.old at (digits2 x) lines.new result }
{
    let mid = byte_at(lines, at, (0x30 + x / 10) as u8);
    byte_at(lines, mid, (0x30 + x % 10) as u8)
}

fn four_at(lines: &mut [u8], at: usize, x: u32) -> usize
    requires { (x < 10000) × (at + 4 ≤ length lines.old) }
    ensures { Writes lines.old at (digits4 x) lines.new result }
{
    let mid = two_at(lines, at, x / 100);
    two_at(lines, mid, x % 100)
}

// A number below 10,000.
fn small_at(lines: &mut [u8], at: usize, x: u32) -> usize
    requires { (x < 10000) × (at + length (decimal x) ≤ length lines.old) }
    ensures { Writes lines.old at (decimal x) lines.new result }
{
    if x < 10 {
        return byte_at(lines, at, (0x30 + x) as u8);
    }
    if x < 100 {
        return two_at(lines, at, x);
    }
    if x < 1000 {
        let mid = byte_at(lines, at, (0x30 + x / 100) as u8);
        return two_at(lines, mid, x % 100);
    }
    four_at(lines, at, x)
}

// Any number.
fn long_at(lines: &mut [u8], at: usize, x: u64) -> usize
    requires { at + length (decimal x) ≤ length lines.old }
    ensures { Writes lines.old at (decimal x) lines.new result }
{
    if x < 10000 {
        return small_at(lines, at, x as u32);
    }
    let mid = long_at(lines, at, x / 10000);
    four_at(lines, mid, (x % 10000) as u32)
}

// The four hex digits of a value, the first in the lowest byte. Each nibble stands in a byte of its own; adding 6 carries into bit 4
// of the byte exactly for a to f, which are 39 further on than the digits.
fn hex_word(x: u16) -> u32
    ensures { bytes4 result ≡ hex4 x }
{
    let v = x as u32;
    let nibbles = v / 4096 + v / 256 % 16 * 256 + v / 16 % 16 * 65536 + v % 16 * 16777216;
    let letters = (nibbles + 0x06060606) / 16 & 0x01010101;
    nibbles + letters * 39 + 0x30303030
}

fn word_at(lines: &mut [u8], at: usize, x: u32) -> usize
    requires { at + 4 ≤ length lines.old }
    ensures { Writes lines.old at (bytes4 x) lines.new result }
{
    let b = byte_at(lines, at, (x % 256) as u8);
    let c = byte_at(lines, b, (x / 256 % 256) as u8);
    let d = byte_at(lines, c, (x / 65536 % 256) as u8);
    byte_at(lines, d, (x / 16777216 % 256) as u8)
}

fn eight_at(lines: &mut [u8], at: usize, x: u64) -> usize
    requires { at + 8 ≤ length lines.old }
    ensures { Writes lines.old at (bytes8 x) lines.new result }
{
    let mid = word_at(lines, at, (x % 4294967296) as u32);
    word_at(lines, mid, (x / 4294967296) as u32)
}

// The record's number. Up to eight bytes behind it may change: the rest of the line is written over them.
pub fn number_at(lines: &mut [u8], at: usize, counter: Counter) -> usize
    requires { Counts counter × (at + 20 ≤ length lines.old) }
    ensures { Begins lines.old at (decimal counter.number) lines.new result }
{
    if counter.length == 0 {
        return long_at(lines, at, counter.number);
    }
    eight_at(lines, at, counter.text);
    at + counter.length
}

// What stands behind the number: the answer and its value.
pub fn shown_at(lines: &mut [u8], at: usize, shown: Shown) -> usize
    requires { at + 9 ≤ length lines.old }
    ensures { Writes lines.old at (rest shown.0 shown.1) lines.new result }
{
    let b = byte_at(lines, at, 0x20);
    let c = small_at(lines, b, shown.0 as u32);
    let d = byte_at(lines, c, 0x20);
    word_at(lines, d, hex_word(shown.1))
}

// The line of a record, at a place of the buffer; returns the place behind it. All other bytes stay.
pub fn line_at(lines: &mut [u8], at: usize, counter: Counter, shown: Shown) -> usize
    requires { Counts counter × (at + 40 ≤ length lines.old) }
    ensures { Writes lines.old at (line counter.number (record { number = shown.0; value = shown.1 })) lines.new result × (result ≤ at + 30) }
{
    let mid = number_at(lines, at, counter);
    let end = shown_at(lines, mid, shown);
    byte_at(lines, end, 0x0a)
}
