// The line of `watch`: what the bench's has, the interrupt line, and the bytes that a send has put out.
ghost use Rattle.std.specs.Prelude.{◌≡◌, ◌+◌, ◌*◌, ◌≤◌, ◌<◌, length};
ghost use Rattle.rules.specs.Bench.{hex_digit};
ghost use Rattle.rules.specs.Watch.{hex_bytes, put_out, more, watch_line};
ghost use Rattle.lists.specs.Written.{Writes};
ghost use Rattle.lines.specs.Counting.{Counts};

use crate::count::Counter;
use crate::line::{byte_at, number_at, shown_at};
use state::Shown;

fn hex_digit(d: u8) -> u8
    requires { d < 16 }
    ensures { result ≡ hex_digit d }
{
    if d < 10 {
        return 0x30 + d;
    }
    0x57 + d
}

// Bytes as hex digits, two for each.
fn hex_at(lines: &mut [u8], at: usize, bytes: &[u8]) -> usize
    requires { at + 2 * length bytes.now ≤ length lines.old }
    ensures { Writes lines.old at (hex_bytes bytes.now) lines.new result }
{
    let mut end = at;
    let mut i = 0;
    while i < bytes.len() {
        let mid = byte_at(lines, end, hex_digit(bytes[i] / 16));
        end = byte_at(lines, mid, hex_digit(bytes[i] % 16));
        i += 1;
    }
    end
}

// The bytes that a send has put out, if it is one and is done: as many of the buffer's as the value says.
fn sent_at(lines: &mut [u8], at: usize, shown: Shown, sent: bool, out: &[u8]) -> usize
    requires { at + 1 + 2 * length out.now ≤ length lines.old }
    ensures { Writes lines.old at (put_out sent (record { number = shown.0; value = shown.1 }) out.now) lines.new result }
{
    if !sent {
        return at;
    }
    if shown.0 != 0 {
        return at;
    }
    let n = shown.1 as usize;
    let mid = byte_at(lines, at, 0x20);
    if out.len() < n {
        return hex_at(lines, mid, out);
    }
    hex_at(lines, mid, &out[..n])
}

// What stands behind the value: the interrupt line, the bytes put out and the line's end.
fn more_at(lines: &mut [u8], at: usize, shown: Shown, up: bool, sent: bool, out: &[u8]) -> usize
    requires { at + 4 + 2 * length out.now ≤ length lines.old }
    ensures { Writes lines.old at (more (record { number = shown.0; value = shown.1 }) up sent out.now) lines.new result }
{
    let b = byte_at(lines, at, 0x20);
    let c = byte_at(lines, b, 0x30 + bits::flag_of(up) as u8);
    let d = sent_at(lines, c, shown, sent, out);
    byte_at(lines, d, 0x0a)
}

// The line of a record, at a place of the buffer; returns the place behind it. All other bytes stay.
pub fn watched_at(
    lines: &mut [u8],
    at: usize,
    counter: Counter,
    shown: Shown,
    up: bool,
    sent: bool,
    out: &[u8],
) -> usize
    requires { Counts counter × (at + 40 + 2 * length out.now ≤ length lines.old) }
    ensures { Writes lines.old at (watch_line counter.number (record { number = shown.0; value = shown.1 }) up sent out.now) lines.new result × (result ≤ at + 40 + 2 * length out.now) }
{
    let b = number_at(lines, at, counter);
    let c = shown_at(lines, b, shown);
    more_at(lines, c, shown, up, sent, out)
}
