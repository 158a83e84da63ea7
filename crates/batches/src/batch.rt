// The records at hand: each complete one is answered, and its line joins the lines to be written.
ghost use Rattle.std.specs.Prelude.{◌≡◌, List, ℕ, ◌+◌, ◌/◌, ◌≤◌, length, take};
ghost use Rattle.state.specs.View.{view, figures, Kept};
ghost use Rattle.state.specs.Promise.{QueuesIn};
ghost use Rattle.records.specs.Gathers.{holding};
ghost use Rattle.lines.specs.Counting.{Counts};
ghost use Rattle.turns.specs.Turns.{Held};
ghost use Rattle.batches.specs.Batch.{form_of, widest, room_for, Prints, Answered};
ghost use Rattle.batches.specs.Alone.{LoneLine, LastLine};

use lines::Counter;
use pages::Paged;
use state::{Answer, Refusal, Shown};

// The line of a record, the bench's or that of `watch`; returns the place behind it. The interrupt line is the caller's, so that this stays short enough for the compiler to have it in the loop.
pub fn print(
    watching: bool,
    lines: &mut [u8],
    at: usize,
    counter: Counter,
    answer: Answer,
    sent: bool,
    up: bool,
    out: &[u8],
) -> usize
    requires { Counts counter × (length out.now ≡ 2052) × (at + widest watching + 10 ≤ length lines.old) }
    ensures { Prints watching counter.number answer sent up out.now lines.old at lines.new result × (result ≤ at + widest watching) }
{
    let shown = Shown::from(answer);
    if !watching {
        return lines::line_at(lines, at, counter, shown);
    }
    lines::watched_at(lines, at, counter, shown, up, sent, out)
}

// The line of a record that is no send, by itself at the front of the buffer; returns the place behind it.
pub fn lone_line(
    watching: bool,
    words: &[u16],
    out: &[u8],
    lines: &mut [u8],
    number: u64,
    answer: Answer,
) -> usize
    requires { Kept words.now × ((q : List ℕ) × QueuesIn (figures words.now) q) × (length out.now ≡ 2052) × (room_for watching 1 ≤ length lines.old) }
    ensures text { LoneLine watching number answer words.now out.now lines.new result }
    ensures fits { result ≤ length lines.old }
{
    let counter = lines::counter_of(number);
    let up = interrupts::line_up(words);
    print(watching, lines, 0, counter, answer, false, up, out)
}

// The line of a record that the input's end cuts short after `kept` bytes, if there are any; returns the place behind it.
pub fn last_line(
    watching: bool,
    words: &[u16],
    out: &[u8],
    lines: &mut [u8],
    kept: usize,
    number: u64,
) -> usize
    requires { Kept words.now × ((q : List ℕ) × QueuesIn (figures words.now) q) × (length out.now ≡ 2052) × (room_for watching 1 ≤ length lines.old) }
    ensures text { LastLine watching kept number words.now out.now lines.new result }
    ensures fits { result ≤ length lines.old }
{
    if kept == 0 {
        return 0;
    }
    lone_line(watching, words, out, lines, number, Err(Refusal::CutShort))
}

// Each complete record of the input; the lines stand before `end`.
pub fn answer_all(
    watching: bool,
    words: &mut [u16],
    sets: &mut [u32],
    queues: &mut [u8],
    memory: &mut [u8],
    wire: &mut [u8],
    have: &mut usize,
    out: &mut [u8],
    input: &[u8],
    lines: &mut [u8],
    end: &mut usize,
    number: &mut u64,
)
    requires held { Held words.old sets.old queues.old memory.old wire.old have.old × (length out.old ≡ 2052) }
    requires input_len_bound { (length input.now ≤ 8192) × (room_for watching (length input.now / 8) ≤ length lines.old) × (number.old + 1024 ≤ 0xffffffffffffffff) }
    ensures answered { Answered (form_of watching) (length input.now / 8) number.old input.now (holding (view words.old sets.old queues.old memory.old) (take have.old wire.old) out.old) words.new sets.new queues.new memory.new wire.new have.new out.new lines.new end.new number.new }
    ensures fits { end.new ≤ length lines.old }
{
    *end = 0;
    let mut counter = lines::counter_of(*number);
    for bytes in input.chunks_exact(8) {
        let given = turns::answer::<Paged>(words, sets, queues, memory, wire, have, out, bytes);
        let sent = records::is_send(bytes);
        let up = interrupts::line_up(words);
        *end = print(watching, lines, *end, counter, given, sent, up, out);
        counter = lines::next(counter);
    }
    *number = counter.number;
}
