// A record number with its digits beside it: from one number to the next they seldom change, so they are not made anew for each line.
ghost use Rattle.std.specs.Prelude.{◌≡◌, ◌+◌, ◌≤◌};
ghost use Rattle.lines.specs.Counting.{Counts, counter_of};

// A record number and, below a hundred million, its decimal digits as characters: the first in the lowest byte of `text`, `length` of them,
// the last one being `last`, which stands for `unit` in the text. At and above that all but the number is 0.
#[derive(Clone, Copy)]
pub struct Counter {
    pub number: u64,
    pub text: u64,
    pub unit: u64,
    pub last: u8,
    pub length: usize,
}

// The counter of a number. Its digits are packed from the last one on; `x` is what stands before them.
pub fn counter_of(number: u64) -> Counter
    ensures { result ≡ counter_of number }
{
    if 100000000 <= number {
        return Counter {
            number,
            text: 0,
            unit: 0,
            last: 0,
            length: 0,
        };
    }
    let last = number % 10;
    let mut text = 0x30 + last;
    let mut unit = 1;
    let mut length = 1;
    let mut x = number / 10;
    while 0 < x {
        text = text * 256 + 0x30 + x % 10;
        unit = unit * 256;
        length += 1;
        x = x / 10;
    }
    Counter {
        number,
        text,
        unit,
        last: last as u8,
        length,
    }
}

// The next number. Nine times out of ten only the last digit grows.
pub fn next(counter: Counter) -> Counter
    requires { Counts counter × (counter.number + 1 ≤ 0xffffffffffffffff) }
    ensures { result ≡ counter_of (counter.number + 1) }
{
    if counter.length == 0 {
        return counter_of(counter.number + 1);
    }
    if counter.last == 9 {
        return counter_of(counter.number + 1);
    }
    Counter {
        number: counter.number + 1,
        text: counter.text + counter.unit,
        unit: counter.unit,
        last: counter.last + 1,
        length: counter.length,
    }
}
