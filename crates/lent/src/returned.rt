// What a call returns, and what it is told of a width.
ghost use Rattle.std.specs.Prelude.{◌≡◌};
ghost use Rattle.state.specs.Meaning.{reply_of, width_of};
ghost use Rattle.lent.specs.Lent.{told, wide};

use state::{Answer, Shown, Width};

// The answer's number, and 16 bits of value below it.
pub fn told(answer: Answer) -> u32
    ensures { result ≡ told (reply_of answer) }
{
    let shown = Shown::from(answer);
    shown.0 as u32 * 65536 + shown.1 as u32
}

// A word, or a byte.
pub fn width_of(word: bool) -> Width
    ensures { width_of result ≡ wide word }
{
    if word { Width::Word } else { Width::Byte }
}
