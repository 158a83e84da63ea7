// Is what was lent in order? Whatever its lengths and contents.
ghost use Rattle.lists.specs.Facts.{Decides};
ghost use Rattle.state.specs.Meaning.{packets_of};
ghost use Rattle.state.specs.Entry.{Holds, Whole};
ghost use Rattle.lent.specs.Lent.{Sized, LongAs};

use state::Part;

// Has a record its 32 words, 24 page sets and 72 bytes?
pub fn sized(words: &[u16], sets: &[u32], queues: &[u8]) -> bool
    ensures { Decides result (Sized words.now sets.now queues.now) }
{
    words.len() == 32 && sets.len() == 24 && queues.len() == 72
}

// The same beside the bytes of a part.
pub fn long_as(part: Part, words: &[u16], sets: &[u32], queues: &[u8], memory: &[u8]) -> bool
    ensures { Decides result (LongAs (packets_of part) words.now sets.now queues.now memory.now) }
{
    memory.len() == 256 * state::packets_of(part) && sized(words, sets, queues)
}

// A record of a well-formed chip, of either part.
pub fn ready(words: &[u16], sets: &[u32], queues: &[u8]) -> bool
    ensures { Decides result (Holds words.now sets.now queues.now) }
{
    sized(words, sets, queues) && guard::well_formed(words, sets, queues)
}

// The same beside 256 bytes for each page of its part.
pub fn in_order(words: &[u16], sets: &[u32], queues: &[u8], memory: &[u8]) -> bool
    ensures { Decides result (Whole words.now sets.now queues.now memory.now) }
{
    ready(words, sets, queues) && memory.len() == 256 * state::size_in(words)
}
