// Reads that are not a word as it stands.
ghost use Rattle.std.specs.Prelude.{◌≡◌, length};
ghost use Rattle.rules.specs.Bits.{bit, word_of};
ghost use Rattle.rules.specs.Link.{shown};
ghost use Rattle.rules.specs.Registers as rules;
ghost use Rattle.state.specs.View.{word, figures, queue_in, Kept};
ghost use Rattle.state.specs.Promise.{QueuesIn, Does};

use pool::{Completion, Fifo, Rx};
use state::{Answer, ECR, EPHSR, LINK, NO_PACKET, flags};

// The head of a queue, 80h when empty.
fn head_shown<Q: Fifo>(words: &[u16], queues: &[u8]) -> u8
    requires { Kept words.now × QueuesIn (figures words.now) queues.now }
    ensures { result ≡ rules.head_of (queue_in Q.place (word words.now Q.COUNT) queues.now) }
{
    if words[Q::COUNT] == 0 {
        return NO_PACKET;
    }
    pool::head::<Q>(queues).0
}

// The heads of completion and of RX.
pub fn heads(words: &[u16], queues: &[u8]) -> u16
    requires { Kept words.now × QueuesIn (figures words.now) queues.now }
    ensures { result ≡ word_of (rules.head_of (queue_in 2 (word words.now 9) queues.now)) (rules.head_of (queue_in 0 (word words.now 6) queues.now)) }
{
    bits::word(
        head_shown::<Completion>(words, queues),
        head_shown::<Rx>(words, queues),
    )
}

// EPHSR, with the link at bit 14.
pub fn ephsr(words: &[u16]) -> u16
    requires { Kept words.now }
    ensures { result ≡ shown (bit 0 (word words.now 15)) (word words.now 1) }
{
    state::shown_ephsr(words[EPHSR], words[LINK])
}

// ECR is cleared, and EPHSR bit 12, after the value is taken.
pub fn read_ecr(words: &mut [u16]) -> u16
    requires { Kept words.old }
    ensures value { result ≡ word words.old 3 }
    ensures done { (p : rules.Lanes) → Does (rules.read_register rules.ECR p) words.old (Ok (rules.taken p result)) words.new }
    ensures long { length words.new ≡ 32 }
{
    let ecr = words[ECR];
    words[ECR] = 0;
    words[EPHSR] = bits::with_clear(words[EPHSR], flags::CTR_ROL);
    ecr
}
