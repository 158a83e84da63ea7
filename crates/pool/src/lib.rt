// Who is in which queue. Queues and the figures that the words keep of them change here alone (a soft reset zeroes the words before):
// each figure in the one function that joins a queue or leaves it, and where a queue or all, with the pages (`pages`), is emptied.
#![tactic(auto)]

mod fifos; // fifos.rt: what tells the three queues apart
mod figures; // figures.rt: what the words keep of the queues

ghost use Rattle.std.specs.Prelude.{◌≡◌, ◌||◌, [], ◌∷◌, ◌++◌, ◌<◌, IfSome, length, get_or, drop};
ghost use Rattle.rules.specs.Bits.{bit};
ghost use Rattle.rules.specs.Chip.{Layout};
ghost use Rattle.rules.specs.Parts.{IsPart};
ghost use Rattle.queues.specs.Parts.{slots};
ghost use Rattle.state.specs.View.{word, figures, rx_bits, tx_bits, queue_in, Kept};
ghost use Rattle.state.specs.Promise.{QueuesIn};
ghost use Rattle.pool.specs.Queues.{MayJoin, Rejoins, EmptiedOf};

pub use fifos::{Completion, Fifo, Rx, Tx};
pub use figures::store_none;
use queues::marks;
use sets::Packet;
use state::{IN_RX, IN_TX, PLACES};

// The bytes of a queue.
const SLOTS: usize = PLACES as usize;

// The head of a queue: the first of its slots (`head_told`: where it has entries).
pub fn head<Q: Fifo>(queues: &[u8]) -> Packet
    requires { length queues.now ≡ 72 }
    ensures { result.0 ≡ get_or (slots Q.place queues.now) 0 0 }
{
    let from = Q::FROM;
    queues::head(&queues[from..from + SLOTS])
}

// Is the packet in RX or TX, by the kept bits (`queued_told`: those of the entries)?
pub fn is_queued(words: &[u16], packet: Packet) -> bool
    requires { (length words.now ≡ 32) × (packet.0 < 32) }
    ensures { result ≡ bit packet.0 (rx_bits words.now) || bit packet.0 (tx_bits words.now) }
{
    let rx = figures::bits(words, IN_RX);
    let tx = figures::bits(words, IN_TX);
    marks::has(rx | tx, packet)
}

// The packet joins the end of a queue. It may not stand there yet where the queue's bits are kept.
pub fn join<Q: Fifo>(words: &mut [u16], queues: &mut [u8], packet: Packet)
    requires { Kept words.old × QueuesIn (figures words.old) queues.old × (word words.old Q.COUNT < 24) × IfSome Q.BITS (λ low. MayJoin packet.0 (queue_in Q.place (word words.old Q.COUNT) queues.old)) }
    ensures { Rejoins (λ p. Q.set_entries (Q.entries p ++ (packet.0 ∷ [])) p) words.old queues.old words.new queues.new }
{
    let count = words[Q::COUNT];
    let from = Q::FROM;
    queues::push(&mut queues[from..from + SLOTS], count, packet);
    figures::set_bit::<Q>(words, packet);
    words[Q::COUNT] = count + 1;
}

// The head of a queue leaves it, and is returned.
pub fn leave<Q: Fifo>(words: &mut [u16], queues: &mut [u8]) -> Packet
    requires { Kept words.old × QueuesIn (figures words.old) queues.old × (0 < word words.old Q.COUNT) }
    ensures head { result.0 ≡ get_or (queue_in Q.place (word words.old Q.COUNT) queues.old) 0 0 }
    ensures left { Rejoins (λ p. Q.set_entries (drop 1 (Q.entries p)) p) words.old queues.old words.new queues.new }
{
    let count = words[Q::COUNT];
    let head = head::<Q>(queues);
    let from = Q::FROM;
    queues::pop(&mut queues[from..from + SLOTS], count);
    figures::clear_bit::<Q>(words, head);
    words[Q::COUNT] = count - 1;
    head
}

// A queue is empty.
pub fn empty<Q: Fifo>(words: &mut [u16], queues: &mut [u8])
    requires { Kept words.old × QueuesIn (figures words.old) queues.old }
    ensures { Rejoins (λ p. Q.set_entries [] p) words.old queues.old words.new queues.new }
{
    let from = Q::FROM;
    queues::empty(&mut queues[from..from + SLOTS]);
    figures::clear_all::<Q>(words);
    words[Q::COUNT] = 0;
}

// No packet has pages, and all queues are empty, whatever the figures were: in either layout, for 0 is "no pages" of a set as of a count.
pub fn reset(words: &mut [u16], sets: &mut [u32], queues: &mut [u8])
    requires { Kept words.old × IsPart (length sets.old) × (length queues.old ≡ 72) }
    ensures { (l : Layout) → EmptiedOf l (length sets.old) words.old words.new sets.new queues.new }
{
    let packets = sets.len() as u8;
    sets::cleared(sets);
    queues::empty(queues);
    store_none(words, packets);
}
