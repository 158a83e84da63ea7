// The three queues: entries that may be there, 0 behind them, and the figures kept of them.
ghost use Rattle.std.specs.Prelude.{◌≡◌, true, map, sum, ◌≤◌, length, take};
ghost use Rattle.std.specs.Option.{SomeIff};
ghost use Rattle.rules.specs.Tests.{all_below};
ghost use Rattle.rules.specs.WellFormed.{GoodQueues};
ghost use Rattle.lists.specs.Facts.{Decides};
ghost use Rattle.sets.specs.Views.{pages_of};
ghost use Rattle.state.specs.View.{word, figures, rx_bits, tx_bits, queue_in};
ghost use Rattle.state.specs.Promise.{QueuesIn};
ghost use Rattle.guard.specs.Pass.{passes, gathered};

use queues::marks;
use sets::Packet;
use state::{
    COMPLETION, COMPLETION_COUNT, IN_RX, IN_RX_HIGH, IN_TX, IN_TX_HIGH, QUEUES_END, RX, RX_COUNT,
    TX, TX_COUNT,
};

// What the bytes add up to: 0 stands behind the entries exactly where the entries add up to as much.
fn total(bytes: &[u8]) -> u16
    requires { length bytes.now ≡ 72 }
    ensures { result ≡ sum bytes.now }
{
    bytes.iter().map(|&byte| byte as u16).sum()
}

// Has each queue room for so many entries? Completion holds as many as the part has packets.
fn counts_fit(words: &[u16], size: usize) -> bool
    requires { length words.now ≡ 32 }
    ensures { Decides result ((word words.now 6 ≤ 24) × (word words.now 8 ≤ 24) × (word words.now 9 ≤ size)) }
{
    words[RX_COUNT] <= 24 && words[TX_COUNT] <= 24 && words[COMPLETION_COUNT] as usize <= size
}

// Are these the packets whose bits "in RX" and "in TX" are set?
fn marks_good(words: &[u16], rx: u32, tx: u32) -> bool
    requires { length words.now ≡ 32 }
    ensures { Decides result ((rx_bits words.now ≡ rx) × (tx_bits words.now ≡ tx)) }
{
    marks::joined(words[IN_RX], words[IN_RX_HIGH]) == rx
        && marks::joined(words[IN_TX], words[IN_TX_HIGH]) == tx
}

// The packets that are seen after a queue, bit k for packet k, and what its entries add up to.
#[derive(Drop)]
struct Seen {
    packets: u32,
    sum: u32,
}

// Those seen with the entries, where each is allocated and not seen before it.
fn fresh(sets: &[u32], slots: &[u8], count: u16, seen: u32) -> Option<Seen>
    requires { (length sets.now ≡ 24) × (length slots.now ≡ 24) × (count ≤ 24) }
    ensures { let l = take count slots.now in SomeIff result (passes (map pages_of sets.now) seen l ≡ true) (record { packets = gathered seen l; sum = sum l }) }
{
    let mut packets = seen;
    let mut sum = 0;
    for &entry in &slots[..count as usize] {
        let packet = Packet(entry);
        if !sets::has_pages(sets::set_of(sets, packet)) || marks::has(packets, packet) {
            return None;
        }
        packets = marks::with(packets, packet);
        sum += entry as u32;
    }
    Some(Seen { packets, sum })
}

// What the entries add up to, where each is a packet number.
fn all_below(slots: &[u8], count: u16, limit: usize) -> Option<u32>
    requires { (length slots.now ≡ 24) × (count ≤ 24) }
    ensures { let l = take count slots.now in SomeIff result (all_below limit l ≡ true) (sum l) }
{
    let mut sum = 0;
    for &entry in &slots[..count as usize] {
        if limit <= entry as usize {
            return None;
        }
        sum += entry as u32;
    }
    Some(sum)
}

// Are the queues laid out as they must be, and their entries what document 01 asks? Those of RX are seen before TX.
pub fn queues_good(words: &[u16], sets: &[u32], queues: &[u8], size: usize) -> bool
    requires { (length words.now ≡ 32) × (length sets.now ≡ 24) × (length queues.now ≡ 72) × (size ≤ 24) }
    ensures { Decides result (QueuesIn (figures words.now) queues.now × GoodQueues size (map pages_of sets.now) (queue_in 0 (word words.now 6) queues.now) (queue_in 1 (word words.now 8) queues.now) (queue_in 2 (word words.now 9) queues.now)) }
{
    if !counts_fit(words, size) {
        return false;
    }
    let Some(rx) = fresh(sets, &queues[RX..TX], words[RX_COUNT], 0) else {
        return false;
    };
    let Some(tx) = fresh(sets, &queues[TX..COMPLETION], words[TX_COUNT], rx.packets) else {
        return false;
    };
    if !marks_good(words, rx.packets, tx.packets - rx.packets) {
        return false;
    }
    let completion = all_below(
        &queues[COMPLETION..QUEUES_END],
        words[COMPLETION_COUNT],
        size,
    );
    let Some(completion) = completion else {
        return false;
    };
    total(queues) == (rx.sum + tx.sum + completion) as u16
}
