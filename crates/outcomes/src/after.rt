// The registers and TX after a send.
ghost use Rattle.std.specs.Prelude.{◌≡◌, ◌||◌, ◌≤◌, ◌<◌, eqb, get_or};
ghost use Rattle.rules.specs.Bits.{bit};
ghost use Rattle.state.specs.View.{word, figures, queue_in, Latches, Kept};
ghost use Rattle.state.specs.Promise.{QueuesIn, Sets};
ghost use Rattle.outcomes.specs.Numbers.{send_of, ending_of};
ghost use Rattle.outcomes.specs.Sent.{sent_by, Sent};

use crate::Send;
use crate::event::Ending;
use crate::nibbles::{any_full, new_ecr, tallied};
use crate::status::{new_ephsr, new_tcr};
use pool::Tx;
use sets::Packet;
use state::{ECR, EPHSR, LATCHES, TCR, TX_COUNT, flags};

// TX EMPTY is set where the packet that leaves TX is its last; RX_OVRN stays.
#[tactic(auto, using(crate::proofs::Facts::latch_set, bits::specs::Laws::bit_set, bits::specs::Laws::bit_set_other))]
fn new_latches(latches: u16, tx: u16) -> u16
    requires { Latches latches }
    ensures latched { Latches result }
    ensures empty { bit 2 result ≡ bit 2 latches || eqb tx 1 }
    ensures overrun { bit 4 result ≡ bit 4 latches }
{
    if tx != 1 {
        return latches;
    }
    bits::with_set(latches, flags::TX_EMPTY)
}

// `address` is the bit of the address's kind.
fn set_registers(words: &mut [u16], ending: Ending, good: bool, address: u16)
    requires { Kept words.old × (address ≤ 64) }
    ensures { Sets (sent_by good (ending_of ending) address (eqb (word words.old 8) 1)) words.old words.new }
{
    let counts = tallied(good, ending, words[ECR]);
    let tcr = new_tcr(good, words[TCR]);
    let ephsr = new_ephsr(good, ending, address, words[EPHSR], any_full(counts));
    let latches = new_latches(words[LATCHES], words[TX_COUNT]);
    words[TCR] = tcr;
    words[EPHSR] = ephsr;
    words[ECR] = new_ecr(counts);
    words[LATCHES] = latches;
}

// The registers become those after the send, and the head leaves TX and is returned.
pub fn after_send(words: &mut [u16], queues: &mut [u8], s: Send, good: bool, address: u16) -> Packet
    requires { Kept words.old × QueuesIn (figures words.old) queues.old × (0 < word words.old 8) × (s.outcome ≤ 5) × (address ≤ 64) }
    ensures head { result.0 ≡ get_or (queue_in 1 (word words.old 8) queues.old) 0 0 }
    ensures sent { Sent good (send_of s) address words.old queues.old words.new queues.new }
{
    set_registers(words, Ending::of(s), good, address);
    pool::leave::<Tx>(words, queues)
}
