// A send finishes: the TX head is sent.
ghost use Rattle.std.specs.Prelude.{◌≡◌, false, ◌*◌, ◌≤◌, ◌<◌, length};
ghost use Rattle.rules.specs.Chip.{page_numbers};
ghost use Rattle.rules.specs.Send as rules;
ghost use Rattle.state.specs.View.{word, view_of};
ghost use Rattle.state.specs.Promise.{ReadyOf};
ghost use Rattle.outcomes.specs.Numbers.{send_of};
ghost use Rattle.sending.specs.Sends.{head_sent, CompletesOf, SendsOf};

use crate::address::address_bits;
use crate::output::{LEAST_COUNT, is_past, put_out};
use on_wire::OUTPUT_BYTES;
use outcomes::{Send, after_send, is_full, is_good, is_released, is_within, retire};
use pool::Tx;
use sets::Address;
use state::{Answer, COMPLETION_COUNT, CONTROL, EPHSR, LINK, Refusal, TCR, TX_COUNT, flags};
use stores::Store;

// What a send does once its bytes are out: registers, TX, the status word, and what becomes of the packet. `home` is where the TX head lies.
fn complete<L: Store>(
    words: &mut [u16],
    sets: &mut [u32],
    queues: &mut [u8],
    memory: &mut [u8],
    home: L::Home,
    s: Send,
    good: bool,
    released: bool,
)
    requires { ReadyOf L.layout words.old sets.old queues.old × (0 < word words.old 8) × L.Fits home memory.old × (10 ≤ 256 * length (L.pages_in home)) × (s.outcome ≤ 5) × (released ≡ false → word words.old 9 < 24) }
    ensures { CompletesOf L.layout released good (send_of s) (L.pages_in home) (view_of L.layout words.old sets.old queues.old memory.old) words.new sets.new queues.new memory.new }
{
    let address = address_bits::<L>(memory, home);
    let head = after_send(words, queues, s, good, address);
    let status = state::shown_ephsr(words[EPHSR], words[LINK]);
    L::write_status(memory, home, status);
    retire::<L>(words, sets, queues, head, released);
}

// The TX head is sent (the rules' `if_sendable`): refusals 13, 18 and 19 with its byte count, then 14, and else all that a send does.
fn send_head<L: Store>(
    words: &mut [u16],
    sets: &mut [u32],
    queues: &mut [u8],
    memory: &mut [u8],
    out: &mut [u8],
    s: Send,
) -> Answer
    requires { ReadyOf L.layout words.old sets.old queues.old × (length memory.old ≡ 256 * page_numbers L.layout (length sets.old)) × (2052 ≤ length out.old) × (0 < word words.old 8) × (s.outcome ≤ 5) }
    ensures { SendsOf L.layout (head_sent (send_of s) (view_of L.layout words.old sets.old queues.old memory.old) out.old) result words.new sets.new queues.new memory.new out.new }
{
    let packet = pool::head::<Tx>(queues);
    let home = L::home(sets, packet);
    let count = L::read_word(memory, home, Address(2));
    if bits::is_set(count, 0) {
        return Err(Refusal::OddCount(count));
    }
    if count < LEAST_COUNT {
        return Err(Refusal::ShortCount(count));
    }
    if is_past(count, L::page_count(home)) {
        return Err(Refusal::LongCount(count));
    }
    let good = is_good(words[TCR], s.outcome);
    let released = is_released(good, words[CONTROL]);
    if is_full(released, words[COMPLETION_COUNT], sets.len()) {
        return Err(Refusal::CompletionFull);
    }
    let value = put_out::<L>(memory, home, words[TCR], count, out);
    complete::<L>(words, sets, queues, memory, home, s, good, released);
    Ok(value)
}

// A send finishes, on a chip that is well formed.
pub fn finished<L: Store>(
    words: &mut [u16],
    sets: &mut [u32],
    queues: &mut [u8],
    memory: &mut [u8],
    out: &mut [u8],
    outcome: u8,
    collisions: u8,
    deferral: u8,
) -> Answer
    requires { ReadyOf L.layout words.old sets.old queues.old × (length memory.old ≡ 256 * page_numbers L.layout (length sets.old)) }
    ensures { SendsOf L.layout (rules.finish (record { outcome = outcome; collisions = collisions; deferral = deferral }) (view_of L.layout words.old sets.old queues.old memory.old) out.old) result words.new sets.new queues.new memory.new out.new }
{
    if out.len() < OUTPUT_BYTES {
        return Err(Refusal::ShortOutput);
    }
    let s = Send {
        outcome,
        collisions,
        deferral,
    };
    if !is_within(s) {
        return Err(Refusal::OutsideLimits);
    }
    if !bits::is_set(words[TCR], flags::TXENA) {
        return Err(Refusal::NothingToSend);
    }
    if words[TX_COUNT] == 0 {
        return Err(Refusal::NothingToSend);
    }
    send_head::<L>(words, sets, queues, memory, out, s)
}
