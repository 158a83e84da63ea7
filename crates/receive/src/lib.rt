// A frame arrives. What becomes of it is judged in `judging`.
#![tactic(auto)]

mod stow; // stow.rt: a frame that is stored

ghost use Rattle.std.specs.Prelude.{◌≡◌, true, ◌*◌, length};
ghost use Rattle.rules.specs.Answers.{done_with};
ghost use Rattle.rules.specs.Chip.{page_numbers};
ghost use Rattle.rules.specs.Fields.{set_overrun, in_registers};
ghost use Rattle.rules.specs.Receive.{abort, arrive};
ghost use Rattle.state.specs.View.{view_of, Kept};
ghost use Rattle.state.specs.Promise.{ReadyOf, Does, MakesOf};
ghost use Rattle.judging.specs.Frames.{frame_of};
ghost use Rattle.judging.specs.Verdicts.{arrival_of};
ghost use Rattle.receive.specs.Arrivals.{turned_away};

use judging::{Rejection, judged};
use state::{Answer, LATCHES, RCR, Refusal, flags};
use stores::Store;

// The frame is not stored, and RX_ABORT says so.
fn aborted(words: &mut [u16], value: u16) -> Answer
    requires { Kept words.old }
    ensures { Does (λ c. done_with value (in_registers abort c)) words.old result words.new }
{
    words[RCR] = bits::with_set(words[RCR], flags::RX_ABORT);
    Ok(value)
}

// And for want of room, RX_OVRN.
fn overrun(words: &mut [u16], value: u16) -> Answer
    requires { Kept words.old }
    ensures { Does (λ c. done_with value (in_registers (λ r. set_overrun true (abort r)) c)) words.old result words.new }
{
    words[LATCHES] = bits::with_set(words[LATCHES], flags::RX_OVRN);
    aborted(words, value)
}

// A frame that is not stored: the answer's value says why, and of 3 and 5 the registers too.
#[tactic(auto, using(crate::proofs::Facts::stays), unfolding(rules::specs::Receive::value_for, rules::specs::Receive::after))]
pub fn turned_away(words: &mut [u16], rejection: Rejection) -> Answer
    requires { Kept words.old }
    ensures { Does (turned_away (arrival_of (Err rejection))) words.old result words.new }
{
    match rejection {
        Rejection::Disabled => Ok(1),
        Rejection::NotAccepted => Ok(2),
        Rejection::TooLong => aborted(words, 3),
        Rejection::Bad => Ok(4),
        Rejection::NoRoom => overrun(words, 5),
    }
}

// A frame arrives at a chip that is well formed: its bytes with FCS, and the flag alignment.
pub fn arrived<L: Store>(
    words: &mut [u16],
    sets: &mut [u32],
    queues: &mut [u8],
    memory: &mut [u8],
    frame: &[u8],
    alignment: bool,
) -> Answer
    requires { ReadyOf L.layout words.old sets.old queues.old × (length memory.old ≡ 256 * page_numbers L.layout (length sets.old)) }
    ensures { MakesOf L.layout (arrive (frame_of frame.now alignment) (view_of L.layout words.old sets.old queues.old memory.old)) result words.new sets.new queues.new memory.new }
{
    if frame.len() < 18 {
        return Err(Refusal::OutsideLimits);
    }
    if let Err(rejection) = judged(words, frame, alignment) {
        return turned_away(words, rejection);
    }
    stow::stowed::<L>(words, sets, queues, memory, frame, alignment)
}
