// A frame that is stored.
ghost use Rattle.std.specs.Prelude.{◌≡◌, ◌*◌, length};
ghost use Rattle.rules.specs.Answers.{done_with};
ghost use Rattle.rules.specs.Chip.{page_numbers};
ghost use Rattle.rules.specs.Receive.{stow};
ghost use Rattle.state.specs.View.{view_of};
ghost use Rattle.state.specs.Promise.{MakesOf};
ghost use Rattle.judging.specs.Frames.{frame_of};
ghost use Rattle.receive.specs.Arrivals.{StowableOf};

use judging::{count_of, data_length, pages_for, status_of};
use pool::Rx;
use state::{Answer, CONTROL, RCR};
use stores::Store;

// It takes the lowest unallocated number and as many pages as it needs; the number goes to the end of RX.
pub fn stowed<L: Store>(
    words: &mut [u16],
    sets: &mut [u32],
    queues: &mut [u8],
    memory: &mut [u8],
    frame: &[u8],
    alignment: bool,
) -> Answer
    requires { StowableOf L.layout words.old sets.old queues.old (frame_of frame.now alignment) × (length memory.old ≡ 256 * page_numbers L.layout (length sets.old)) }
    ensures { MakesOf L.layout (done_with 0 (stow (frame_of frame.now alignment) (view_of L.layout words.old sets.old queues.old memory.old))) result words.new sets.new queues.new memory.new }
{
    let n = data_length(words[RCR], frame.len());
    let status = status_of(words[CONTROL], frame, n, alignment);
    let packet = L::lowest_unallocated(sets);
    L::grant(words, sets, packet, pages_for(n));
    let home = L::home(sets, packet);
    L::store_frame(memory, home, status, count_of(n), frame, n);
    pool::join::<Rx>(words, queues, packet);
    Ok(0)
}
