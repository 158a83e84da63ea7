// The commands on the RX head: refusal 7 where RX is empty.
ghost use Rattle.std.specs.Prelude.{List, ℕ};
ghost use Rattle.rules.specs.Chip.{Layout};
ghost use Rattle.rules.specs.Mmu as rules;
ghost use Rattle.state.specs.View.{figures, Kept};
ghost use Rattle.state.specs.Promise.{QueuesIn, PagesIn, ReadyOf};
ghost use Rattle.commands.specs.Orders.{PerformsOf};

use pages::Layout;
use pool::Rx;
use state::{Answer, RX_COUNT, Refusal};

pub fn do_remove(words: &mut [u16], queues: &mut [u8]) -> Answer
    requires { Kept words.old × QueuesIn (figures words.old) queues.old × ((l : Layout) × (s : List ℕ) × PagesIn l (figures words.old) s) }
    ensures { (l : Layout) (s : List ℕ) → PagesIn l (figures words.old) s → PerformsOf l rules.remove_rx words.old s queues.old result words.new s queues.new }
{
    if words[RX_COUNT] == 0 {
        return Err(Refusal::RxEmpty);
    }
    pool::leave::<Rx>(words, queues);
    Ok(0)
}

pub fn do_remove_and_release<L: Layout>(
    words: &mut [u16],
    sets: &mut [u32],
    queues: &mut [u8],
) -> Answer
    requires { ReadyOf L.layout words.old sets.old queues.old }
    ensures { PerformsOf L.layout rules.remove_and_release words.old sets.old queues.old result words.new sets.new queues.new }
{
    if words[RX_COUNT] == 0 {
        return Err(Refusal::RxEmpty);
    }
    let head = pool::leave::<Rx>(words, queues);
    pages::give_back::<L>(words, sets, head);
    Ok(0)
}
