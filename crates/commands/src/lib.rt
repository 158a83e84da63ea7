// A write to the MMU command register, on a state that stands for a well-formed chip.
#![tactic(auto)]

mod decode; // decode.rt: the command that a value asks for
mod register; // register.rt: the commands on the packet number register
mod rx; // rx.rt: the commands on the RX head

ghost use Rattle.std.specs.Prelude.{List, ℕ, ◌≤◌, length};
ghost use Rattle.rules.specs.Chip.{Layout};
ghost use Rattle.rules.specs.Mmu as rules;
ghost use Rattle.wellformed.specs.Layouts.{GoodLists};
ghost use Rattle.state.specs.View.{view_of, figures, lists_of, Kept};
ghost use Rattle.state.specs.Promise.{QueuesIn, PagesIn, SoundOf, ReadyOf, MakesOf};
ghost use Rattle.commands.specs.Orders.{PerformsOf};

pub use decode::decoded;
use pages::Layout;
use pool::{Completion, Tx};
pub use register::named;
use register::{do_enqueue, do_release};
pub use rx::do_remove;
use rx::do_remove_and_release;
use state::{Answer, NO_PACKET, Refusal};

// The commands of the MMU command register.
#[derive(Drop)]
pub enum Order {
    Nothing,
    Allocate(u32),
    Reset,
    RemoveRx,
    RemoveAndRelease,
    Release,
    Enqueue,
    ResetTx,
    Unknown,
}

// Enough pages are free, or the request waits for them.
fn do_allocate<L: Layout>(words: &mut [u16], sets: &mut [u32], need: u32) -> Answer
    requires { (1 ≤ need) × (need ≤ 8) × Kept words.old × PagesIn L.layout (figures words.old) sets.old × GoodLists L.layout (length sets.old) (lists_of L.layout sets.old) }
    ensures { (q : List ℕ) → QueuesIn (figures words.old) q → PerformsOf L.layout (rules.allocate need) words.old sets.old q result words.new sets.new q }
{
    if need <= pages::free_count(words) {
        pages::allocate::<L>(words, sets, need);
        return Ok(0);
    }
    pages::give_result(words, NO_PACKET, need as u16);
    Ok(0)
}

fn do_reset(words: &mut [u16], sets: &mut [u32], queues: &mut [u8]) -> Answer
    requires { (l : Layout) × SoundOf l words.old sets.old queues.old }
    ensures { (l : Layout) → SoundOf l words.old sets.old queues.old → PerformsOf l rules.reset words.old sets.old queues.old result words.new sets.new queues.new }
{
    pool::reset(words, sets, queues);
    pages::give_result(words, NO_PACKET, 0);
    Ok(0)
}

pub fn do_reset_tx(words: &mut [u16], queues: &mut [u8]) -> Answer
    requires { Kept words.old × QueuesIn (figures words.old) queues.old × ((l : Layout) × (s : List ℕ) × PagesIn l (figures words.old) s) }
    ensures { (l : Layout) (s : List ℕ) → PagesIn l (figures words.old) s → PerformsOf l rules.reset_tx words.old s queues.old result words.new s queues.new }
{
    pool::empty::<Tx>(words, queues);
    pool::empty::<Completion>(words, queues);
    Ok(0)
}

// A write of the value to the MMU command register.
pub fn commanded<L: Layout>(
    words: &mut [u16],
    sets: &mut [u32],
    queues: &mut [u8],
    value: u8,
) -> Answer
    requires { ReadyOf L.layout words.old sets.old queues.old }
    ensures { (mem : List ℕ) → MakesOf L.layout (rules.command value (view_of L.layout words.old sets.old queues.old mem)) result words.new sets.new queues.new mem }
{
    let order = decoded(value);
    match order {
        Order::Nothing => Ok(0),
        Order::Allocate(need) => do_allocate::<L>(words, sets, need),
        Order::Reset => do_reset(words, sets, queues),
        Order::RemoveRx => do_remove(words, queues),
        Order::RemoveAndRelease => do_remove_and_release::<L>(words, sets, queues),
        Order::Release => do_release::<L>(words, sets),
        Order::Enqueue => do_enqueue::<L>(words, sets, queues),
        Order::ResetTx => do_reset_tx(words, queues),
        Order::Unknown => Err(Refusal::Reserved),
    }
}
