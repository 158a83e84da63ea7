// The nibbles of ECR.
ghost use Rattle.std.specs.Prelude.{◌≡◌, ◌≤◌};
ghost use Rattle.rules.specs.Send as rules;
ghost use Rattle.outcomes.specs.Numbers.{ending_of, tally_of, Small};

use crate::Tally;
use crate::event::Ending;

// A nibble stops at this count.
const FULL: u16 = 15;

// The nibble after a send that counts in it, or does not.
#[tactic(auto, unfolding(rules::specs::Send::counted))]
pub fn counted(on: bool, x: u16) -> u16
    requires { x ≤ 15 }
    ensures { (result ≡ rules.counted on x) × (result ≤ 15) }
{
    if on && x < FULL { x + 1 } else { x }
}

// A failed send after one collision counts in neither nibble of collisions.
#[tactic(auto, unfolding(rules::specs::Send::tally, rules::specs::Send::nibble))]
pub fn tallied(good: bool, ending: Ending, ecr: u16) -> Tally
    ensures { (tally_of result ≡ rules.tally good (ending_of ending) ecr) × Small result }
{
    Tally {
        single: counted(good && ending.collisions == 1, ecr % 16),
        several: counted(2 <= ending.collisions, ecr / 16 % 16),
        deferred: counted(ending.deferral == 1, ecr / 256 % 16),
        excessive: counted(ending.deferral == 2, ecr / 4096 % 16),
    }
}

// The nibbles as the register has them.
#[tactic(auto, unfolding(rules::specs::Send::nibbles))]
pub fn new_ecr(t: Tally) -> u16
    requires { Small t }
    ensures { result ≡ rules.nibbles (tally_of t) }
{
    t.single + 16 * t.several + 256 * t.deferred + 4096 * t.excessive
}

// Is any full?
#[tactic(auto, unfolding(rules::specs::Send::any_at15))]
pub fn any_full(t: Tally) -> bool
    ensures { result ≡ rules.any_at15 (tally_of t) }
{
    t.single == FULL || t.several == FULL || t.deferred == FULL || t.excessive == FULL
}
