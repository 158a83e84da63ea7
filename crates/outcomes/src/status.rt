// EPHSR and TCR after a send.
ghost use Rattle.std.specs.Prelude.{◌≡◌, cond, ◌||◌, ◌+◌, ◌*◌, ◌^◌, ◌≤◌};
ghost use Rattle.rules.specs.Bits.{bit, clear_bit, flag};
ghost use Rattle.rules.specs.Send.{failure_bit, collision_bits, outcome_bits};
ghost use Rattle.outcomes.specs.Numbers.{number_of, ending_of};

use crate::event::{Ending, Outcome};
use state::flags;

// Failed 1 to 5: bit 4, 9, 10, 5, 15.
#[tactic(auto, unfolding(rules::specs::Send::failure_bit))]
fn failure(outcome: Outcome) -> u16
    ensures { (result ≡ 2 ^ failure_bit (number_of outcome)) × (result ≤ 32768) }
{
    match outcome {
        Outcome::Good => 1 << flags::TX_SUC,
        Outcome::SixteenCollisions => 1 << flags::COL16,
        Outcome::LateCollision => 1 << flags::LATCOL,
        Outcome::LostCarrier => 1 << flags::LOST_CARR,
        Outcome::SqeMissing => 1 << flags::SQET,
        Outcome::Underrun => 1 << flags::TXUNRN,
    }
}

// On failure bit 1 for one collision, 2 for more.
#[tactic(auto, unfolding(rules::specs::Send::collision_bits))]
fn collision_bits(collisions: u8) -> u16
    ensures { (result ≡ collision_bits collisions) × (result ≤ 4) }
{
    match collisions {
        0 => 0,
        1 => 1 << flags::SNGLCOL,
        _ => 1 << flags::MULCOL,
    }
}

// Good: bit 0, and bit 5 with outcome 4.
#[tactic(auto, unfolding(rules::specs::Send::outcome_bits))]
fn outcome_bits(good: bool, ending: Ending) -> u16
    ensures { (result ≡ outcome_bits good (ending_of ending)) × (result ≤ 32772) }
{
    if good {
        return (1 << flags::TX_SUC)
            + (1 << flags::SQET) * bits::flag_of(ending.outcome == Outcome::SqeMissing);
    }
    failure(ending.outcome) + collision_bits(ending.collisions)
}

// Bit 12 stays set, and is set where a nibble of ECR is at 15.
fn roll_over(ephsr: u16, full: bool) -> bool
    ensures { result ≡ bit 12 ephsr || full }
{
    bits::is_set(ephsr, flags::CTR_ROL) || full
}

// `address` is the bit of the address's kind, and `full` says that a nibble of ECR is at 15.
pub fn new_ephsr(good: bool, ending: Ending, address: u16, ephsr: u16, full: bool) -> u16
    requires { address ≤ 64 }
    ensures { result ≡ outcome_bits good (ending_of ending) + address + 2 ^ 12 * flag (bit 12 ephsr || full) }
{
    outcome_bits(good, ending)
        + address
        + (1 << flags::CTR_ROL) * bits::flag_of(roll_over(ephsr, full))
}

// A failure clears TXENA.
pub fn new_tcr(good: bool, tcr: u16) -> u16
    ensures { result ≡ cond good tcr (clear_bit 0 tcr) }
{
    if good {
        return tcr;
    }
    bits::with_clear(tcr, flags::TXENA)
}
