// How a send ended: is the input within its limits, and was the send good?
ghost use Rattle.std.specs.Prelude.{◌≡◌, ◌≤◌, ◌<◌, MatchResult};
ghost use Rattle.rules.specs.Send.{in_limits, good};
ghost use Rattle.outcomes.specs.Numbers.{send_of, number_of, ending_of};

use crate::Send;
use state::flags;

// The outcomes, in the order in which the input numbers them.
#[derive(Clone, Copy, PartialEq, Eq)]
pub enum Outcome {
    Good,
    SixteenCollisions,
    LateCollision,
    LostCarrier,
    SqeMissing,
    Underrun,
}

impl TryFrom<u8> for Outcome {
    type Error = ();

    ghost try_from_gives = { λ n r. MatchResult r (λ o. number_of o ≡ n) (λ _. 5 < n) };

    fn try_from(number: u8) -> Result<Outcome, ()> {
        match number {
            0 => Ok(Outcome::Good),
            1 => Ok(Outcome::SixteenCollisions),
            2 => Ok(Outcome::LateCollision),
            3 => Ok(Outcome::LostCarrier),
            4 => Ok(Outcome::SqeMissing),
            5 => Ok(Outcome::Underrun),
            _ => Err(()),
        }
    }
}

// How a send ended, where its outcome is one of the six; its deferral is any number, since `after_send` asks nothing of it.
#[derive(Clone, Copy)]
pub struct Ending {
    pub outcome: Outcome,
    pub collisions: u8,
    pub deferral: u8,
}

impl Ending {
    pub fn of(s: Send) -> Ending
        requires { s.outcome ≤ 5 }
        ensures { ending_of result ≡ send_of s }
    {
        Ending {
            outcome: Outcome::try_from(s.outcome).unwrap(),
            collisions: s.collisions,
            deferral: s.deferral,
        }
    }
}

// Refusal 11 where not. Sixteen collisions are that outcome, and no other.
#[tactic(auto, unfolding(rules::specs::Send::in_limits))]
pub fn is_within(s: Send) -> bool
    ensures { result ≡ in_limits (send_of s) }
{
    if s.deferral > 2 {
        return false;
    }
    match Outcome::try_from(s.outcome) {
        Ok(Outcome::SixteenCollisions) => s.collisions == 16,
        Ok(_) => s.collisions <= 15,
        Err(()) => false,
    }
}

// Lost carrier is good unless MON_CSN is set and FDSE clear; a missing SQE is good unless STP_SQET is set.
#[tactic(auto, unfolding(rules::specs::Send::good))]
pub fn is_good(tcr: u16, outcome: u8) -> bool
    ensures { result ≡ good tcr outcome }
{
    match Outcome::try_from(outcome) {
        Ok(Outcome::Good) => true,
        Ok(Outcome::LostCarrier) => {
            !bits::is_set(tcr, flags::MON_CSN) || bits::is_set(tcr, flags::FDSE)
        }
        Ok(Outcome::SqeMissing) => !bits::is_set(tcr, flags::STP_SQET),
        _ => false,
    }
}
