// Power-up, and the interrupt line.
ghost use Rattle.skarvoya.specs.Calls.{PowersUp, ShowsLine};

use lent::{long_as, ready, started, told};
use state::{Answer, Refusal};

// The part that a byte names, at power-up.
pub fn skarvoya_power_up(
    part: u8,
    words: &mut [u16],
    sets: &mut [u32],
    queues: &mut [u8],
    memory: &mut [u8],
) -> u32
    ensures { PowersUp part words.old sets.old queues.old memory.old result words.new sets.new queues.new memory.new }
{
    match state::part_named(part) {
        Some(known) => {
            if !long_as(known, words, sets, queues, memory) {
                return told(Err(Refusal::Damaged));
            }
            started(words, sets, queues, memory, known);
            told(Ok(0))
        }
        None => told(Err(Refusal::OutsideLimits)),
    }
}

// Is the interrupt line up? 1 or 0.
pub fn skarvoya_line(words: &[u16], sets: &[u32], queues: &[u8]) -> u32
    ensures { ShowsLine words.now sets.now queues.now result }
{
    if !ready(words, sets, queues) {
        return told(Err(Refusal::Damaged));
    }
    if interrupts::line_up(words) { 1 } else { 0 }
}
