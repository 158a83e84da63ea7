// Arriving frames, finished sends and link events.
ghost use Rattle.std.specs.Prelude.{[]};
ghost use Rattle.rules.specs.Step as rules;
ghost use Rattle.judging.specs.Frames.{frame_of};
ghost use Rattle.skarvoya.specs.Calls.{Calls};

use lent::{in_order, told};
use pages::Paged;
use state::{Answer, Refusal};

// A frame arrives: its bytes with FCS, and the flag alignment.
pub fn skarvoya_frame(
    words: &mut [u16],
    sets: &mut [u32],
    queues: &mut [u8],
    memory: &mut [u8],
    frame: &[u8],
    alignment: bool,
) -> u32
    ensures { Calls (rules.frame (frame_of frame.now alignment)) words.old sets.old queues.old memory.old result words.new sets.new queues.new memory.new [] }
{
    if !in_order(words, sets, queues, memory) {
        return told(Err(Refusal::Damaged));
    }
    told(chip::arrived_whole::<Paged>(words, sets, queues, memory, frame, alignment))
}

// The packet at the head of TX has been sent; what is put out goes to the front of the output buffer.
pub fn skarvoya_send(
    words: &mut [u16],
    sets: &mut [u32],
    queues: &mut [u8],
    memory: &mut [u8],
    output: &mut [u8],
    outcome: u8,
    collisions: u8,
    deferral: u8,
) -> u32
    ensures { Calls (rules.sent (record { outcome = outcome; collisions = collisions; deferral = deferral }) output.old) words.old sets.old queues.old memory.old result words.new sets.new queues.new memory.new output.new }
{
    if !in_order(words, sets, queues, memory) {
        return told(Err(Refusal::Damaged));
    }
    told(chip::finished_whole::<Paged>(
        words, sets, queues, memory, output, outcome, collisions, deferral,
    ))
}

// The link is set down (0) or up (1).
pub fn skarvoya_link(words: &mut [u16], sets: &[u32], queues: &[u8], memory: &[u8], up: u8) -> u32
    ensures { Calls (rules.link up) words.old sets.now queues.now memory.now result words.new sets.now queues.now memory.now [] }
{
    if !in_order(words, sets, queues, memory) {
        return told(Err(Refusal::Damaged));
    }
    told(chip::linked_whole::<Paged>(words, sets, queues, memory, up))
}
