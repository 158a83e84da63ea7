// Power-up, and the interrupt line.
ghost use Rattle.std.specs.Prelude.{◌≡◌, length, Ok};
ghost use Rattle.rules.specs.Chip.{Layout};
ghost use Rattle.state.specs.Meaning.{packets_of};
ghost use Rattle.state.specs.Entry.{StartedOf, StartedBy, LinesBy};

use crate::Chip;
use state::{Pages, Part, Queues, Registers, Returned};

// The record of a part at power-up, of either layout, whatever was in its places; those of no packet are 0.
pub fn powered(words: &mut [u16], sets: &mut [u32], queues: &mut [u8], part: Part)
    requires { (length words.old ≡ 32) × (length sets.old ≡ 24) × (length queues.old ≡ 72) }
    ensures { (l : Layout) → StartedOf l (packets_of part) (Ok 0) words.new sets.new queues.new }
{
    let n = state::packets_of(part);
    reset::zeroed(words);
    reset::reset_words(words);
    sets::cleared(sets);
    pool::reset(words, &mut sets[..n], queues);
}

// Registers, pages and queues of a part at power-up; the memory beside them is zero bytes: 256 for each of its pages, of strips 2,048 for each of its packets.
pub fn power_up(part: Part) -> Returned
    ensures { (l : Layout) → StartedBy l (packets_of part) result }
{
    let mut words = [0; 32];
    let mut sets = [0; 24];
    let mut slots = [0; 72];
    powered(&mut words, &mut sets, &mut slots, part);
    let answer = Ok(0);
    let registers = Registers { words };
    let pages = Pages { sets };
    let queues = Queues { slots };
    Returned {
        answer,
        registers,
        pages,
        queues,
    }
}

// Is the interrupt line up? That of a record that is not in order is down.
pub fn line<L: Chip>(r: Registers, p: Pages, q: Queues) -> bool
    ensures { LinesBy L.layout r p q result }
{
    let words = r.words;
    let sets = p.sets;
    let slots = q.slots;
    if !L::well_formed(&words, &sets, &slots) {
        return false;
    }
    interrupts::line_up(&words)
}
