// A part at power-up in what was lent.
ghost use Rattle.std.specs.Prelude.{◌*◌, ◌≤◌, length};
ghost use Rattle.state.specs.Meaning.{packets_of};
ghost use Rattle.lent.specs.Lent.{Sized, StartsPart};

use state::Part;

// A part at power-up, whatever record and memory were before; bytes behind its own stay.
pub fn started(
    words: &mut [u16],
    sets: &mut [u32],
    queues: &mut [u8],
    memory: &mut [u8],
    part: Part,
)
    requires { Sized words.old sets.old queues.old × (256 * packets_of part ≤ length memory.old) }
    ensures { StartsPart (packets_of part) memory.old words.new sets.new queues.new memory.new }
{
    let n = 256 * state::packets_of(part);
    chip::powered(words, sets, queues, part);
    memory[..n].fill(0);
}
