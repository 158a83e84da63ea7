// Data accesses in either layout.
ghost use Rattle.std.specs.Prelude.{◌≡◌, ◌*◌, length};
ghost use Rattle.rules.specs.Chip.{page_numbers};
ghost use Rattle.rules.specs.Data.{read_data, write_data};
ghost use Rattle.state.specs.View.{view_of};
ghost use Rattle.state.specs.Promise.{ReadyOf, MakesOf};
ghost use Rattle.data.specs.Access.{width_of, bytes_for};

use crate::{Spot, checks, reads, writes};
use pages::{Layout, Paged};
use state::Answer;

// A layout by which the bytes of a data access are found in memory.
pub trait Data: Layout {
    // A data read on a chip that is well formed.
    fn read_data(
        words: &mut [u16],
        sets: &[u32],
        queues: &[u8],
        memory: &[u8],
        wide: bool,
    ) -> Answer
        requires { ReadyOf Self.layout words.old sets.now queues.now × (length memory.now ≡ 256 * page_numbers Self.layout (length sets.now)) }
        ensures { MakesOf Self.layout (read_data (width_of wide) (view_of Self.layout words.old sets.now queues.now memory.now)) result words.new sets.now queues.now memory.now };

    // A data write on a chip that is well formed.
    fn write_data(
        words: &mut [u16],
        sets: &[u32],
        queues: &[u8],
        memory: &mut [u8],
        wide: bool,
        value: u16,
    ) -> Answer
        requires { ReadyOf Self.layout words.old sets.now queues.now × (length memory.old ≡ 256 * page_numbers Self.layout (length sets.now)) }
        ensures { MakesOf Self.layout (write_data (bytes_for wide value) (view_of Self.layout words.old sets.now queues.now memory.old)) result words.new sets.now queues.now memory.new };
}

impl Data for Paged {
    // The byte's answer is made here, for the compiler alone: see `accesses::read`.
    fn read_data(
        words: &mut [u16],
        sets: &[u32],
        queues: &[u8],
        memory: &[u8],
        wide: bool,
    ) -> Answer {
        let Spot { at, rest } = checks::gate_of(words, sets, queues, true)?;
        if !wide {
            return Ok(reads::read_byte(words, memory, at, rest));
        }
        reads::read_word(words, memory, at, rest)
    }

    fn write_data(
        words: &mut [u16],
        sets: &[u32],
        queues: &[u8],
        memory: &mut [u8],
        wide: bool,
        value: u16,
    ) -> Answer {
        let Spot { at, rest } = checks::gate_of(words, sets, queues, false)?;
        if wide {
            return writes::write_word(words, memory, at, rest, value);
        }
        writes::write_byte(words, memory, at, rest, value)
    }
}
