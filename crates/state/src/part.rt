// The two parts, known by their number of packets, which is that of their pages (document 02, W9).
ghost use Rattle.std.specs.Prelude.{◌≡◌, length};
ghost use Rattle.rules.specs.Parts.{IsPart, part_named};
ghost use Rattle.lists.specs.Facts.{Decides};
ghost use Rattle.state.specs.Meaning.{packets_of, packets_named};
ghost use Rattle.state.specs.Entry.{size_in};

use crate::places::MIR;

#[derive(Clone, Copy, PartialEq, Eq)]
pub enum Part {
    Lan91c94,
    Lan91c96,
}

// How many packets the part has.
pub fn packets_of(part: Part) -> usize
    ensures { result ≡ packets_of part }
{
    match part {
        Part::Lan91c94 => 18,
        Part::Lan91c96 => 24,
    }
}

// The part that 94h or 96h names.
pub fn part_named(byte: u8) -> Option<Part>
    ensures { packets_named result ≡ part_named byte }
{
    match byte {
        0x94 => Some(Part::Lan91c94),
        0x96 => Some(Part::Lan91c96),
        _ => None,
    }
}

// How many packets a record has, by its words: MIR's low byte, whatever it is.
pub fn size_in(words: &[u16]) -> usize
    requires { length words.now ≡ 32 }
    ensures { result ≡ size_in words.now }
{
    (words[MIR] % 256) as usize
}

// Has a part so many?
pub fn is_part(size: usize) -> bool
    ensures { Decides result (IsPart size) }
{
    matches!(size, 18 | 24)
}
