// The bytes of a register's word that an access reads or writes.
ghost use Rattle.std.specs.Prelude.{◌≡◌};
ghost use Rattle.rules.specs.Registers as rules;
ghost use Rattle.state.specs.Meaning.{width_of, Placed, Joined, is_high};

use crate::Width;

// Refusal 1.
pub fn misplaced(width: Width, offset: u8) -> bool
    ensures { result ≡ rules.misplaced (width_of width) offset }
{
    if 15 < offset {
        return true;
    }
    match width {
        Width::Byte => false,
        Width::Word => offset % 2 == 1,
    }
}

// Is it the high byte alone that an access reaches?
pub fn is_high(width: Width, offset: u8) -> bool
    requires { Placed width offset }
    ensures { result ≡ is_high (rules.lanes_at (width_of width) offset) }
{
    offset % 2 == 1
}

// What a read gives of a register's word.
pub fn taken(width: Width, offset: u8, x: u16) -> u16
    ensures { result ≡ rules.taken (rules.lanes_at (width_of width) offset) x }
{
    match width {
        Width::Byte => {
            if offset % 2 == 1 {
                return x / 256;
            }
            x % 256
        }
        Width::Word => x,
    }
}

// A register's word x after a write.
pub fn merged(width: Width, offset: u8, value: u16, x: u16) -> u16
    ensures { Joined (rules.lanes_at (width_of width) offset) value x result }
{
    match width {
        Width::Byte => {
            if offset % 2 == 1 {
                return x % 256 + value % 256 * 256;
            }
            x / 256 * 256 + value % 256
        }
        Width::Word => value,
    }
}
