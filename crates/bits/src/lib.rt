// The bits and bytes of registers: each contract is an equation with a definition of `rules`.
// Callers give a constant k, and the compiler inlines these across crates: then a bit is one `test` (or a shift and an `and`),
// a bit set or cleared one `or` or `and` with a constant, a byte one shift, a word one shift and one `or`.
#![tactic(auto)]

ghost use Rattle.std.specs.Prelude.{◌≡◌, ◌&&◌, ◌||◌, ◌<◌};
ghost use Rattle.rules.specs.Bits.{bit, set_bit, clear_bit, flag, low_byte, high_byte, word_of};

// Is bit k of a register set?
#[tactic(auto, unfolding(rules::specs::Bits::bit))]
pub fn is_set(x: u16, k: u16) -> bool
    requires { k < 16 }
    ensures { result ≡ bit k x }
{
    (x >> k) % 2 == 1
}

// Is bit k of a byte set? Apart from `is_set`: one function over `T: Into<u64>` would promise `bit k` of what x converts to, and not of x.
#[tactic(auto, unfolding(rules::specs::Bits::bit))]
pub fn byte_is_set(x: u8, k: u8) -> bool
    requires { k < 8 }
    ensures { result ≡ bit k x }
{
    (x >> k) % 2 == 1
}

// Bit 0 of a length or a count.
#[tactic(auto, using(crate::specs::Laws::bit_zero))]
pub fn is_odd(n: usize) -> bool
    ensures { result ≡ bit 0 n }
{
    n % 2 == 1
}

// A register with bit k cleared.
#[tactic(auto, using(crate::proofs::Masks::cleared))]
pub fn with_clear(x: u16, k: u16) -> u16
    requires { k < 16 }
    ensures { result ≡ clear_bit k x }
{
    x & !(1 << k)
}

// A register with bit k set.
#[tactic(auto, using(crate::proofs::Masks::filled))]
pub fn with_set(x: u16, k: u16) -> u16
    requires { k < 16 }
    ensures { result ≡ set_bit k x }
{
    x | (1 << k)
}

// 1 where the test holds, else 0.
#[tactic(auto, unfolding(rules::specs::Bits::flag))]
pub fn flag_of(b: bool) -> u16
    ensures { (result ≡ flag b) × (result < 2) }
{
    u16::from(b)
}

// The two bytes of a word, and the word of two bytes.
#[tactic(auto, unfolding(rules::specs::Bits::low_byte))]
pub fn low_byte(x: u16) -> u8
    ensures { result ≡ low_byte x }
{
    x.to_le_bytes()[0]
}

#[tactic(auto, unfolding(rules::specs::Bits::high_byte))]
pub fn high_byte(x: u16) -> u8
    ensures { result ≡ high_byte x }
{
    x.to_le_bytes()[1]
}

#[tactic(auto, unfolding(rules::specs::Bits::word_of))]
pub fn word(low: u8, high: u8) -> u16
    ensures { result ≡ word_of low high }
{
    u16::from_le_bytes([low, high])
}

// Two tests, both or either: without a branch where they are compiled.
pub fn both(a: bool, b: bool) -> bool
    ensures { result ≡ a && b }
{
    a & b
}

pub fn either(a: bool, b: bool) -> bool
    ensures { result ≡ a || b }
{
    a | b
}
