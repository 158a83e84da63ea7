// Queues of packet numbers in a lent part of bytes, the head first; bytes behind the last entry are 0. The count is a word of another lent part, as C lends both
// (include/skarvoya.h), and so is passed beside them.
// Each contract says what becomes of the bytes; `specs/Parts` what that is of the entries.
#![tactic(auto)]

pub mod marks; // marks.rt: the packets of a queue as bits

ghost use Rattle.std.specs.Prelude.{◌≡◌, ◌∷◌, ◌++◌, ◌-◌, ◌≤◌, ◌<◌, drop, get_or, length, replicate, set, take};

use sets::Packet;

// The head.
pub fn head(slots: &[u8]) -> Packet
    requires { 0 < length slots.now }
    ensures { result.0 ≡ get_or slots.now 0 0 }
{
    Packet(slots[0])
}

// One more entry, at the end.
pub fn push(slots: &mut [u8], count: u16, packet: Packet)
    requires { count < length slots.old }
    ensures { slots.new ≡ set slots.old count packet.0 }
{
    slots[count as usize] = packet.0;
}

// The entries move up by one, past a 0 that goes down to the end. (A plain copy the compiler would turn into `memmove`, which a monitor may not have.)
pub fn pop(slots: &mut [u8], count: u16)
    requires { (0 < count) × (count ≤ length slots.old) }
    ensures { slots.new ≡ take (count - 1) (drop 1 slots.old) ++ (0 ∷ drop count slots.old) }
{
    let last = count as usize - 1;
    slots[0] = 0;
    for i in 0..last {
        slots[i] = slots[i + 1];
        slots[i + 1] = 0;
    }
}

// No entry is left. (`fill` stores the last byte apart: where the length is not known that takes a frame of its own, and a reset's stack is deeper.)
pub fn empty(slots: &mut [u8])
    ensures { slots.new ≡ replicate (length slots.old) 0 }
{
    for slot in slots.iter_mut() {
        *slot = 0;
    }
}
