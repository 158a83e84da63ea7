// Bit 6 for a broadcast, else 3 for a group address: the packet's bytes 4 to 9.
ghost use Rattle.std.specs.Prelude.{◌≡◌, ◌*◌, ◌≤◌, length};
ghost use Rattle.rules.specs.Packet.{get_bytes};
ghost use Rattle.rules.specs.Receive.{broadcast};
ghost use Rattle.rules.specs.Send.{address_bits};

use sets::Address;
use state::flags;
use stores::Store;

// Is each byte FFh?
fn is_broadcast<L: Store>(memory: &[u8], home: L::Home) -> bool
    requires { L.Fits home memory.now × (10 ≤ 256 * length (L.pages_in home)) }
    ensures { result ≡ broadcast (get_bytes 6 4 (L.pages_in home) memory.now) }
{
    (4..10).all(|at| L::read_byte(memory, home, Address(at)) == 0xff)
}

pub fn address_bits<L: Store>(memory: &[u8], home: L::Home) -> u16
    requires { L.Fits home memory.now × (10 ≤ 256 * length (L.pages_in home)) }
    ensures { (result ≡ address_bits (get_bytes 6 4 (L.pages_in home) memory.now)) × (result ≤ 64) }
{
    if is_broadcast::<L>(memory, home) {
        return 1 << flags::LTX_BRD;
    }
    let first = L::read_byte(memory, home, Address(4));
    (1 << flags::LTX_MULT) * bits::flag_of(bits::byte_is_set(first, flags::GROUP))
}
