// What a send puts out: the packet's data, padded, and its frame check sequence (document 02, W4).
ghost use Rattle.std.specs.Prelude.{◌≡◌, ◌*◌, ◌≤◌, ltb, length};
ghost use Rattle.rules.specs.Send.{put_out};
ghost use Rattle.on_wire.specs.PutsOut.{PutsOut};

use sets::Address;
use state::PAGE_BYTES;
use stores::Store;

// A byte count under this is refused with 18: status, count, a destination address, and two bytes behind the data.
pub const LEAST_COUNT: u16 = 12;

// Is the byte count past the pages: refusal 19.
pub fn is_past(count: u16, pages: u32) -> bool
    requires { pages ≤ 8 }
    ensures { result ≡ ltb (256 * pages) count }
{
    PAGE_BYTES * pages < count as u32
}

// Puts the data out, padded and with its FCS, and says how long it is. The packet's last byte, the control byte, tells whether the data is odd, and asks for an FCS.
pub fn put_out<L: Store>(memory: &[u8], home: L::Home, tcr: u16, count: u16, out: &mut [u8]) -> u16
    requires { (12 ≤ count) × (count ≤ 2048) × (2052 ≤ length out.old) × L.Fits home memory.now × (count ≤ 256 * length (L.pages_in home)) }
    ensures { PutsOut (put_out tcr count (L.pages_in home) memory.now) out.old out.new result }
{
    let control = L::read_byte(memory, home, Address(count - 1));
    let len = on_wire::send_length(count, control);
    L::copy_out(memory, home, len, out);
    on_wire::end_out(tcr, control, len, out)
}
