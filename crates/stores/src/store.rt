// What a layout does with the bytes of a packet.
ghost use Rattle.std.specs.Prelude.{◌≡◌, List, [], ◌∷◌, ℕ, ◌+◌, ◌*◌, ◌≤◌, length, get_or};
ghost use Rattle.rules.specs.Bits.{low_byte, high_byte};
ghost use Rattle.rules.specs.Chip.{page_numbers};
ghost use Rattle.rules.specs.Answers.{over};
ghost use Rattle.rules.specs.Packet.{get_bytes, put_bytes};
ghost use Rattle.rules.specs.Data.{value_of};
ghost use Rattle.rules.specs.Receive.{count_of};
ghost use Rattle.wellformed.specs.Layouts.{GoodLists};
ghost use Rattle.packet.specs.Room.{image_of};
ghost use Rattle.state.specs.View.{lists_of};

use pages::Layout;
use sets::{Address, Packet};

// A packet's home says where its bytes lie: small, and handed on by value.
pub trait Store: Layout {
    type Home: Copy;

    // The packet's pages, in the order of its addresses.
    ghost pages_in: { Self.Home → List ℕ };

    // Memory has those pages.
    ghost Fits: { Self.Home → List ℕ → Type 0 };

    // Where the packet lies, by the sets as they are.
    fn home(sets: &[u32], packet: Packet) -> Self::Home
        ensures pages { pages_in result ≡ get_or (lists_of Self.layout sets.now) packet.0 [] }
        ensures fits { (memory : List ℕ) → GoodLists Self.layout (length sets.now) (lists_of Self.layout sets.now) → length memory ≡ 256 * page_numbers Self.layout (length sets.now) → Fits result memory };

    fn page_count(home: Self::Home) -> u32
        ensures { result ≡ length (pages_in home) };

    fn read_byte(memory: &[u8], home: Self::Home, at: Address) -> u8
        requires { Fits home memory.now × (at.0 + 1 ≤ 256 * length (pages_in home)) }
        ensures { result ≡ value_of (get_bytes 1 at.0 (pages_in home) memory.now) };

    // A word is two bytes, lower first.
    fn read_word(memory: &[u8], home: Self::Home, at: Address) -> u16
        requires { Fits home memory.now × (at.0 + 2 ≤ 256 * length (pages_in home)) }
        ensures { result ≡ value_of (get_bytes 2 at.0 (pages_in home) memory.now) };

    // The packet's data, from address 4 on, over the front of the buffer.
    fn copy_out(memory: &[u8], home: Self::Home, len: usize, out: &mut [u8])
        requires { (len ≤ length out.old) × Fits home memory.now × (len + 4 ≤ 256 * length (pages_in home)) }
        ensures { out.new ≡ over (get_bytes len 4 (pages_in home) memory.now) out.old };

    // The status word stands at addresses 0 and 1.
    fn write_status(memory: &mut [u8], home: Self::Home, status: u16)
        requires { Fits home memory.old × (2 ≤ 256 * length (pages_in home)) }
        ensures { memory.new ≡ put_bytes (low_byte status ∷ high_byte status ∷ []) 0 (pages_in home) memory.old };

    // Status, byte count, n bytes of the frame, and what follows them, from address 0 on. All other bytes stay.
    fn store_frame(
        memory: &mut [u8],
        home: Self::Home,
        status: u16,
        count: u16,
        frame: &[u8],
        n: usize,
    )
        requires { (n ≤ length frame.now) × Fits home memory.old × (count_of n ≤ 256 * length (pages_in home)) }
        ensures { memory.new ≡ put_bytes (image_of status count n frame.now) 0 (pages_in home) memory.old };

    // Whatever the bytes are: memory of that length has room.
    ghost fits_as: { (home : Self.Home) (m after : List ℕ) → length after ≡ length m → Fits home m → Fits home after };
}
