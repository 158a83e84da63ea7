// A byte or a word at an address of a packet.
ghost use Rattle.std.specs.Prelude.{◌≡◌, [], ◌∷◌, ◌+◌, ◌-◌, ◌*◌, ◌%◌, ◌≤◌, ◌<◌, length};
ghost use Rattle.std.proofs.lemmas.List.Edits.{sets};
ghost use Rattle.rules.specs.Bits.{low_byte, high_byte};
ghost use Rattle.rules.specs.Packet.{place, get_bytes, put_bytes};
ghost use Rattle.rules.specs.Data.{value_of};
ghost use Rattle.sets.specs.Views.{pages_of};
ghost use Rattle.packet.specs.Room.{Room, InPage};

use sets::Address;

// Where in memory the address lies, where its page is the first of those that are left; the rest of this page is in memory too.
pub fn place_in(rest: u32, at: Address) -> usize
    requires { 0 < length (pages_of rest) }
    ensures { (result ≡ place (pages_of rest) (at.0 % 256)) × InPage result (pages_of rest) at.0 }
{
    sets::lowest_page(rest).0 as usize * 256 + at.0 as usize % 256
}

// The same with all pages of the packet.
pub fn place_of(pages: u32, at: Address) -> usize
    requires { at.0 < 256 * length (pages_of pages) }
    ensures { (result ≡ place (pages_of pages) at.0) × InPage result (pages_of pages) at.0 }
{
    sets::nth_page(pages, at.0 as u32 / 256).0 as usize * 256 + at.0 as usize % 256
}

pub fn read_byte(memory: &[u8], pages: u32, at: Address) -> u8
    requires { Room (at.0 + 1) pages memory.now }
    ensures { result ≡ value_of (get_bytes 1 at.0 (pages_of pages) memory.now) }
{
    let i = place_of(pages, at);
    memory[i]
}

// A word takes two bytes, lower first: adjacent ones, but for the last byte of a page.
pub fn read_word(memory: &[u8], pages: u32, at: Address) -> u16
    requires { Room (at.0 + 2) pages memory.now }
    ensures { result ≡ value_of (get_bytes 2 at.0 (pages_of pages) memory.now) }
{
    let i = place_of(pages, at);
    if at.0 % 256 == 255 {
        return bits::word(memory[i], read_byte(memory, pages, Address(at.0 + 1)));
    }
    bits::word(memory[i], memory[i + 1])
}

// Two adjacent bytes, which the compiler writes in one move.
pub fn put_word(memory: &mut [u8], i: usize, value: u16)
    requires { i + 2 ≤ length memory.old }
    ensures { memory.new ≡ sets memory.old i (low_byte value ∷ high_byte value ∷ []) }
{
    memory[i] = bits::low_byte(value);
    memory[i + 1] = bits::high_byte(value);
}

// The status word stands at addresses 0 and 1.
pub fn write_status(memory: &mut [u8], pages: u32, status: u16)
    requires { Room 2 pages memory.old }
    ensures { memory.new ≡ put_bytes (low_byte status ∷ high_byte status ∷ []) 0 (pages_of pages) memory.old }
{
    put_word(memory, place_in(pages, Address(0)), status);
}
