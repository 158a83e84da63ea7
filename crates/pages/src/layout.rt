// How a chip lays its packets' pages out, and the chip of pages.
ghost use Rattle.std.specs.Prelude.{◌≡◌, [], ◌≤◌, ◌<◌, length, get_or, take, set};
ghost use Rattle.rules.specs.Lists.{some?, first_empty};
ghost use Rattle.rules.specs.Chip.{paged, free_for};
ghost use Rattle.rules.specs.Chip as rules;
ghost use Rattle.wellformed.specs.Layouts.{GoodLists};
ghost use Rattle.state.specs.View.{figures, lists_of, Kept};
ghost use Rattle.state.specs.Promise.{PagesIn};
ghost use Rattle.pages.specs.Pages.{RepagesOf};

use crate::pages;
use sets::Packet;

// A number for each packet says which pages it has, as the layout reads it.
pub trait Layout {
    ghost layout: { rules.Layout };

    // The lowest number with no pages.
    fn lowest_unallocated(sets: &[u32]) -> Packet
        requires { length sets.now ≤ 24 }
        ensures { result.0 ≡ first_empty (lists_of layout sets.now) };

    // Has the packet pages?
    fn is_allocated(sets: &[u32], packet: Packet) -> bool
        ensures { result ≡ some? (get_or (lists_of layout sets.now) packet.0 []) };

    // The packet, the lowest unallocated, gets `need` pages: as many fewer are free.
    fn grant(words: &mut [u16], sets: &mut [u32], packet: Packet, need: u32)
        requires { Kept words.old × PagesIn layout (figures words.old) sets.old × GoodLists layout (length sets.old) (lists_of layout sets.old) × (packet.0 ≡ first_empty (lists_of layout sets.old)) × (1 ≤ need) × (need ≤ 8) × (need ≤ length (free_for layout (lists_of layout sets.old))) }
        ensures { RepagesOf layout (λ ls. set ls packet.0 (take need (free_for layout ls))) words.old sets.old words.new sets.new };

    // The packet's pages are free again.
    fn make_free(words: &mut [u16], sets: &mut [u32], packet: Packet)
        requires { Kept words.old × PagesIn layout (figures words.old) sets.old × GoodLists layout (length sets.old) (lists_of layout sets.old) × (packet.0 < length sets.old) }
        ensures { RepagesOf layout (λ ls. set ls packet.0 []) words.old sets.old words.new sets.new };
}

// The chip of pages: any page of memory may be any packet's.
pub struct Paged;

impl Layout for Paged {
    ghost layout = { paged };

    fn lowest_unallocated(sets: &[u32]) -> Packet {
        Packet(sets::lowest_unallocated(sets) as u8)
    }

    fn is_allocated(sets: &[u32], packet: Packet) -> bool {
        sets::has_pages(sets::set_of(sets, packet))
    }

    fn grant(words: &mut [u16], sets: &mut [u32], packet: Packet, need: u32) {
        pages::grant(words, sets, packet, need);
    }

    fn make_free(words: &mut [u16], sets: &mut [u32], packet: Packet) {
        pages::make_free(words, sets, packet);
    }
}
