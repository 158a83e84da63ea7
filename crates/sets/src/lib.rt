// Who has which page: a packet's pages as one number, bit p for page p.
#![tactic(auto)]

mod map; // map.rt: for each packet number its pages
mod set; // set.rt: one packet's pages

pub use map::{audit, cleared, granted, lowest_unallocated, released, set_of};
pub use set::{has_pages, lowest_page, nth_page, page_count, without};

// A packet number is never a page number, nor is either an address within a packet: `released(sets, Page(3))` is a type error.
#[derive(Clone, Copy, PartialEq, Eq)]
pub struct Packet(pub u8);

#[derive(Clone, Copy, PartialEq, Eq)]
pub struct Page(pub u8);

#[derive(Clone, Copy, PartialEq, Eq)]
pub struct Address(pub u16);
