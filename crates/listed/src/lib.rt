// The record of page lists, as the chip's code had it before page sets: declarations alone. `specs/` has what it stood for, what a step on it promised,
// and that the lent state describes the same chip. It has places for 24 packets, and says how many its part has (document 02, W9).
#![tactic(auto)]

pub use sets::{Packet, Page};
use state::Answer;

// Packet numbers, the head at 0; slots from count on are Packet(0).
#[derive(Drop)]
pub struct Queue {
    pub count: u8,
    pub slots: [Packet; 24],
}

// How many packets the part has, 18 or 24; document 01's registers by bank, the two latches, the link and its change, and the three FIFOs.
#[derive(Drop)]
pub struct Registers {
    pub packets: u8,
    pub tcr: u16,
    pub ephsr: u16,
    pub rcr: u16,
    pub ecr: u16,
    pub reserved: u8,
    pub station: [u8; 6],
    pub control: u16,
    pub packet: u8,
    pub result: u8,
    pub waiting: u16,
    pub pointer: u16,
    pub mask: u8,
    pub table: [u8; 8],
    pub bank: u8,
    pub txempty: bool,
    pub overrun: bool,
    pub up: bool,
    pub changed: bool,
    pub rx: Queue,
    pub tx: Queue,
    pub done: Queue,
}

// What a step returned: the pages of packet k stood in row k, 255 in each place that was left, and in every place of a row of no packet of the part.
#[derive(Drop)]
pub struct Stepped {
    pub answer: Answer,
    pub registers: Registers,
    pub pages: [[Page; 8]; 24],
}
