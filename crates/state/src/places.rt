// Where in the lent state things stand.
// A register's word stands at bank * 8 + offset / 2, as a word read gives it. What no word read gives (the queues' counts and bits, latches, the link, the allocation that waits) stands at places of no register.
pub const TCR: usize = 0;

pub const EPHSR: usize = 1;

pub const RCR: usize = 2;

pub const ECR: usize = 3;

// how many pages and packets the part has, which names it; how many pages are free in the high byte
pub const MIR: usize = 4;

// pages reserved for transmit; 33h in the high byte
pub const RESERVED: usize = 5;

// how many packets RX has
pub const RX_COUNT: usize = 6;

// the bank; 33h in the high byte
pub const BANK: usize = 7;

// how many packets TX has
pub const TX_COUNT: usize = 8;

// how many packets completion has
pub const COMPLETION_COUNT: usize = 9;

// three words: the station address
pub const STATION: usize = 10;

pub const STATION_1: usize = 11;

pub const STATION_2: usize = 12;

// TX EMPTY and RX_OVRN, at their places in interrupt status
pub const LATCHES: usize = 13;

pub const CONTROL: usize = 14;

// the link, in bit 0, and in bit 1 that a change of it was seen
pub const LINK: usize = 15;

// the MMU command, which reads 0
pub const COMMAND: usize = 16;

// the packet number; the allocation result in the high byte
pub const PACKET: usize = 17;

// the heads of completion and of RX, found for each read: the word itself is 0
pub const HEADS: usize = 18;

pub const POINTER: usize = 19;

// the mask, in the high byte; interrupt status is found for each read: the low byte itself is 0
pub const INTERRUPT: usize = 22;

// how many pages an allocation waits for, 0 where none waits
pub const WAITING: usize = 23;

// four words: the multicast table
pub const TABLE: usize = 24;

pub const TABLE_1: usize = 25;

pub const TABLE_2: usize = 26;

pub const TABLE_3: usize = 27;

// two words: which packets are in RX, bit k for packet k, the lower 16 bits first
pub const IN_RX: usize = 28;

pub const IN_RX_HIGH: usize = 29;

// two words: which packets are in TX
pub const IN_TX: usize = 30;

pub const IN_TX_HIGH: usize = 31;

// Where the queues stand in their 72 bytes.
pub const RX: usize = 0;

pub const TX: usize = 24;

pub const COMPLETION: usize = 48;

pub const QUEUES_END: usize = 72;
