// The bits that the rules name, by the names of the data sheet (document 003): each is the bit's place in its word, or in its byte where it is a u8.
// Transmit control, TCR.
pub const TXENA: u16 = 0;

pub const PAD_EN: u16 = 7;

pub const NOCRC: u16 = 8;

pub const MON_CSN: u16 = 10;

pub const STP_SQET: u16 = 12;

pub const FDSE: u16 = 15;

// The status of the last send, EPHSR.
pub const TX_SUC: u16 = 0;

pub const SNGLCOL: u16 = 1;

pub const MULCOL: u16 = 2;

pub const LTX_MULT: u16 = 3;

// the sheet's 16COL
pub const COL16: u16 = 4;

pub const SQET: u16 = 5;

pub const LTX_BRD: u16 = 6;

pub const LATCOL: u16 = 9;

pub const LOST_CARR: u16 = 10;

pub const CTR_ROL: u16 = 12;

pub const TXUNRN: u16 = 15;

// Receive control, RCR.
pub const RX_ABORT: u16 = 0;

pub const PRMS: u16 = 1;

pub const ALMUL: u16 = 2;

pub const RXEN: u16 = 8;

pub const STRIP_CRC: u16 = 9;

pub const SOFT_RST: u16 = 15;

// Control.
pub const TE_ENABLE: u16 = 5;

pub const CR_ENABLE: u16 = 6;

pub const LE_ENABLE: u16 = 7;

pub const AUTO_RELEASE: u16 = 11;

pub const RCV_BAD: u16 = 14;

// The link's word: a change of it was seen. (`link.rt` has the link itself, and EPHSR's LINK_OK, which shows it.)
pub const LINK_CHANGED: u16 = 1;

// The allocation result's bit 7, FAILED, where it stands in the word: above the packet number.
pub const ALLOCATION_FAILED: u16 = 15;

// The pointer.
pub const READ: u16 = 13;

pub const AUTO_INCR: u16 = 14;

pub const RCV: u16 = 15;

// Interrupt status, and its acknowledge; the latches stand at the same places.
pub const RCV_INT: u16 = 0;

pub const TX_INT: u16 = 1;

pub const TX_EMPTY: u16 = 2;

pub const ALLOC_INT: u16 = 3;

pub const RX_OVRN: u16 = 4;

pub const EPH_INT: u16 = 5;

// The status word of a frame in memory.
pub const MULTCAST: u16 = 0;

pub const TOOSHORT: u16 = 10;

pub const TOOLNG: u16 = 11;

pub const ODDFRM: u16 = 12;

pub const BADCRC: u16 = 13;

pub const BROADCAST: u16 = 14;

pub const ALGNERR: u16 = 15;

// The control byte, last of a packet's bytes.
pub const CRC: u8 = 4;

pub const ODD: u8 = 5;

// The first byte of an address: a group's has its first bit on the wire set.
pub const GROUP: u8 = 0;
