// What tells the three queues apart: where each stands in the lent state, and what the pool has of it.
ghost use Rattle.std.specs.Prelude.{ℕ, List, Option, None, Some};
ghost use Rattle.rules.specs.Chip.{Pool};
ghost use Rattle.rules.specs.Fields.{set_rx, set_tx, set_completion};
ghost use Rattle.pool.specs.Fifos.{IsFifo, rx_laws, tx_laws, completion_laws};

use state::{COMPLETION, COMPLETION_COUNT, IN_RX, IN_TX, RX, RX_COUNT, TX, TX_COUNT};

pub trait Fifo {
    // where its slots begin
    const FROM: usize;

    // the word that counts its packets
    const COUNT: usize;

    // the first of the two words with its packets' bits; completion has none
    const BITS: Option<usize>;

    ghost FROM: { ℕ };

    ghost COUNT: { ℕ };

    ghost BITS: { Option ℕ };

    // its place among the three
    ghost place: { ℕ };

    ghost entries: { Pool → List ℕ };

    ghost set_entries: { List ℕ → Pool → Pool };

    ghost laws: { IsFifo place FROM COUNT BITS entries set_entries };
}

// The packets received that the driver has not removed.
pub struct Rx;

impl Fifo for Rx {
    const FROM: usize = RX;

    const COUNT: usize = RX_COUNT;

    const BITS: Option<usize> = Some(IN_RX);

    ghost FROM = { 0 };

    ghost COUNT = { 6 };

    ghost BITS = { Some 28 };

    ghost place = { 0 };

    ghost entries = { λ p. p.rx };

    ghost set_entries = { set_rx };

    ghost laws = { rx_laws };
}

// The packets to be sent.
pub struct Tx;

impl Fifo for Tx {
    const FROM: usize = TX;

    const COUNT: usize = TX_COUNT;

    const BITS: Option<usize> = Some(IN_TX);

    ghost FROM = { 24 };

    ghost COUNT = { 8 };

    ghost BITS = { Some 30 };

    ghost place = { 1 };

    ghost entries = { λ p. p.tx };

    ghost set_entries = { set_tx };

    ghost laws = { tx_laws };
}

// The packets sent that the driver has not acknowledged.
pub struct Completion;

impl Fifo for Completion {
    const FROM: usize = COMPLETION;

    const COUNT: usize = COMPLETION_COUNT;

    const BITS: Option<usize> = None;

    ghost FROM = { 48 };

    ghost COUNT = { 9 };

    ghost BITS = { None };

    ghost place = { 2 };

    ghost entries = { λ p. p.completion };

    ghost set_entries = { set_completion };

    ghost laws = { completion_laws };
}
