// The registers: numbers in range, and fixed what no register has.
ghost use Rattle.std.specs.Prelude.{◌≡◌, ◌⊎◌, ◌/◌, ◌%◌, ◌<◌, length};
ghost use Rattle.rules.specs.WellFormed.{GoodNumbers};
ghost use Rattle.lists.specs.Facts.{Decides};
ghost use Rattle.state.specs.View.{registers_in, Latches, Fixed, BlankIn, Kept};
ghost use Rattle.state.specs.WellFormed.{RequestFormed};

use state::{BANK, INTERRUPT, LATCHES, LINK, PACKET, RESERVED};

// Packet number and allocation result, of a part with so many packets.
fn packet_good(packet: u16, size: usize) -> bool
    ensures { Decides result ((packet % 256 < 64) × ((packet / 256 < size) ⊎ (packet / 256 ≡ 0x80))) }
{
    let allocated = packet / 256;
    packet % 256 < 64 && ((allocated as usize) < size || allocated == 0x80)
}

// No bit but TX EMPTY and RX_OVRN.
fn latches_good(x: u16) -> bool
    ensures { Decides result (Latches x) }
{
    matches!(x, 0 | 4 | 16 | 20)
}

fn fixed_good(bank: u16, reserved: u16, latches: u16, link: u16, mask: u16) -> bool
    ensures { Decides result (Fixed bank reserved latches link mask) }
{
    bank / 8 == 0x660
        && reserved / 256 == 0x33
        && mask % 256 == 0
        && link < 4 // no bit but the link and its change
        && latches_good(latches)
}

// The words that hold nothing are 0.
fn blanks_good(words: &[u16]) -> bool
    requires { length words.now ≡ 32 }
    ensures { Decides result (BlankIn words.now) }
{
    (words[16] | words[18] | words[20] | words[21]) == 0
}

// An allocation that waits is for 1 to 8 pages, more than are free, with the result at 80h.
pub fn request_good(mir: u16, packet: u16, waiting: u16) -> bool
    ensures { Decides result (RequestFormed mir packet waiting) }
{
    waiting == 0 || waiting <= 8 && mir / 256 < waiting && packet / 256 == 0x80
}

pub fn words_good(words: &[u16], size: usize) -> bool
    requires { length words.now ≡ 32 }
    ensures { Decides result (Kept words.now × GoodNumbers size (registers_in words.now).numbers) }
{
    fixed_good(
        words[BANK],
        words[RESERVED],
        words[LATCHES],
        words[LINK],
        words[INTERRUPT],
    ) && blanks_good(words)
        && packet_good(words[PACKET], size)
}
