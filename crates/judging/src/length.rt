// How much is stored of a frame, in how many pages, and its status.
ghost use Rattle.std.specs.Prelude.{◌≡◌, false, ◌≤◌, length};
ghost use Rattle.rules.specs.Bits.{bit};
ghost use Rattle.rules.specs.Receive.{bad_crc, data_length, count_of, pages_for, frame_status};
ghost use Rattle.judging.specs.Frames.{frame_of, with_rcr};

use crate::address::{destination, group_bits, is_broadcast};
use crate::check::is_stored_bad;
use bits::flag_of;
use state::{PAGE_BYTES, flags};

// The sizes of a frame, with its FCS, by the standard; and the longest that the chip stores.
pub const SHORTEST: usize = 64;

const LONGEST: usize = 1518;

pub const LONGEST_STORED: usize = 1532;

// n is the length, less 4 with STRIP_CRC.
#[tactic(auto, unfolding(rules::specs::Receive::data_length))]
pub fn data_length(rcr: u16, len: usize) -> usize
    requires { 18 ≤ len }
    ensures { result ≡ data_length (with_rcr rcr) len }
{
    if bits::is_set(rcr, flags::STRIP_CRC) {
        return len - 4;
    }
    len
}

// The count is n + 6 (even) or n + 5 (odd).
#[tactic(auto, unfolding(rules::specs::Receive::count_of))]
pub fn count_of(n: usize) -> u16
    requires { n ≤ 1532 }
    ensures { result ≡ count_of n }
{
    if bits::is_odd(n) {
        return n as u16 + 5;
    }
    n as u16 + 6
}

#[tactic(auto, unfolding(rules::specs::Receive::pages_for))]
pub fn pages_for(n: usize) -> u32
    requires { n ≤ 1532 }
    ensures { result ≡ pages_for (count_of n) }
{
    (count_of(n) as u32 + 255) / PAGE_BYTES
}

// 15 alignment, 14 broadcast, 13 bad CRC, 12 odd n, 11 frame with FCS over 1,518 bytes, 10 under 64; and what there is to say of a group address.
// A frame that is stored has a bad CRC only with RCV_BAD set.
#[tactic(auto, unfolding(rules::specs::Receive::frame_status))]
pub fn status_of(control: u16, frame: &[u8], n: usize, alignment: bool) -> u16
    requires { (18 ≤ length frame.now) × (bit 14 control ≡ false → bad_crc frame.now ≡ false) }
    ensures { result ≡ frame_status (frame_of frame.now alignment) n }
{
    let len = frame.len();
    let address = destination(frame);
    let group = group_bits(address);
    let broadcast = flag_of(is_broadcast(address));
    let bad = flag_of(is_stored_bad(control, frame));
    let odd = flag_of(bits::is_odd(n));
    let long = flag_of(LONGEST < len);
    let short = flag_of(len < SHORTEST);
    let upper = (1 << flags::ALGNERR) * flag_of(alignment)
        + (1 << flags::BROADCAST) * broadcast
        + (1 << flags::BADCRC) * bad;
    upper
        + (1 << flags::ODDFRM) * odd
        + (1 << flags::TOOLNG) * long
        + (1 << flags::TOOSHORT) * short
        + group
}
