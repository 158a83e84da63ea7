// The frame check sequence of a frame that arrives: document 02, W4.
ghost use Rattle.std.specs.Prelude.{◌≡◌, false, ◌≤◌, length};
ghost use Rattle.rules.specs.Bits.{bit};
ghost use Rattle.rules.specs.Receive.{bad_crc};

use state::flags;

// Bad CRC: the last four bytes are not the FCS of the rest.
#[tactic(auto, using(crate::proofs::Places::four_bytes_lem), unfolding(rules::specs::Receive::bad_crc))]
pub fn is_bad(frame: &[u8]) -> bool
    requires { 4 ≤ length frame.now }
    ensures { result ≡ bad_crc frame.now }
{
    let (rest, last) = frame.split_at(frame.len() - 4);
    u32::from_le_bytes(last.try_into().unwrap()) != crc::fcs(rest)
}

// The same of a frame that is stored. Without RCV_BAD it was judged by this, so its bytes are not gone through again.
pub fn is_stored_bad(control: u16, frame: &[u8]) -> bool
    requires { (4 ≤ length frame.now) × (bit 14 control ≡ false → bad_crc frame.now ≡ false) }
    ensures { result ≡ bad_crc frame.now }
{
    bits::is_set(control, flags::RCV_BAD) && is_bad(frame)
}
