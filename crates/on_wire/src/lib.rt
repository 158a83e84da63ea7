// A send's data as it goes out: padded, and its frame check sequence behind it (document 02, W4). Both chips end what they put out by this.
#![tactic(auto)]

ghost use Rattle.std.specs.Prelude.{◌≡◌, cond, ◌+◌, ◌≤◌, length, take};
ghost use Rattle.rules.specs.Send as rules;
ghost use Rattle.on_wire.specs.PutsOut.{PutsOut};

use state::flags;

// What a send puts out has room in this: eight pages of data, and the FCS.
pub const OUTPUT_BYTES: usize = 2052;

// With PAD_EN shorter data is padded to these: before an FCS, and without one.
const LEAST_BEFORE_FCS: usize = 60;

const LEAST: usize = 64;

// c - 5 bytes if ODD is set in the control byte, which is at c - 1, else c - 6.
#[tactic(auto, unfolding(rules::specs::Send::send_length))]
pub fn send_length(count: u16, control: u8) -> usize
    requires { 6 ≤ count }
    ensures { (result ≡ rules.send_length count control) × (result + 5 ≤ count) }
{
    let count = usize::from(count);
    if bits::byte_is_set(control, flags::ODD) {
        count - 5
    } else {
        count - 6
    }
}

// Does an FCS follow the data? NOCRC keeps it off, unless CRC is set in the control byte.
#[tactic(auto, unfolding(rules::specs::Send::appends))]
fn appends(tcr: u16, control: u8) -> bool
    ensures { result ≡ rules.appends tcr control }
{
    !bits::is_set(tcr, flags::NOCRC) || bits::byte_is_set(control, flags::CRC)
}

// What shorter data is padded to.
fn least_length(fcs: bool) -> usize
    ensures { (result ≡ cond fcs 60 64) × (result ≤ 64) }
{
    if fcs { LEAST_BEFORE_FCS } else { LEAST }
}

// Pads the data with PAD_EN, and says how long it is then. It stands at the front of the buffer.
fn pad_out(tcr: u16, fcs: bool, len: usize, out: &mut [u8]) -> usize
    requires { (len ≤ 2048) × (2052 ≤ length out.old) }
    ensures puts { PutsOut (rules.padded fcs tcr (take len out.old)) out.old out.new result }
    ensures few { result ≤ 2048 }
{
    let least = least_length(fcs);
    if bits::is_set(tcr, flags::PAD_EN) && len < least {
        out[len..least].fill(0);
        return least;
    }
    len
}

// Pads the data at the front of the buffer, puts its FCS behind it, and says how long it is then. The FCS is that of the padded data.
pub fn end_out(tcr: u16, control: u8, len: usize, out: &mut [u8]) -> u16
    requires { (len ≤ 2048) × (2052 ≤ length out.old) }
    ensures { PutsOut (rules.on_wire tcr control (take len out.old)) out.old out.new result }
{
    let with_fcs = appends(tcr, control);
    let end = pad_out(tcr, with_fcs, len, out);
    if !with_fcs {
        return end as u16;
    }
    let fcs = crc::fcs(&out[..end]);
    out[end..end + 4].copy_from_slice(&fcs.to_le_bytes());
    (end + 4) as u16
}
