// Wire bytes gathered until the frame ends.
ghost use Rattle.std.specs.Prelude.{◌≡◌, ◌+◌, ◌≤◌, ◌<◌, ◌&&◌, leb, length};
ghost use Rattle.records.specs.Gathers.{Gathers};

// May so many bytes join those that are gathered?
fn joins(have: usize, n: usize) -> bool
    requires { (have ≤ 2048) × (n < 256) }
    ensures { result ≡ (leb 1 n && leb n 6 && leb (have + n) 2048) }
{
    1 <= n && n <= 6 && have + n <= 2048
}

// The first `have` bytes of the buffer are gathered; `count` of the record's, from its byte 2 on, are to follow. Returns how many are gathered then, or nothing
// where document 01 refuses them (11).
pub fn gathered(wire: &mut [u8], have: usize, bytes: &[u8], count: u8) -> Option<usize>
    requires { (length wire.old ≡ 2048) × (have ≤ 2048) × (length bytes.now ≡ 8) }
    ensures { Gathers wire.old have bytes.now count wire.new result }
{
    let n = count as usize;
    if !joins(have, n) {
        return None;
    }
    for (k, &byte) in bytes[2..2 + n].iter().enumerate() {
        wire[have + k] = byte;
    }
    Some(have + n)
}
