// Reads vectors from standard input, each a length of two bytes, the lower first, and that many bytes. Prints a line for each: the
// length, the remainder as document 01 shifts it (left), the frame check sequence as the standard publishes it, and the hash in its two halves.
#![tactic(auto)]

ghost use Rattle.std.specs.Prelude.{◌≡◌};
ghost use Rattle.rules.specs.Crc.{mirror};

use std::io::Print;

// The bits in the other order.
#[tactic(auto, using(crate::proofs::Turn::reversed))]
fn turned(r: u32) -> u32
    ensures { result ≡ mirror 32 r }
{
    r.reverse_bits()
}

fn print_line(rt: &impl Print, bytes: &[u8]) {
    let r = turned(crc::remainder(bytes));
    let (first, second) = (r >> 29, (r >> 26) % 8);
    let _ = println!(rt;
        "{} {r:08x} {:08x} {first:03b} {second:03b}",
        bytes.len(),
        crc::fcs(bytes)
    );
}

// A line for each whole vector of the input.
fn print_all(rt: &impl Print, input: &[u8]) {
    let mut rest = input;
    while let [low, high, tail @ ..] = rest {
        let Some((bytes, more)) = tail.split_at_checked(usize::from(bits::word(*low, *high))) else {
            return;
        };
        print_line(rt, bytes);
        rest = more;
    }
}

fn main(rt: HostRuntime) {
    let mut space = [0; 65536];
    let n = streams::read_full(&rt, &mut space);
    print_all(&rt, &space[..n]);
}
