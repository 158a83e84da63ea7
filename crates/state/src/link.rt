// EPHSR as it is shown, by a read and in the status word of a send.
ghost use Rattle.std.specs.Prelude.{◌≡◌};
ghost use Rattle.rules.specs.Bits.{bit};
ghost use Rattle.rules.specs.Link as rules;

// EPHSR's bit that shows the link, and the bit of the link's word that has it.
const LINK_OK: u16 = 14;

const LINK_UP: u16 = 0;

// Bit 14 is the link, whatever is stored there.
pub fn shown_ephsr(ephsr: u16, link: u16) -> u16
    ensures { result ≡ rules.shown (bit 0 link) ephsr }
{
    let up = bits::flag_of(bits::is_set(link, LINK_UP));
    bits::with_clear(ephsr, LINK_OK) + (1 << LINK_OK) * up
}
