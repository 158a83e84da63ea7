// What becomes of the packet that was sent.
ghost use Rattle.std.specs.Prelude.{◌≡◌, not, ◌&&◌, false, ◌≤◌, ◌<◌, leb, length};
ghost use Rattle.rules.specs.Bits.{bit};
ghost use Rattle.wellformed.specs.Layouts.{GoodLists};
ghost use Rattle.state.specs.View.{word, lists_of};
ghost use Rattle.state.specs.Promise.{SoundOf};
ghost use Rattle.outcomes.specs.Retired.{RetiresOf};

use pages::Layout;
use pool::Completion;
use sets::Packet;
use state::flags;

// Good with AUTO_RELEASE: the packet is released.
pub fn is_released(good: bool, control: u16) -> bool
    ensures { result ≡ (good && bit 11 control) }
{
    good && bits::is_set(control, flags::AUTO_RELEASE)
}

// Refusal 14: the number would join completion, which has as many entries as the part has packets.
pub fn is_full(released: bool, count: u16, packets: usize) -> bool
    ensures { result ≡ (not released && leb packets count) }
{
    !released && packets <= usize::from(count)
}

// The packet is released, or its number joins completion.
pub fn retire<L: Layout>(
    words: &mut [u16],
    sets: &mut [u32],
    queues: &mut [u8],
    packet: Packet,
    released: bool,
)
    requires { (packet.0 < length sets.old) × SoundOf L.layout words.old sets.old queues.old × GoodLists L.layout (length sets.old) (lists_of L.layout sets.old) × (released ≡ false → word words.old 9 < 24) × (word words.old 23 ≤ 8) }
    ensures { RetiresOf L.layout released packet.0 words.old sets.old queues.old words.new sets.new queues.new }
{
    if released {
        pages::give_back::<L>(words, sets, packet);
        return;
    }
    pool::join::<Completion>(words, queues, packet);
}
