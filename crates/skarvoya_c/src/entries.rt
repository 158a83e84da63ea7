// Power-up, and the interrupt line.
ghost use Rattle.skarvoya.specs.Calls.{PowersUp, ShowsLine};

// The part that a byte names, at power-up.
#[unsafe(no_mangle)]
pub extern "C" fn skarvoya_power_up(
    part: u8,
    words: &mut [u16],
    sets: &mut [u32],
    queues: &mut [u8],
    memory: &mut [u8],
) -> u32
    ensures { PowersUp part words.old sets.old queues.old memory.old result words.new sets.new queues.new memory.new }
{
    skarvoya::skarvoya_power_up(part, words, sets, queues, memory)
}

// Is the interrupt line up? 1 or 0.
#[unsafe(no_mangle)]
pub extern "C" fn skarvoya_line(words: &[u16], sets: &[u32], queues: &[u8]) -> u32
    ensures { ShowsLine words.now sets.now queues.now result }
{
    skarvoya::skarvoya_line(words, sets, queues)
}
