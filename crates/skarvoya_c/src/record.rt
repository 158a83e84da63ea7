// A record of the bench.
ghost use Rattle.skarvoya.specs.Records.{AnswersRecord};

// A record of the bench: it is answered, and its line is printed. `count` is how many records there were before.
#[unsafe(no_mangle)]
pub extern "C" fn skarvoya_record(
    words: &mut [u16],
    sets: &mut [u32],
    queues: &mut [u8],
    memory: &mut [u8],
    wire: &mut [u8],
    gathered: &mut usize,
    output: &mut [u8],
    count: &mut u64,
    bytes: &[u8],
    line: &mut [u8],
    printed: &mut usize,
) -> u32
    ensures { AnswersRecord bytes.now words.old sets.old queues.old memory.old wire.old gathered.old output.old count.old line.old result words.new sets.new queues.new memory.new wire.new gathered.new output.new count.new line.new printed.new }
{
    skarvoya::skarvoya_record(
        words, sets, queues, memory, wire, gathered, output, count, bytes, line, printed,
    )
}
