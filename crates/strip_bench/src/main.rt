// The program "strip_bench": records on standard input, a line for each on standard output, as `bench`, on the chip of strips.
#![tactic(auto)]

fn main(rt: HostRuntime) {
    if streams::misused(&rt, b"usage: strip_bench < RECORDS > LINES\n") {
        return;
    }
    strip_serving::run(&rt, b"strip_bench");
}
