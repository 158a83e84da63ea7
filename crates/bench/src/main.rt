// The program "bench": records on standard input, a line for each on standard output.
#![tactic(auto)]

fn main(rt: HostRuntime) {
    if streams::misused(&rt, b"usage: bench < RECORDS > LINES\n") {
        return;
    }
    serving::run(&rt, b"bench");
}
