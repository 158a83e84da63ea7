// The bench again, on the cases that document 01 marks "Run".
#![tactic(auto)]

fn main(rt: HostRuntime) {
    serving::run(&rt, b"bench_runs");
}
