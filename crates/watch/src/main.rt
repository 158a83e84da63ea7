// The program "watch": the bench, with the interrupt line and the bytes that a send puts out on its lines.
#![tactic(auto)]

fn main(rt: HostRuntime) {
    if streams::misused(&rt, b"usage: watch < RECORDS > LINES\n") {
        return;
    }
    serving::watch(&rt, b"watch");
}
