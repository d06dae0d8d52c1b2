// Replay: 01's example.
#![tactic(auto)]

fn main(rt: HostRuntime) {
    shell::replay(&rt, &rt.stderr());
}
