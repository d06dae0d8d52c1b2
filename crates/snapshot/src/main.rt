// Snapshot: the plan of mode 12h with colours, cursor and indices.
#![tactic(auto)]

fn main(rt: HostRuntime) {
    shell::snapshot(&rt, &rt.stderr());
}
