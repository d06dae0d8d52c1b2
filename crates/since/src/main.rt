// Since: the short plan back to mode 12h, after a few accesses more.
#![tactic(auto)]

fn main(rt: HostRuntime) {
    shell::since(&rt, &rt.stderr());
}
