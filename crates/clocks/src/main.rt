// Clocks: a line for each register set on standard input, and a summary, as 02, 12/13 says.
#![tactic(auto)]

mod course;

fn main(rt: HostRuntime) {
    course::count_clocks(&rt, &rt.stderr());
}
