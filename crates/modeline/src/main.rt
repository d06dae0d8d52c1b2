// Modeline: some lines of an input, and what is reported of each.
#![tactic(auto)]

mod lines;
mod out;
mod words;

use words::is_word;

fn main(rt: HostRuntime) {
    let err = rt.stderr();
    if is_word(&rt, 1, b"--of") {
        out::write_line(&rt, &err);
        return;
    }
    lines::report_input(&rt, &err, is_word(&rt, 1, b"--wide"));
}
