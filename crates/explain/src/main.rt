// Explain: a trace on standard input, from a chip's power-on, with lines in words for each record, or with what it did in all.
#![tactic(auto)]

mod course;

use choosing::{choose, read_arg};
use shell::tell_choice;
use std::rt::Env;

// The first word behind the program's name asks for the summary.
fn asks_summary(rt: &impl Env) -> bool {
    let mut word = [0u8; 16];
    let size = read_arg(rt, 1, &mut word);
    check::same(&word[..size], b"--summary")
}

fn main(rt: HostRuntime) {
    let err = rt.stderr();
    let sums = asks_summary(&rt);
    // The words behind --summary choose the chip; which engine they name makes no difference.
    let choice = choose(&rt, usize::from(sums));
    if let Some(chosen) = tell_choice(&err, b"explain", choice) {
        course::explain(&rt, &err, chosen.chip, sums);
    }
}
