// The line of the file that a trace ends in, with a name and a clock.
use choosing::{Chosen, read_arg};
use engines::Engine;
use file::Chip;
use mode_file::Verdict;
use mode_lines::{keep, line_of};
use shell::{nothing_handed, run_input, write_out};
use std::rt::Env;

// A refusal in words, with its code. The line of job_modeline begins in another way and goes into a buffer, with a promise of each byte; what is left in common
// is two phrases, and handing these over would be no plainer.
fn tell_refusal(err: &impl Print, verdict: Verdict) {
    let _ = err.write_all(b"modeline: no line, code ");
    let _ = err.print(verdict.code());
    match verdict {
        Verdict::OtherTiming => {
            let _ = err.write_all(b": the timing isn't that of a modeline");
        }
        Verdict::OutOfForm => {
            let _ = err.write_all(b": the name or the clock is out of form");
        }
        _ => {}
    }
    let _ = err.write_all(b"\n");
}

// Runs the trace on standard input from power-on and writes the line of the file that it ends in on standard output. The name and the clock in MHz are
// the second and the third word; one that is missing, or has more bytes than any that is in form, is read as empty.
pub fn write_line(rt: &(impl Env + Input + Print), err: &impl Print) {
    let chosen = Chosen {
        chip: Chip::Gd5464,
        engine: Engine::Quick,
    };
    let course = run_input(rt, err, b"modeline", chosen, false);
    if course.has_failed() {
        return;
    }
    let mut name = [0u8; 64];
    let mut mhz = [0u8; 64];
    let mut line = [0u8; 512];
    let name_size = read_arg(rt, 2, &mut name);
    let mhz_size = read_arg(rt, 3, &mut mhz);
    match line_of(course.file, &name[..name_size], &mhz[..mhz_size], &mut line) {
        Ok(size) => {
            let end = keep(&mut line, size, b"\n");
            write_out(rt, err, b"modeline", nothing_handed(), &line[..end]);
        }
        Err(verdict) => tell_refusal(err, verdict),
    }
}
