// Snapshot: reads a trace and writes the plan of the file after it.
use crate::course::run_chosen;
use crate::telling::write_out;
use std::rt::Env;

// A refusal in words, with its code.
pub fn tell_refusal(err: &impl Print, code: u8) {
    let _ = err.write_all(b"snapshot: no plan, code ");
    let _ = err.print(code);
    if code == 13 {
        let _ = err.write_all(b": the palette pointer doesn't rest before red");
    }
    let _ = err.write_all(b"\n");
}

// Runs the trace on standard input from a chip's power-on, on the chip and by the engine that the program's words choose, and writes the plan of the file that it
// ends in, as bytes, on standard output.
pub fn snapshot(rt: &(impl Env + Input + Print), err: &impl Print) {
    let Some(course) = run_chosen(rt, err, b"snapshot", 0, false) else {
        return;
    };
    let mut buffer = [0u8; 8192];
    match plan::plan(course.file, &mut buffer) {
        Ok(count) => {
            write_out(rt, err, b"snapshot", course.handed, &buffer[..8 * count]);
        }
        Err(answer) => tell_refusal(err, answer.code()),
    }
}
