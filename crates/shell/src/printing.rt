// Replay: a line for each record of a trace, then the timing line.
ghost use Rattle.std.specs.Prelude.{◌≡◌, ◌≤◌, T, ◌++◌, length, drop};
ghost use Rattle.io.specs.Counts.{IsPrefixLen};
ghost use Rattle.file.specs.Sound.{sound};
ghost use Rattle.timing.specs.Timing.{timing_in};
ghost use Rattle.replaying.specs.Replay.{timing_most};
ghost use Rattle.text.specs.Text.{timing_line};

use crate::course::run_chosen;
use crate::telling::write_out;
use file::File;
use replaying::TIMING_MOST;
use std::rt::Env;

// The timing line of a file, from the start of a buffer on, and where it ends.
fn timing_end(file: File, line: &mut [u8]) -> usize
    requires t { T (sound file) }
    requires timing_most_in_bounds { timing_most ≤ length line.old }
    ensures prefix_len { IsPrefixLen result line.new }
    ensures value { result ≡ length (timing_line (timing_in file)) }
    ensures line_after { line.new ≡ timing_line (timing_in file) ++ drop result line.old }
{
    text::timing_line(line, 0, timing::read_timing(file).timing).end
}

// Runs the trace on standard input from a chip's power-on, on the chip and by the engine that the program's words choose, and prints what 01 says on standard
// output.
pub fn replay(rt: &(impl Env + Input + Print), err: &impl Print) {
    let Some(course) = run_chosen(rt, err, b"replay", 0, true) else {
        return;
    };
    let mut line = [0u8; TIMING_MOST];
    let end = timing_end(course.file, &mut line);
    write_out(rt, err, b"replay", course.handed, &line[..end]);
}
