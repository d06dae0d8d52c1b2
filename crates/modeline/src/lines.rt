// Lines on standard input, each read into a file at power-on, and what is reported of them, in fixed memory.
ghost use Rattle.std.specs.Prelude.{◌<◌, ◌≤◌, length, IfSome};

use mode_lines::{LinesJob, feed, start};
use shell::{fill, nothing_handed, nothing_read, tell, write_out};
use std::io::Read;

// How far the reading has come: the job over the lines, and room for the reports of some of them.
#[derive(Drop)]
struct Lines {
    job: LinesJob,
    reports: [u8; 8192],
}

impl Lines {
    // Some lines of a part, and what is reported of them, written: how many bytes they are. What fails ends the reading, and so does a line that no number is
    // left for.
    fn take_some(&mut self, rt: &impl Print, err: &impl Print, part: &[u8]) -> Option<usize>
        ensures { IfSome result (λ used. (0 < used) × (used ≤ length part.now)) }
    {
        let fed = feed(self.job, part, &mut self.reports);
        if fed.used == 0 {
            tell(err, b"modeline", b": more lines than there are numbers");
            return None;
        }
        let handed = write_out(
            rt,
            err,
            b"modeline",
            nothing_handed(),
            &self.reports[..fed.end],
        );
        if handed.has_failed() {
            return None;
        }
        self.job = fed.job;
        Some(fed.used)
    }

    // All lines that end in a part, unless the reading ends.
    fn take_part(&mut self, rt: &impl Print, err: &impl Print, part: &[u8]) -> Option<()> {
        let mut at = 0;
        while at < part.len() {
            at += self.take_some(rt, err, &part[at..])?;
        }
        Some(())
    }

    // The next buffer of the input, unless the reading ends. A last line that no newline ends counts too.
    fn take_more<I: Read>(
        &mut self,
        from: &mut I,
        rt: &impl Print,
        err: &impl Print,
        input: &mut [u8; 8192],
    ) -> Option<()> {
        let read = fill(from, err, b"modeline", nothing_read(), input);
        if read.has_failed() {
            return None;
        }
        let size = read.count;
        self.take_part(rt, err, &input[..size])?;
        if size == 8192 {
            return Some(());
        }
        if self.job.count > 0 {
            self.take_part(rt, err, b"\n")?;
        }
        None
    }
}

// Reads the lines on standard input and prints what is reported of each on standard output. A proved loop has to end, so this one counts its turns, up to a
// number that no run uses up.
pub fn report_input(rt: &(impl Input + Print), err: &impl Print, wide: bool) {
    let mut from = rt.reader();
    let mut lines = Lines {
        job: start(wide),
        reports: [0; 8192],
    };
    let mut input = [0u8; 8192];
    for _ in 0..u64::MAX {
        if lines.take_more(&mut from, rt, err, &mut input).is_none() {
            return;
        }
    }
}
