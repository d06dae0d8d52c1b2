// Outline: the cursor, window 2 and the capture window of the file that a trace ends in, a line each.
use crate::course::run_chosen;
use crate::telling::write_out;
use geometry::{Capture, Cursor, Window, magnitude, read_geometry};
use std::rt::Env;
use text::{capture_line, cursor_line, window2_line};

// The cursor's line from the start of a buffer on, and where it ends.
fn put_cursor(cursor: Cursor, lines: &mut [u8]) -> usize {
    let left = cursor.left.0;
    let top = cursor.top.0;
    let numbers = [
        u32::from(cursor.enabled),
        magnitude(left),
        magnitude(top),
        u32::from(cursor.width.0),
        u32::from(cursor.height.0),
        cursor.address,
    ];
    cursor_line(lines, 0, left < 0, top < 0, numbers).end
}

// The line of window 2 from a place of a buffer on, and where it ends.
fn put_window(window: Window, lines: &mut [u8], at: usize) -> usize {
    let numbers = [
        u32::from(window.enabled),
        u32::from(window.video),
        u32::from(window.left.0),
        u32::from(window.top.0),
        u32::from(window.right.0),
        u32::from(window.bottom.0),
        u32::from(window.empty),
        u32::from(window.fault),
        u32::from(window.start.0),
        u32::from(window.stop.0),
    ];
    window2_line(lines, at, numbers).end
}

// The line of the capture window from a place of a buffer on, and where it ends.
fn put_capture(capture: Capture, lines: &mut [u8], at: usize) -> usize {
    let numbers = [
        u32::from(capture.xstart.0),
        u32::from(capture.xstop.0),
        u32::from(capture.ystart.0),
        u32::from(capture.ystop.0),
    ];
    capture_line(lines, at, numbers).end
}

// Runs the trace on standard input from a chip's power-on, on the chip and by the engine that the program's words choose, and prints the cursor, window 2 and the
// capture window of the file that it ends in on standard output.
pub fn outline(rt: &(impl Env + Input + Print), err: &impl Print) {
    let Some(course) = run_chosen(rt, err, b"geometry", 0, false) else {
        return;
    };
    let read = read_geometry(course.file);
    let mut lines = [0u8; 256];
    let at = put_cursor(read.cursor, &mut lines);
    let at = put_window(read.window, &mut lines, at);
    let end = put_capture(read.capture, &mut lines, at);
    if let Some(text) = lines.get(..end) {
        write_out(rt, err, b"geometry", course.handed, text);
    }
}
