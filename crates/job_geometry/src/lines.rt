// The lines of the cursor, of window 2 and of the capture window, each from a place of a lent buffer on; code 11 where a line has no room.
ghost use Rattle.std.specs.Prelude.{◌≤◌, length};
ghost use Rattle.text.specs.Lent.{Lined, room_answer};
ghost use Rattle.job_geometry.specs.GeometryText.{capture_text, cursor_text, window_text};

use geometry::{Capture, Cursor, Window, magnitude};
use text::{Placed, capture_line, cursor_line, window2_line};

// Puts the line of `cursor`: enabled, left, top, width, height and address.
pub fn put_cursor(cursor: Cursor, lines: &mut [u8], at: usize) -> Placed
    ensures lined { Lined (room_answer lines.old at (cursor_text cursor)) at (cursor_text cursor) lines.old lines.new result }
    ensures cursor_len_bound { length (cursor_text cursor) ≤ 76 }
{
    let left = cursor.left.0;
    let top = cursor.top.0;
    let numbers = [
        u32::from(cursor.enabled),
        magnitude(left),
        magnitude(top),
        u32::from(cursor.width.0),
        u32::from(cursor.height.0),
        cursor.address,
    ];
    cursor_line(lines, at, left < 0, top < 0, numbers)
}

// Puts the line of `window`: enabled, video, left, top, right, bottom, empty, fault, start and stop.
pub fn put_window(window: Window, lines: &mut [u8], at: usize) -> Placed
    ensures lined { Lined (room_answer lines.old at (window_text window)) at (window_text window) lines.old lines.new result }
    ensures window_len_bound { length (window_text window) ≤ 118 }
{
    let numbers = [
        u32::from(window.enabled),
        u32::from(window.video),
        u32::from(window.left.0),
        u32::from(window.top.0),
        u32::from(window.right.0),
        u32::from(window.bottom.0),
        u32::from(window.empty),
        u32::from(window.fault),
        u32::from(window.start.0),
        u32::from(window.stop.0),
    ];
    window2_line(lines, at, numbers)
}

// Puts the line of `capture`: start and stop across, and start and stop down.
pub fn put_capture(capture: Capture, lines: &mut [u8], at: usize) -> Placed
    ensures lined { Lined (room_answer lines.old at (capture_text capture)) at (capture_text capture) lines.old lines.new result }
    ensures capture_len_bound { length (capture_text capture) ≤ 52 }
{
    let numbers = [
        u32::from(capture.xstart.0),
        u32::from(capture.xstop.0),
        u32::from(capture.ystart.0),
        u32::from(capture.ystop.0),
    ];
    capture_line(lines, at, numbers)
}
