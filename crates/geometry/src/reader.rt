// The cursor, window 2 and the capture window of a sound file, and what stands for them where it is not sound.
ghost use Rattle.std.specs.Prelude.{◌≡◌, T};
ghost use Rattle.file.specs.Sound.{sound};
ghost use Rattle.geometry.specs.Geometry.{capture_in, cursor_in, no_capture, no_cursor, no_window, read_geometry, vertical_start, window_in};
ghost use Rattle.timing.specs.Timing.{timing_in};

use crate::edge::{is_empty, less_preset};
use crate::{
    Capture, Cursor, Geometry, IncomingScanlines, PixelClocks, Pixels, SignedPixels,
    SignedScanlines, Window,
};
use file::{
    Answer, CAPTURE_X_START, CAPTURE_X_STOP, CAPTURE_Y_START, CAPTURE_Y_STOP, CC, CE, Chip, D0, D2,
    D4, D5, E0, E2, E4, E6, E8, File, is_sound,
};
use timing::{Scanlines, read_timing};

// What a file's registers say of the cursor, of window 2 and of the capture window.
pub fn read_geometry(file: File) -> Geometry
    ensures { result ≡ read_geometry file }
{
    if is_sound(file) {
        let timing = read_timing(file).timing;
        Geometry {
            answer: Answer::Done(0),
            cursor: cursor_in(file),
            window: window_in(file, timing.v_total.0, timing.v_display.0),
            capture: capture_in(file),
        }
    } else {
        Geometry {
            answer: Answer::NotSound,
            cursor: no_cursor(),
            window: no_window(),
            capture: no_capture(),
        }
    }
}

fn cursor_in(file: File) -> Cursor
    requires { T (sound file) }
    ensures { result ≡ cursor_in file }
{
    let across = file.registers[E4] / 256 % 128;
    let down = file.registers[E4] % 128;
    Cursor {
        enabled: file.registers[E6] % 2 == 1,
        left: SignedPixels(less_preset(file.registers[E0], across)),
        top: SignedScanlines(less_preset(file.registers[E2], down)),
        width: Pixels(64u16.saturating_sub(across)),
        height: Scanlines(64u16.saturating_sub(down)),
        address: u32::from(file.registers[E8] / 4 % 8192) * 1024,
    }
}

// No cursor: the marks off, every number 0.
fn no_cursor() -> Cursor
    ensures { result ≡ no_cursor }
{
    Cursor {
        enabled: false,
        left: SignedPixels(0),
        top: SignedScanlines(0),
        width: Pixels(0),
        height: Scanlines(0),
        address: 0,
    }
}

// The window, given the numbers V total and V display of the file.
fn window_in(file: File, total: u16, display: u16) -> Window
    requires { (total ≡ (timing_in file).v_total.0) × (display ≡ (timing_in file).v_display.0) }
    ensures { result ≡ window_in file }
{
    let left = file.registers[CC];
    let top = file.registers[CE];
    let right = file.registers[D0];
    let last = file.registers[D2];
    let marks = file.registers[D4];
    let bottom = last.min(display);
    Window {
        enabled: marks / 128 % 2 == 1,
        video: marks / 64 % 2 == 1,
        left: Pixels(left),
        top: Scanlines(top),
        right: Pixels(right),
        bottom: Scanlines(bottom),
        empty: is_empty(left, top, right, bottom),
        fault: total < last,
        start: Scanlines(64 * (marks % 64)),
        stop: Scanlines(64 * (file.registers[D5] % 64)),
    }
}

// No window: the marks off, every number 0, empty.
fn no_window() -> Window
    ensures { result ≡ no_window }
{
    Window {
        enabled: false,
        video: false,
        left: Pixels(0),
        top: Scanlines(0),
        right: Pixels(0),
        bottom: Scanlines(0),
        empty: true,
        fault: false,
        start: Scanlines(0),
        stop: Scanlines(0),
    }
}

fn capture_in(file: File) -> Capture
    ensures { result ≡ capture_in file }
{
    let state = file.state;
    let chip = state.chip;
    Capture {
        xstart: PixelClocks(file.registers[CAPTURE_X_START]),
        xstop: PixelClocks(file.registers[CAPTURE_X_STOP]),
        ystart: IncomingScanlines(vertical_start(chip, file.registers[CAPTURE_Y_START])),
        ystop: IncomingScanlines(file.registers[CAPTURE_Y_STOP]),
    }
}

// Where capture starts, by what 10Ch stores: on the 5462 that is V-Port Control, and the start is 0.
fn vertical_start(chip: Chip, stored: u16) -> u16
    ensures { result ≡ vertical_start chip stored }
{
    match chip {
        Chip::Gd5462 => 0,
        Chip::Gd5464 => stored,
    }
}

// No capture window: every number 0.
fn no_capture() -> Capture
    ensures { result ≡ no_capture }
{
    Capture {
        xstart: PixelClocks(0),
        xstop: PixelClocks(0),
        ystart: IncomingScanlines(0),
        ystop: IncomingScanlines(0),
    }
}
