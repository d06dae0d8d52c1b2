// What a file says as a list of numbers, and a timing out of one.
ghost use Rattle.std.specs.Prelude.{◌≡◌, ◌<◌, ◌^◌};
ghost use Rattle.host.specs.Lists.{capture_numbers, clipped as clippedOf, cursor_numbers, reach_numbers, shown_by, timing_clipped, window_numbers};

use crate::{code, is_refused};
use file::{Answer, Reach};
use geometry::{Capture, Cursor, Window};
use image::{REST, fits};
use timing::{Clocks, Scanlines, Timing};

// How many numbers each list has.
pub const TIMING: usize = 15;

pub const CURSOR: usize = 6;

pub const WINDOW: usize = 10;

pub const CAPTURE: usize = 4;

pub const REACH: usize = 9;

// What a reader of a file leaves in a lent list: the numbers that it read, or with a refusal the list as it was. A rest that is no file's is refused with 12.
pub fn leave_read<A: Copy, const N: usize>(
    rest: &[u8; REST],
    answer: Answer,
    numbers: [A; N],
    list: &mut [A; N],
) -> u32
    ensures { (result ≡ (shown_by rest.now answer numbers list.old).code) × (list.new ≡ (shown_by rest.now answer numbers list.old).numbers) }
{
    if !fits(rest) {
        return code(Answer::NotSound);
    }
    if is_refused(answer) {
        return code(answer);
    }
    *list = numbers;
    code(answer)
}

// A number in 16 bits: one that has more is in no range, and neither is what stands for it. It has a name for the fourteen places that want it.
#[tactic(auto, unfolding(crate::specs::Lists::clipped))]
fn clipped(number: u32) -> u16
    ensures { result ≡ clippedOf number }
{
    number.min(u32::from(u16::MAX)) as u16
}

// The timing of fifteen numbers in 01's order. It is no From, since the type and the list are both of other crates.
pub fn timing_of(numbers: [u32; TIMING]) -> Timing
    ensures { result ≡ timing_clipped numbers }
{
    Timing {
        h_total: Clocks(clipped(numbers[0])),
        h_display: Clocks(clipped(numbers[1])),
        h_blank_start: Clocks(clipped(numbers[2])),
        h_blank_end: Clocks(clipped(numbers[3])),
        h_sync_start: Clocks(clipped(numbers[4])),
        h_sync_end: Clocks(clipped(numbers[5])),
        v_total: Scanlines(clipped(numbers[6])),
        v_display: Scanlines(clipped(numbers[7])),
        v_blank_start: Scanlines(clipped(numbers[8])),
        v_blank_end: Scanlines(clipped(numbers[9])),
        v_sync_start: Scanlines(clipped(numbers[10])),
        v_sync_end: Scanlines(clipped(numbers[11])),
        line_compare: Scanlines(clipped(numbers[12])),
        offset: clipped(numbers[13]),
        screen_start: numbers[14],
    }
}

// Enabled, left, top, width, height, address.
pub fn cursor_numbers(cursor: Cursor) -> [i32; CURSOR]
    requires { cursor.address < 2 ^ 31 }
    ensures { result ≡ cursor_numbers cursor }
{
    [
        i32::from(cursor.enabled),
        i32::from(cursor.left.0),
        i32::from(cursor.top.0),
        u32::from(cursor.width.0) as i32,
        u32::from(cursor.height.0) as i32,
        cursor.address as i32,
    ]
}

// Enabled, video, left, top, right, bottom, empty, fault, start, stop.
pub fn window_numbers(window: Window) -> [u32; WINDOW]
    ensures { result ≡ window_numbers window }
{
    [
        u32::from(window.enabled),
        u32::from(window.video),
        u32::from(window.left.0),
        u32::from(window.top.0),
        u32::from(window.right.0),
        u32::from(window.bottom.0),
        u32::from(window.empty),
        u32::from(window.fault),
        u32::from(window.start.0),
        u32::from(window.stop.0),
    ]
}

// Start and stop across, start and stop down.
pub fn capture_numbers(capture: Capture) -> [u32; CAPTURE]
    ensures { result ≡ capture_numbers capture }
{
    [
        u32::from(capture.xstart.0),
        u32::from(capture.xstop.0),
        u32::from(capture.ystart.0),
        u32::from(capture.ystop.0),
    ]
}

// The register and its bits; pointer, toggle, marks, line; palette, bank and the entry of either.
pub fn reach_numbers(reach: Reach) -> [usize; REACH]
    ensures { result ≡ reach_numbers reach }
{
    [
        reach.register,
        reach.bits as usize,
        usize::from(reach.pointer),
        usize::from(reach.toggle),
        usize::from(reach.marks),
        usize::from(reach.line),
        usize::from(reach.palette),
        usize::from(reach.bank),
        reach.entry,
    ]
}
