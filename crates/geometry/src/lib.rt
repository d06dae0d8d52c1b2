// The hardware cursor, window 2 and the capture window of a register file. Horizontal places are pixels, a third kind beside clocks and scanlines.
// Where a place may lie before the first pixel or scanline its unit is a signed one. What is captured comes with clocks and scanlines of its own.
#![tactic(auto)]

mod edge;
mod reader;

pub use edge::magnitude;
use file::Answer;
pub use reader::read_geometry;
use timing::Scanlines;

#[derive(Clone, Copy, Debug, PartialEq, Eq, PartialOrd, Ord)]
pub struct Pixels(pub u16);

#[derive(Clone, Copy, Debug, PartialEq, Eq, PartialOrd, Ord)]
pub struct SignedPixels(pub i16);

#[derive(Clone, Copy, Debug, PartialEq, Eq, PartialOrd, Ord)]
pub struct SignedScanlines(pub i16);

// The pixel clocks that incoming video is counted in, and its scanlines.
#[derive(Clone, Copy, Debug, PartialEq, Eq, PartialOrd, Ord)]
pub struct PixelClocks(pub u16);

#[derive(Clone, Copy, Debug, PartialEq, Eq, PartialOrd, Ord)]
pub struct IncomingScanlines(pub u16);

// The cursor: left and top may be negative, as 01 has them.
#[derive(Clone, Copy, Debug, PartialEq, Eq)]
pub struct Cursor {
    pub enabled: bool,
    pub left: SignedPixels,
    pub top: SignedScanlines,
    pub width: Pixels,
    pub height: Scanlines,
    pub address: u32,
}

// Window 2: right and bottom are not included.
#[derive(Clone, Copy, Debug, PartialEq, Eq)]
pub struct Window {
    pub enabled: bool,
    pub video: bool,
    pub left: Pixels,
    pub top: Scanlines,
    pub right: Pixels,
    pub bottom: Scanlines,
    pub empty: bool,
    pub fault: bool,
    pub start: Scanlines,
    pub stop: Scanlines,
}

// The V-Port's capture window: start and stop, across and down.
#[derive(Clone, Copy, Debug, PartialEq, Eq)]
pub struct Capture {
    pub xstart: PixelClocks,
    pub xstop: PixelClocks,
    pub ystart: IncomingScanlines,
    pub ystop: IncomingScanlines,
}

// What the reader answers: every number 0 and every mark off where it refuses, but for `empty`. A struct with its answer beside, and no Result: the rules
// promise those numbers (docs/DECISIONS.md, 31).
#[derive(Clone, Copy, Debug, PartialEq, Eq)]
pub struct Geometry {
    pub answer: Answer,
    pub cursor: Cursor,
    pub window: Window,
    pub capture: Capture,
}
