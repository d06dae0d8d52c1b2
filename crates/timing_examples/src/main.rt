// 01's examples P9 to P11, run over the compiled code and printed, on each chip.
#![tactic(auto)]

ghost use Rattle.std.specs.Prelude.{◌≡◌, ◌+◌, ◌^◌, ◌<◌, fold};
ghost use Rattle.paper.specs.Examples.{blanked as blankedNumbers, mode12, set_register, started};
ghost use Rattle.timing.specs.Timing.{timing_of};

use file::{CR0, CR1B, Chip, E0, E4, File};
use paper::{opened, set_register};
use std::io;
use timing::{Clocks, Scanlines, Timing, read_timing, write_timing};

// The registers of P9 and what each holds, in the order in which they are set: CR18 down to CR0.
const MODE_12H: [(usize, u16); 16] = [
    (CR0 + 0x18, 0xFF),
    (CR0 + 0x16, 0x04),
    (CR0 + 0x15, 0xE7),
    (CR0 + 0x13, 0x28),
    (CR0 + 0x12, 0xDF),
    (CR0 + 0x11, 0x8C),
    (CR0 + 0x10, 0xEA),
    (CR0 + 0x09, 0x40),
    (CR0 + 0x07, 0x3E),
    (CR0 + 0x06, 0x0B),
    (CR0 + 0x05, 0x80),
    (CR0 + 0x04, 0x54),
    (CR0 + 0x03, 0x82),
    (CR0 + 0x02, 0x50),
    (CR0 + 0x01, 0x4F),
    (CR0, 0x5F),
];

// Registers set one after the other, each to its value.
fn set_registers(file: File, settings: &[(usize, u16)]) -> File
    ensures { result ≡ fold (λ f s. set_register s.0 s.1 f) file settings.now }
{
    settings.iter().fold(
        file,
        |set, (number, value)| set_register(set, *number, *value),
    )
}

// P9: 'IBM mode 12h'.
fn mode_12h(chip: Chip) -> File
    ensures { result ≡ started chip mode12 }
{
    set_registers(opened(chip), &MODE_12H)
}

// The timing of mode 12h, its horizontal blanking of so many clocks.
fn blanked(clocks: u16) -> Timing
    requires { 80 + clocks < 2 ^ 16 }
    ensures { result ≡ timing_of (blankedNumbers clocks) }
{
    Timing {
        h_total: Clocks(100),
        h_display: Clocks(80),
        h_blank_start: Clocks(80),
        h_blank_end: Clocks(80 + clocks),
        h_sync_start: Clocks(84),
        h_sync_end: Clocks(96),
        v_total: Scanlines(525),
        v_display: Scanlines(480),
        v_blank_start: Scanlines(487),
        v_blank_end: Scanlines(516),
        v_sync_start: Scanlines(490),
        v_sync_end: Scanlines(492),
        line_compare: Scanlines(1023),
        offset: 40,
        screen_start: 0,
    }
}

fn print_timing(rt: &impl Print, file: File) -> io::Result<()> {
    let mut line = [0u8; 512];
    let end = text::timing_line(&mut line, 0, read_timing(file).timing).end;
    rt.write_all(&line[..end])
}

// A timing write's code, and the timing of the file after it.
fn print_written(rt: &impl Print, file: File, timing: Timing) -> io::Result<()> {
    let written = write_timing(file, timing);
    let answer = written.answer;
    rt.println(answer.code())?;
    print_timing(rt, written.file)
}

fn print_signed(rt: &impl Print, n: i16) -> io::Result<()> {
    if n < 0 {
        rt.print("-")?;
    }
    rt.print(geometry::magnitude(n))
}

// The cursor's left edge and shown width.
fn print_cursor(rt: &impl Print, file: File) -> io::Result<()> {
    let cursor = geometry::read_geometry(file).cursor;
    print_signed(rt, cursor.left.0)?;
    rt.print(" ")?;
    rt.println(cursor.width.0)
}

fn print_examples(rt: &impl Print, chip: Chip) -> io::Result<()> {
    rt.println("P9")?;
    print_timing(rt, mode_12h(chip))?;
    rt.println("P10")?;
    print_written(rt, opened(chip), blanked(64))?;
    print_written(rt, opened(chip), blanked(65))?;
    let wide = set_register(opened(chip), CR1B, 0x20);
    print_written(rt, wide, blanked(256))?;
    print_written(rt, wide, blanked(257))?;
    rt.println("P11")?;
    let preset = set_register(opened(chip), E4, 0x0A00);
    print_cursor(rt, set_register(preset, E0, 0x0005))
}

fn main(rt: HostRuntime) -> io::Result<()> {
    rt.println("5464")?;
    print_examples(&rt, Chip::Gd5464)?;
    rt.println("5462")?;
    print_examples(&rt, Chip::Gd5462)
}
