// The vertical numbers that a line is held to, each straight from its pieces: whoever polls 3?Ah asks for these, and not for all fifteen.
ghost use Rattle.std.specs.Prelude.{◌≡◌, ◌+◌, ◌*◌, ◌%◌, ◌<◌};
ghost use Rattle.bits.specs.Numbers.{end_after};
ghost use Rattle.file.specs.File.{seen};
ghost use Rattle.file.specs.State.{unasked};
ghost use Rattle.timing.specs.Timing.{timing_in};

use crate::Scanlines;
use file::{CR1E, CR6, CR7, CR10, CR11, CR12, REGISTERS};

// Eleven bits: the lowest of each of the first three, and the low byte of the last.
fn eleven(first: u16, second: u16, third: u16, byte: u16) -> u16
    ensures { result ≡ first % 2 * 1024 + second % 2 * 512 + third % 2 * 256 + byte % 256 }
{
    first % 2 * 1024 + second % 2 * 512 + third % 2 * 256 + byte % 256
}

pub fn v_total(registers: &[u16; REGISTERS]) -> Scanlines
    ensures { result ≡ (timing_in (seen registers.now unasked)).v_total }
{
    let cr7 = registers[CR7];
    Scanlines(eleven(registers[CR1E] >> 3, cr7 >> 5, cr7, registers[CR6]) + 2)
}

pub fn v_display(registers: &[u16; REGISTERS]) -> Scanlines
    ensures { result ≡ (timing_in (seen registers.now unasked)).v_display }
{
    let cr7 = registers[CR7];
    Scanlines(eleven(registers[CR1E] >> 2, cr7 >> 6, cr7 >> 1, registers[CR12]) + 1)
}

pub fn v_sync_start(registers: &[u16; REGISTERS]) -> Scanlines
    ensures { result ≡ (timing_in (seen registers.now unasked)).v_sync_start }
{
    let cr7 = registers[CR7];
    Scanlines(eleven(registers[CR1E], cr7 >> 7, cr7 >> 2, registers[CR10]))
}

// The end of four bits after a start.
fn end_of_four(start: u16, bits: u16) -> u16
    requires { start < 2048 }
    ensures { result ≡ end_after start 4 (bits % 16) }
{
    let next = start + 1;
    next + (bits % 16 + 16 - next % 16) % 16
}

pub fn v_sync_end(registers: &[u16; REGISTERS]) -> Scanlines
    ensures { result ≡ (timing_in (seen registers.now unasked)).v_sync_end }
{
    let start = v_sync_start(registers).0;
    Scanlines(end_of_four(start, registers[CR11]))
}
