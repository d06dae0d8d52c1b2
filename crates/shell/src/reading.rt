// Standard input, or another file that is open, by buffers.
ghost use Rattle.std.specs.Prelude.{◌≡◌, ◌+◌, ◌^◌, ◌<◌, ◌≤◌, MatchOption, false, length, take};
ghost use Rattle.std.specs.Bool.{⊤};
ghost use Rattle.io.specs.Counts.{IsPrefixLen};
ghost use Rattle.shell.specs.Parts.{counted};

use crate::telling::{tell, tell_failure};
use std::io::Read;
use std::num::wrapping_add_u64;

// The last number at which a whole buffer of records still has numbers.
const LAST: u64 = u64::MAX - 1024;

// The last count of bytes at which those of a whole buffer are still counted.
const LAST_BYTE: u64 = u64::MAX - 8192;

// How many bytes came into a buffer, whether a read failed, and how many bytes came in all, as far as 64 bits count: those before a read that failed
// are counted too, so it is no Result. It is made here alone: no other module can say that bytes came or that a read failed.
#[derive(Clone, Copy)]
pub struct Filled {
    pub count: usize,
    failed: bool,
    all: u64,
}

impl Filled {
    // Whether the last read failed.
    pub fn has_failed(self) -> bool
        ensures { result ≡ self.failed }
    {
        self.failed
    }
}

// Nothing yet.
pub fn nothing_read() -> Filled
    ensures { result ≡ record { count = 0; failed = false; all = 0 } }
{
    Filled {
        count: 0,
        failed: false,
        all: 0,
    }
}

// So many bytes behind those before.
fn filled_with(before: Filled, count: usize, failed: bool) -> Filled
    ensures count_value { result.count ≡ count }
    ensures failed_value { result.failed ≡ failed }
    ensures all_value { result.all ≡ counted before.all result.count }
{
    Filled {
        count,
        failed,
        all: wrapping_add_u64(before.all, count as u64),
    }
}

// One read into what is left of a buffer from a place on, and how many bytes it brought: none where the input ends, and nothing where the read fails, which
// is told. What stands before the place stays.
fn read_on<I: Read>(
    from: &mut I,
    err: &impl Print,
    program: &[u8],
    what: &[u8],
    buffer: &mut [u8],
    at: usize,
) -> Option<usize>
    requires { at ≤ length buffer.old }
    ensures count_in_bounds { MatchOption result ⊤ (λ count. at + count ≤ length buffer.new) }
    ensures buffer_unchanged { take at buffer.new ≡ take at buffer.old }
{
    match from.read(&mut buffer[at..]) {
        Ok(count) => Some(count),
        Err(why) => {
            tell_failure(err, program, what, why);
            None
        }
    }
}

// Reads from a file that is open until the buffer is full, the file ends or a read fails, which is told with the words for what is read.
pub fn fill_from<I: Read>(
    from: &mut I,
    err: &impl Print,
    program: &[u8],
    what: &[u8],
    before: Filled,
    buffer: &mut [u8],
) -> Filled
    ensures prefix_len { IsPrefixLen result.count buffer.new }
    ensures all_value { result.all ≡ counted before.all result.count }
{
    let mut at = 0;
    while at < buffer.len() {
        match read_on(from, err, program, what, buffer, at) {
            Some(0) => return filled_with(before, at, false),
            Some(count) => at += count,
            None => return filled_with(before, at, true),
        }
    }
    filled_with(before, at, false)
}

// The same of standard input.
pub fn fill<I: Read>(
    input: &mut I,
    err: &impl Print,
    program: &[u8],
    before: Filled,
    buffer: &mut [u8],
) -> Filled
    ensures prefix_len { IsPrefixLen result.count buffer.new }
    ensures all_value { result.all ≡ counted before.all result.count }
{
    fill_from(input, err, program, b": standard input", before, buffer)
}

// The next buffer of a trace, of which so many records came before; what goes wrong is told.
pub fn read_some<I: Read>(
    input: &mut I,
    err: &impl Print,
    program: &[u8],
    number: u64,
    before: Filled,
    trace: &mut [u8; 8192],
) -> Filled
    ensures prefix_len { IsPrefixLen result.count trace.new }
    ensures count_bound { result.count ≤ 8192 }
    ensures all_value { result.all ≡ counted before.all result.count }
    ensures number_bound { result.failed ≡ false → number + 1024 < 2 ^ 64 }
{
    if number > LAST {
        tell(err, program, b": more records than there are numbers");
        return filled_with(before, 0, true);
    }
    fill(input, err, program, before, trace)
}

// The next buffer of a second trace, a file that is open; what goes wrong is told.
pub fn read_second<I: Read>(
    from: &mut I,
    err: &impl Print,
    before: Filled,
    part: &mut [u8; 8192],
) -> Filled
    ensures prefix_len { IsPrefixLen result.count part.new }
    ensures count_bound { result.count ≤ 8192 }
    ensures all_value { result.all ≡ counted before.all result.count }
    ensures all_bound { result.failed ≡ false → before.all + 8192 < 2 ^ 64 }
{
    if before.all > LAST_BYTE {
        tell(err, b"snapshot", b": the second trace has no end");
        return filled_with(before, 0, true);
    }
    fill_from(from, err, b"snapshot", b": the second trace", before, part)
}
