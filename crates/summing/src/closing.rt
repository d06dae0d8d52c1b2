// The lines at the end of a trace.
ghost use Rattle.std.specs.Prelude.{◌≡◌, ◌+◌, ◌≤◌, ◌<◌, length};
ghost use Rattle.text.specs.Lent.{Lined, Wrote};
ghost use Rattle.explaining.specs.Lines.{lines_of};
ghost use Rattle.summing.specs.Summed.{code_count};
ghost use Rattle.summing.specs.Closing.{code_line, count_line, counted as countedBy, register_line, summary_answer, summary_count, summary_line, summary_most, summary_text, timing_line};

use crate::summary::{CODES, Summary};
use explaining::{
    Line, NUMBERS, Token, bit_digits, change, choose, code_words, column, decimal, hex, named,
    number_label, phrase, put_lines, say, told,
};
use file::REGISTERS;
use text::{Placed, has_room};

// The columns: what was counted or read, what is told of it, and what moved.
const COUNT: usize = 15;

const TOLD: usize = 32;

const MOVED: usize = 45;

// The most bytes that the lines have.
const MOST: usize = 23040;

// How often.
fn counted(n: u64, one: Token, many: Token) -> [Token; 8]
    ensures { result ≡ countedBy n one many }
{
    phrase([decimal(n), choose(n == 1, one, many)])
}

// A name, and how often.
fn count_line(name: [Token; 8], often: [Token; 8]) -> Line
    ensures { result ≡ count_line name often }
{
    column(told(column(told(Line::blank(), name), COUNT), often), TOLD)
}

// A register that was reached.
fn register_line(number: usize, writes: u64, reach: u16, moved: u16) -> Line
    ensures { result ≡ register_line number writes reach moved }
{
    let one = say(*b" write..................");
    let many = say(*b" writes.................");
    let line = count_line(phrase([named(number)]), counted(writes, one, many));
    let digits = bit_digits(reach);
    let bits = phrase([
        say(*b"reach .................."),
        hex(digits, u32::from(reach)),
    ]);
    let line = column(told(line, bits), MOVED);
    let bits = phrase([
        say(*b"moved .................."),
        hex(digits, u32::from(moved)),
    ]);
    choose(writes == 0, Line::blank(), told(line, bits))
}

// A code that came.
fn code_line(code: usize, times: u64) -> Line
    requires { code < code_count }
    ensures { result ≡ code_line code times }
{
    let code = code as u8;
    let name = phrase([say(*b"code ..................."), decimal(u64::from(code))]);
    let one = say(*b" time...................");
    let many = say(*b" times..................");
    let line = count_line(name, counted(times, one, many));
    choose(times == 0, Line::blank(), told(line, code_words(code)))
}

// A timing number at the start and at the end.
fn timing_line(k: usize, first: u32, last: u32) -> Line
    ensures { result ≡ timing_line k first last }
{
    let line = column(told(Line::blank(), number_label(k)), COUNT);
    let before = phrase([decimal(u64::from(first))]);
    let after = phrase([decimal(u64::from(last))]);
    change(line, before, after, first != last)
}

// The lines into a lent buffer that has room for as many as there may be: the registers, the codes, the numbers.
fn put_summary(summary: Summary, buffer: &mut [u8], at: usize) -> usize
    requires { at + summary_most ≤ length buffer.old }
    ensures wrote { Wrote buffer.old at (lines_of (summary_line summary) 0 summary_count) buffer.new result }
    ensures upper_bound { result ≤ at + summary_most }
{
    let writes = summary.writes;
    let reaches = summary.reaches;
    let moved = summary.moved;
    let codes = summary.codes;
    let first = summary.first;
    let last = summary.last;
    let at = put_lines(
        REGISTERS,
        |k| register_line(k, writes[k], reaches[k], moved[k]),
        buffer,
        at,
    );
    let at = put_lines(CODES, |code| code_line(code, codes[code]), buffer, at);
    put_lines(NUMBERS, |k| timing_line(k, first[k], last[k]), buffer, at)
}

// The summary of a trace from a place of a buffer on; code 11 where there are fewer bytes than its lines may have.
pub fn summary_lines(buffer: &mut [u8], at: usize, summary: Summary) -> Placed
    ensures { Lined (summary_answer buffer.old at) at (summary_text summary) buffer.old buffer.new result }
{
    if has_room(buffer.len(), at, MOST) {
        return Placed::stored(put_summary(summary, buffer, at));
    }
    Placed::no_room(at)
}
