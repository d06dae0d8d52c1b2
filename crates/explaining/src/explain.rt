// The lines of a record.
ghost use Rattle.std.specs.Prelude.{◌≡◌, ℕ, ◌+◌, ◌*◌, ◌≤◌, ◌<◌, leb, length};
ghost use Rattle.text.specs.Lent.{Lined, Wrote};
ghost use Rattle.explaining.specs.Explained.{beam_line, case_of, entry_in, entry_line, explained, first_line, head_line, is_whole, line_at, line_count, marks_line, number_line, pointer_line, reach_in, record_answer, record_most, toggle_line};
ghost use Rattle.text.specs.declared.fixed.Line.{Line};
ghost use Rattle.explaining.specs.Lines.{line_most, line_room, line_text, lines_of, most_answer};
ghost use Rattle.explaining.specs.Moves.{numbers_in};
ghost use Rattle.access.specs.Access.{record_in};

use crate::line::{Line, column, told};
use crate::meaning::{answer_words, register_of};
use crate::moves::{NUMBERS, may_move, number_label};
use crate::parts::{
    colour_code, marks_words, part_line, pointer_code, pointer_words, register_part, toggle_words,
};
use crate::token::{choose, decimal, hex, phrase, say};
use crate::words::{find, item_words, looked_words};
use access::{Item, Record};
use file::{Answer, BANK, CR1B, Colour, File, PALETTE, Reach};
use places::Place;
use text::{Placed, has_room, put};
use timing::read_timing;

// The lines before those of the timing numbers.
const HEAD: usize = 6;

// The most bytes that a line has, with its newline.
const LINE_ROOM: usize = 160;

// The most bytes that the lines of a record have.
const RECORD_MOST: usize = 3360;

// What is told of a record: its number; whether all its bytes were there; the files before and after it, with their timing numbers. Each part
// counts whatever the others are: a fragment has a record too, whose missing bytes are zeros.
#[derive(Clone, Copy)]
pub struct Case {
    pub number: u64,
    pub whole: bool,
    pub asked: Record,
    pub before: File,
    pub after: File,
    pub answer: Answer,
    pub reach: Reach,
    pub found: Option<Place>,
    pub old: [u32; 15],
    pub new: [u32; 15],
}

fn is_whole(item: Item) -> bool
    ensures { result ≡ is_whole item }
{
    match item {
        Item::Whole(_) => true,
        Item::Fragment(_) => false,
    }
}

fn record_in(item: Item) -> Record
    ensures { result ≡ record_in item }
{
    match item {
        Item::Whole(asked) => asked,
        Item::Fragment(asked) => asked,
    }
}

// What a record may change in a file; a fragment is refused.
pub fn reach_in(file: File, item: Item) -> Reach
    ensures { result ≡ reach_in file item }
{
    match item {
        Item::Whole(asked) => asked.reach(file).unwrap_or(Reach::none()),
        Item::Fragment(_) => Reach::none(),
    }
}

pub fn numbers_in(file: File) -> [u32; 15]
    ensures { result ≡ numbers_in file }
{
    let read = read_timing(file);
    let timing = read.timing;
    timing.numbers()
}

// What is told of what stands next in a trace.
pub fn case_of(number: u64, file: File, item: Item) -> Case
    ensures { result ≡ case_of number file item }
{
    let accessed = item.access(file);
    let after = accessed.file;
    let answer = accessed.answer;
    let asked = record_in(item);
    let whole = is_whole(item);
    let reach = reach_in(file, item);
    let found = find(file, asked);
    let old = numbers_in(file);
    let new = numbers_in(after);
    Case {
        number,
        whole,
        asked,
        before: file,
        after,
        answer,
        reach,
        found,
        old,
        new,
    }
}

// The record, its place, its code and what that means.
fn head_line(case: Case) -> Line
    ensures { result ≡ head_line case }
{
    let found = case.found;
    let answer = case.answer;
    let line = column(told(Line::blank(), phrase([decimal(case.number)])), 8);
    let code = answer.code();
    let line = column(told(line, item_words(case.whole, case.asked)), 36);
    let line = column(
        told(line, looked_words(case.whole, code, case.asked, found)),
        56,
    );
    let line = column(told(line, phrase([decimal(code as u64)])), 59);
    told(
        line,
        answer_words(case.before, case.asked, case.whole, answer),
    )
}

// And the register that it may change.
pub fn first_line(case: Case) -> Line
    ensures { result ≡ first_line case }
{
    let head = head_line(case);
    let number = case.reach.register;
    let bits = case.reach.bits;
    if bits == 0 {
        return head;
    }
    let old = register_of(case.before, number);
    let new = register_of(case.after, number);
    register_part(head, number, bits, old, new)
}

// The line of the toggle. It and that of the marks have a form in common and each word of their own, so one function for both would ask for all of it.
fn toggle_line(case: Case) -> Line
    ensures { result ≡ toggle_line case }
{
    let old = case.before.state.toggle;
    let new = case.after.state.toggle;
    let label = phrase([say(*b"toggle .................")]);
    part_line(
        case.number,
        case.reach.toggle,
        label,
        toggle_words(old),
        toggle_words(new),
        old != new,
    )
}

fn pointer_line(case: Case) -> Line
    ensures { result ≡ pointer_line case }
{
    let old = case.before.state.pointer;
    let new = case.after.state.pointer;
    let label = phrase([say(*b"pointer ................")]);
    let moved = pointer_code(old) != pointer_code(new);
    part_line(
        case.number,
        case.reach.pointer,
        label,
        pointer_words(old),
        pointer_words(new),
        moved,
    )
}

fn marks_line(case: Case) -> Line
    ensures { result ≡ marks_line case }
{
    let old = case.before.state.marks;
    let new = case.after.state.marks;
    let label = phrase([say(*b"marks ..................")]);
    part_line(
        case.number,
        case.reach.marks,
        label,
        marks_words(old),
        marks_words(new),
        old != new,
    )
}

fn beam_line(case: Case) -> Line
    ensures { result ≡ beam_line case }
{
    let old = case.before.state.line;
    let new = case.after.state.line;
    let label = phrase([say(*b"line ...................")]);
    let before = phrase([decimal(u64::from(old))]);
    let after = phrase([decimal(u64::from(new))]);
    part_line(
        case.number,
        case.reach.line,
        label,
        before,
        after,
        old != new,
    )
}

// The entry of a file that a reach names.
fn entry_in(file: File, reach: Reach) -> Colour
    ensures { result ≡ entry_in file reach }
{
    let black = Colour {
        red: 0,
        green: 0,
        blue: 0,
    };
    let entry = reach.entry;
    if reach.bank {
        if entry < BANK {
            return file.bank[entry];
        }
        return black;
    }
    if entry < PALETTE {
        return file.palette[entry];
    }
    black
}

fn entry_line(case: Case) -> Line
    ensures { result ≡ entry_line case }
{
    let reach = case.reach;
    let old = colour_code(entry_in(case.before, reach));
    let new = colour_code(entry_in(case.after, reach));
    let which = choose(
        reach.bank,
        say(*b"bank entry ............."),
        say(*b"palette entry .........."),
    );
    let entry = hex(2, (reach.entry % 256) as u32);
    let label = phrase([which, entry, say(*b" .......................")]);
    let shown = reach.palette | reach.bank;
    part_line(
        case.number,
        shown,
        label,
        phrase([hex(6, old)]),
        phrase([hex(6, new)]),
        old != new,
    )
}

pub fn number_line(case: Case, k: usize) -> Line
    ensures { result ≡ number_line case k }
{
    if k >= NUMBERS {
        return Line::blank();
    }
    let before = case.before;
    let wide = timing::is_wide(before.registers[CR1B]);
    let shown = may_move(wide, case.reach, k);
    let old = case.old[k];
    let new = case.new[k];
    let first = phrase([decimal(u64::from(old))]);
    let last = phrase([decimal(u64::from(new))]);
    part_line(case.number, shown, number_label(k), first, last, old != new)
}

// A line into a lent buffer that has room for it, with its newline; a line that has nothing is none.
fn put_line(line: Line, buffer: &mut [u8], at: usize) -> usize
    requires { at + line_room ≤ length buffer.old }
    ensures wrote { Wrote buffer.old at (line_text line) buffer.new result }
    ensures upper_bound { result ≤ at + line_room }
{
    if line.len() == 0 {
        return at;
    }
    let at = put(line.text(), buffer, at);
    put(b"\n", buffer, at)
}

// The same from a place of a buffer on, code 11 where there are fewer bytes than a line may have.
pub fn place_line(buffer: &mut [u8], at: usize, line: Line) -> Placed
    ensures { Lined (most_answer line_room buffer.old at) at (line_text line) buffer.old buffer.new result }
{
    if has_room(buffer.len(), at, LINE_ROOM) {
        return Placed::stored(put_line(line, buffer, at));
    }
    Placed::no_room(at)
}

// So many lines of the most bytes have room from a place on.
fn lines_fit(room: usize, at: usize, count: usize) -> bool
    ensures { result ≡ leb (at + line_room * count) room }
{
    if room < at {
        return false;
    }
    count <= (room - at) / LINE_ROOM
}

// So many lines, each as `line` gives it by its number, into a lent buffer; nothing where it has no room for as many as there may be.
pub fn put_lines<F: Fn(usize) -> Line>(count: usize, line: F, buffer: &mut [u8], at: usize) -> usize
    requires { (k : ℕ) → k < count → F.pre line k }
    ensures wrote { at + line_room * count ≤ length buffer.old → (of : ℕ → Line line_most) → ((k : ℕ) (l : Line line_most) → k < count → F.post line k l → l ≡ of k) → Wrote buffer.old at (lines_of of 0 count) buffer.new result }
    ensures upper_bound { result ≤ at + line_room * count }
    ensures unstored { length buffer.old < at + line_room * count → (buffer.new ≡ buffer.old) × (result ≡ at) }
{
    if !lines_fit(buffer.len(), at, count) {
        return at;
    }
    let mut at = at;
    for k in 0..count {
        at = put_line(line(k), buffer, at);
    }
    at
}

// The lines of a record into a lent buffer that has room for as many as there may be.
fn put_record(case: Case, buffer: &mut [u8], at: usize) -> usize
    requires { at + record_most ≤ length buffer.old }
    ensures wrote { Wrote buffer.old at (lines_of (line_at case) 0 line_count) buffer.new result }
    ensures upper_bound { result ≤ at + record_most }
{
    let head: [Line; HEAD] = [
        first_line(case),
        toggle_line(case),
        pointer_line(case),
        marks_line(case),
        entry_line(case),
        beam_line(case),
    ];
    let at = put_lines(HEAD, |k| head[k], buffer, at);
    put_lines(NUMBERS, |k| number_line(case, k), buffer, at)
}

// The explanation of what stands next in a trace, from a place of a buffer on: its number, and the file before it; code 11 where there are fewer
// bytes than a record's lines may have.
pub fn record_lines(buffer: &mut [u8], at: usize, number: u64, file: File, item: Item) -> Placed
    ensures { Lined (record_answer buffer.old at) at (explained number file item) buffer.old buffer.new result }
{
    if has_room(buffer.len(), at, RECORD_MOST) {
        let case = case_of(number, file, item);
        return Placed::stored(put_record(case, buffer, at));
    }
    Placed::no_room(at)
}
