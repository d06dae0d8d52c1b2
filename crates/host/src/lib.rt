// The register file for a host in C: a file is 108 words and 826 bytes that the host owns and lends.
#![tactic(auto)]

mod finding;
mod lists;
mod serving;

ghost use Rattle.std.specs.Prelude.{◌≡◌, ◌&&◌};
ghost use Rattle.file.specs.Answers.{code_of, refused};
ghost use Rattle.file.specs.File.{power_on};
ghost use Rattle.image.specs.Bytes.{is_set};
ghost use Rattle.image.specs.Parts.{chip_in, fits_in, rest_of};
ghost use Rattle.image.specs.Image.{save_answer, saved_in, loaded_from};
ghost use Rattle.host.specs.Calls.{code_told, layout_of, powered_on, registers_told, rest_told, set_told};
ghost use Rattle.host.specs.Left.{AccessLeft, TimingLeft};
ghost use Rattle.host.specs.Lists.{capture_read, cursor_read, reach_told, timing_read, window_read};
ghost use Rattle.host.specs.Numbers.{record_in};
ghost use Rattle.host.specs.Runs.{PlanTold, RunTold, RestoreTold, NoteTold, ShortTold, ShortRestoreTold};

use crate::lists::{CAPTURE, CURSOR, REACH, TIMING, WINDOW};
use file::{Answer, Chip, File, PALETTE, REGISTERS};
use geometry::read_geometry;
use image::{IMAGE, Loaded, REST, SET, fits, held, load, rest_of, save, set_bytes, set_in};
use plan::{plan, short_plan};
use restoring::restore;
use short_restoring::short_restore;
use timing::{read_timing, write_timing};
use trace::run;

// Where palette and bank begin in a rest; the state's bytes stand before the palette.
const PALETTE_AT: usize = 10;

const BANK_AT: usize = PALETTE_AT + 3 * PALETTE;

// The version of an image.
const VERSION: u32 = 1;

// How much of each thing there is, where palette and bank begin in a rest, and how many numbers each list has: what the header says too.
#[unsafe(no_mangle)]
pub extern "C" fn sedgecoil_layout(what: u32) -> u32
    ensures { result ≡ layout_of what }
{
    let sizes = [
        REGISTERS as u32,
        REST as u32,
        SET as u32,
        IMAGE as u32,
        VERSION,
        PALETTE_AT as u32,
        BANK_AT as u32,
        TIMING as u32,
        CURSOR as u32,
        WINDOW as u32,
        CAPTURE as u32,
        REACH as u32,
    ];
    if (what as usize) < sizes.len() {
        sizes[what as usize]
    } else {
        0
    }
}

// An answer's code as a number of the C interface.
fn code(answer: Answer) -> u32
    ensures { result ≡ code_of answer }
{
    u32::from(answer.code())
}

// Every answer refuses but 0, done, and 1, where the index names no register.
fn is_refused(answer: Answer) -> bool
    ensures { result ≡ refused answer }
{
    match answer {
        Answer::Done(_) | Answer::NoRegister => false,
        _ => true,
    }
}

// The file of a chip's number.
fn powered(chip: u8) -> File
    ensures { result ≡ power_on (chip_in chip) }
{
    if chip == 0 {
        return File::power_on(Chip::Gd5462);
    }
    File::power_on(Chip::Gd5464)
}

// A file put where its parts stand. In place of its call the file lies in a place of its own; as a call of its own it would ask the C library for `memmove`.
#[inline(always)]
fn put_file(registers: &mut [u16; REGISTERS], rest: &mut [u8; REST], file: File)
    ensures { (registers.new ≡ file.registers) × (rest.new ≡ rest_of file) }
{
    let words = file.registers;
    *registers = words;
    *rest = rest_of(file);
}

// Two rests are both a file's.
fn fit(rest: &[u8; REST], others: &[u8; REST]) -> bool
    ensures { result ≡ (fits_in rest.now && fits_in others.now) }
{
    fits(rest) && fits(others)
}

// The file at power-on; 2 for a chip that is none.
#[unsafe(no_mangle)]
pub extern "C" fn sedgecoil_power_on_parts(
    registers: &mut [u16; REGISTERS],
    rest: &mut [u8; REST],
    chip: u8,
) -> u32
    ensures { (result ≡ (powered_on chip registers.old rest.old).code) × (registers.new ≡ (powered_on chip registers.old rest.old).registers) × (rest.new ≡ (powered_on chip registers.old rest.old).rest) }
{
    if 1 < chip {
        return code(Answer::Malformed);
    }
    put_file(registers, rest, powered(chip));
    0
}

// One access: its reply's value in the low 16 bits, its code above.
#[unsafe(no_mangle)]
pub extern "C" fn sedgecoil_access_parts(
    registers: &mut [u16; REGISTERS],
    rest: &mut [u8; REST],
    asked: u64,
) -> u32
    ensures { AccessLeft (record_in asked) registers.old rest.old registers.new rest.new result }
{
    serving::access_in(registers, rest, asked)
}

// The fifteen timing numbers, in 01's order: 0, or 12 with the numbers as they were.
#[unsafe(no_mangle)]
pub extern "C" fn sedgecoil_timing_parts(
    registers: &[u16; REGISTERS],
    rest: &[u8; REST],
    numbers: &mut [u32; TIMING],
) -> u32
    ensures { (result ≡ (timing_read registers.now rest.now numbers.old).code) × (numbers.new ≡ (timing_read registers.now rest.now numbers.old).numbers) }
{
    if !fits(rest) {
        return code(Answer::NotSound);
    }
    let read = read_timing(held(*registers, *rest));
    lists::leave_read(rest, read.answer, read.timing.numbers(), numbers)
}

// Writes fifteen timing numbers into the registers: 12, 8 or 10 with them as they were, or 0.
#[unsafe(no_mangle)]
pub extern "C" fn sedgecoil_timing_write_parts(
    registers: &mut [u16; REGISTERS],
    rest: &[u8; REST],
    numbers: &[u32; TIMING],
) -> u32
    ensures { TimingLeft numbers.now registers.old rest.now registers.new result }
{
    if !fits(rest) {
        return code(Answer::NotSound);
    }
    let written = write_timing(held(*registers, *rest), lists::timing_of(*numbers));
    let file = written.file;
    let words_after = file.registers;
    *registers = words_after;
    code(written.answer)
}

// The cursor as six numbers, of which left and top are signed: 0, or 12 with the numbers as they were. It, `sedgecoil_window_parts` and
// `sedgecoil_capture_parts` are three names of the C interface, each with a list of its own; what they share is `lists::leave_read`.
#[unsafe(no_mangle)]
pub extern "C" fn sedgecoil_cursor_parts(
    registers: &[u16; REGISTERS],
    rest: &[u8; REST],
    numbers: &mut [i32; CURSOR],
) -> u32
    ensures { (result ≡ (cursor_read registers.now rest.now numbers.old).code) × (numbers.new ≡ (cursor_read registers.now rest.now numbers.old).numbers) }
{
    if !fits(rest) {
        return code(Answer::NotSound);
    }
    let read = read_geometry(held(*registers, *rest));
    lists::leave_read(
        rest,
        read.answer,
        lists::cursor_numbers(read.cursor),
        numbers,
    )
}

// Window 2 as ten numbers: 0, or 12 with the numbers as they were.
#[unsafe(no_mangle)]
pub extern "C" fn sedgecoil_window_parts(
    registers: &[u16; REGISTERS],
    rest: &[u8; REST],
    numbers: &mut [u32; WINDOW],
) -> u32
    ensures { (result ≡ (window_read registers.now rest.now numbers.old).code) × (numbers.new ≡ (window_read registers.now rest.now numbers.old).numbers) }
{
    if !fits(rest) {
        return code(Answer::NotSound);
    }
    let read = read_geometry(held(*registers, *rest));
    lists::leave_read(
        rest,
        read.answer,
        lists::window_numbers(read.window),
        numbers,
    )
}

// The capture window as four numbers: 0, or 12 with the numbers as they were.
#[unsafe(no_mangle)]
pub extern "C" fn sedgecoil_capture_parts(
    registers: &[u16; REGISTERS],
    rest: &[u8; REST],
    numbers: &mut [u32; CAPTURE],
) -> u32
    ensures { (result ≡ (capture_read registers.now rest.now numbers.old).code) × (numbers.new ≡ (capture_read registers.now rest.now numbers.old).numbers) }
{
    if !fits(rest) {
        return code(Answer::NotSound);
    }
    let read = read_geometry(held(*registers, *rest));
    lists::leave_read(
        rest,
        read.answer,
        lists::capture_numbers(read.capture),
        numbers,
    )
}

// What an access may change, as nine numbers: 0, or 12 with the numbers as they were.
#[unsafe(no_mangle)]
pub extern "C" fn sedgecoil_reach_parts(
    registers: &[u16; REGISTERS],
    rest: &[u8; REST],
    asked: u64,
    numbers: &mut [usize; REACH],
) -> u32
    ensures { (result ≡ (reach_told registers.now rest.now (record_in asked) numbers.old).code) × (numbers.new ≡ (reach_told registers.now rest.now (record_in asked) numbers.old).numbers) }
{
    if !fits(rest) {
        return code(Answer::NotSound);
    }
    match serving::record_in(asked).reach(held(*registers, *rest)) {
        Err(refusal) => code(refusal),
        Ok(reach) => {
            *numbers = lists::reach_numbers(reach);
            0
        }
    }
}

// Saves a file, with its set where `kept` isn't 0: 12, 11, or 0 with the image in the buffer's first bytes.
#[unsafe(no_mangle)]
pub extern "C" fn sedgecoil_save_parts(
    registers: &[u16; REGISTERS],
    rest: &[u8; REST],
    set: &[u8; SET],
    kept: u8,
    buffer: &mut [u8],
) -> u32
    ensures value { result ≡ code_of (save_answer registers.now rest.now buffer.old) }
    ensures buffer_after { buffer.new ≡ saved_in (is_set kept) registers.now rest.now set.now buffer.old }
{
    code(save(kept != 0, *registers, *rest, *set, buffer))
}

// Loads an image: 0, or 12 with all as it was. A set that the image doesn't keep stays.
#[unsafe(no_mangle)]
pub extern "C" fn sedgecoil_load_parts(
    registers: &mut [u16; REGISTERS],
    rest: &mut [u8; REST],
    set: &mut [u8; SET],
    image: &[u8],
) -> u32
    ensures { (result ≡ code_told (loaded_from image.now set.old)) × (registers.new ≡ registers_told (loaded_from image.now set.old) registers.old) × (rest.new ≡ rest_told (loaded_from image.now set.old) rest.old) × (set.new ≡ set_told (loaded_from image.now set.old) set.old) }
{
    match load(image, *set) {
        Ok(loaded) => {
            let Loaded {
                registers: words,
                rest: bytes,
                set: named,
            } = loaded;
            *registers = words;
            *rest = bytes;
            *set = named;
            0
        }
        Err(answer) => code(answer),
    }
}

// A plan of the file: 12, 13, 11, or 0 with so many records in the buffer. The ends of a plan and of a restore are matched in each of the four: they have two error
// types, and a restore writes more than the count where it is done.
#[unsafe(no_mangle)]
pub extern "C" fn sedgecoil_plan_parts(
    registers: &[u16; REGISTERS],
    rest: &[u8; REST],
    buffer: &mut [u8],
    count: &mut usize,
) -> u32
    ensures { PlanTold registers.now rest.now buffer.old result count.new buffer.new }
{
    *count = 0;
    if !fits(rest) {
        return code(Answer::NotSound);
    }
    match plan(held(*registers, *rest), buffer) {
        Ok(made) => {
            *count = made;
            0
        }
        Err(answer) => u32::from(answer.code()),
    }
}

// A run over a trace into replies: 12, or 0 with so many replies and the file after them.
#[unsafe(no_mangle)]
pub extern "C" fn sedgecoil_run_parts(
    registers: &mut [u16; REGISTERS],
    rest: &mut [u8; REST],
    trace: &[u8],
    replies: &mut [u8],
    count: &mut usize,
) -> u32
    ensures { RunTold registers.old rest.old trace.now replies.old result count.new registers.new rest.new replies.new }
{
    *count = 0;
    if !fits(rest) {
        return code(Answer::NotSound);
    }
    let ran = run(held(*registers, *rest), trace, replies);
    *count = ran.count;
    if is_refused(ran.answer) {
        return code(ran.answer);
    }
    put_file(registers, rest, ran.file);
    code(ran.answer)
}

// Restores the first file to the second by a plan: 12, 15, 13, 11, or 0 with the plan's records in the buffer and the file that they lead to.
#[unsafe(no_mangle)]
pub extern "C" fn sedgecoil_restore_parts(
    registers: &mut [u16; REGISTERS],
    rest: &mut [u8; REST],
    wanted: &[u16; REGISTERS],
    others: &[u8; REST],
    buffer: &mut [u8],
    count: &mut usize,
) -> u32
    ensures { RestoreTold registers.old rest.old wanted.now others.now buffer.old result count.new registers.new rest.new buffer.new }
{
    *count = 0;
    if !fit(rest, others) {
        return code(Answer::NotSound);
    }
    let restored = restore(held(*registers, *rest), held(*wanted, *others), buffer);
    match restored.count {
        Ok(made) => {
            *count = made;
            put_file(registers, rest, restored.file);
            0
        }
        Err(answer) => u32::from(answer.code()),
    }
}

// Notes in a set what an access may change, before it is made: 0, or 12 with the set as it was.
#[unsafe(no_mangle)]
pub extern "C" fn sedgecoil_note_parts(
    registers: &[u16; REGISTERS],
    rest: &[u8; REST],
    set: &mut [u8; SET],
    asked: u64,
) -> u32
    ensures { NoteTold registers.now rest.now set.old (record_in asked) result set.new }
{
    if !fits(rest) {
        return code(Answer::NotSound);
    }
    match serving::record_in(asked).reach(held(*registers, *rest)) {
        Err(refusal) => code(refusal),
        Ok(reach) => {
            *set = set_bytes(set_in(*set).note(reach));
            0
        }
    }
}

// A short plan from the first file to the second: 12, 15, 13, 20, 11, or 0 with so many records in the buffer.
#[unsafe(no_mangle)]
pub extern "C" fn sedgecoil_short_plan_parts(
    registers: &[u16; REGISTERS],
    rest: &[u8; REST],
    saved: &[u16; REGISTERS],
    others: &[u8; REST],
    set: &[u8; SET],
    buffer: &mut [u8],
    count: &mut usize,
) -> u32
    ensures { ShortTold registers.now rest.now saved.now others.now set.now buffer.old result count.new buffer.new }
{
    *count = 0;
    if !fit(rest, others) {
        return code(Answer::NotSound);
    }
    let current = held(*registers, *rest);
    let wanted = held(*saved, *others);
    let touched = set_in(*set);
    match short_plan(current, wanted, touched, buffer) {
        Ok(made) => {
            *count = made;
            0
        }
        Err(answer) => u32::from(answer.code()),
    }
}

// Restores the first file to the second by a short plan; where that is done the set is empty. It and `sedgecoil_restore_parts` are two names of the C
// interface, and the set and its refusals are of this one alone; what they share is `fit` and `put_file`.
#[unsafe(no_mangle)]
pub extern "C" fn sedgecoil_short_restore_parts(
    registers: &mut [u16; REGISTERS],
    rest: &mut [u8; REST],
    saved: &[u16; REGISTERS],
    others: &[u8; REST],
    set: &mut [u8; SET],
    buffer: &mut [u8],
    count: &mut usize,
) -> u32
    ensures { ShortRestoreTold registers.old rest.old saved.now others.now set.old buffer.old result count.new registers.new rest.new set.new buffer.new }
{
    *count = 0;
    if !fit(rest, others) {
        return code(Answer::NotSound);
    }
    let current = held(*registers, *rest);
    let wanted = held(*saved, *others);
    let touched = set_in(*set);
    let restored = short_restore(current, wanted, touched, buffer);
    match restored.count {
        Ok(made) => {
            *count = made;
            put_file(registers, rest, restored.file);
            *set = set_bytes(restored.touched);
            0
        }
        Err(answer) => u32::from(answer.code()),
    }
}
