// 01's runs of plan and restore over the compiled code, a line for each: code, count, and what became of file and buffer.
#![tactic(auto)]

use file::{Answer, Chip, Colour, File, Pointer, REGISTERS, State};
use paper::set_register;
use plan::plan;
use restoring::restore;
use std::io;

// What every buffer is filled with before.
const FILL: u8 = 0xA5;

// The same file: all but the line is.
fn same(a: File, b: File) -> bool {
    a.registers == b.registers
        && a.palette == b.palette
        && a.bank == b.bank
        && a.state.passing(0) == b.state.passing(0)
}

// A number that differs from place to place.
fn word_at(i: usize) -> u16 {
    (i % 65536 * 40503 % 65536) as u16
}

fn colour_at(i: usize) -> Colour {
    Colour {
        red: (word_at(i) / 256) as u8,
        green: (word_at(i) % 256) as u8,
        blue: (i % 256) as u8,
    }
}

fn varied_registers(chip: Chip) -> [u16; REGISTERS] {
    let mut registers = [0u16; REGISTERS];
    for (i, register) in registers.iter_mut().enumerate() {
        *register = bits::store(File::stored_bits(chip, i), 0, word_at(i + 1));
    }
    registers
}

// A file that has other values nearly everywhere: the pointer in read mode, the toggle at data, the marks at read, green, line 1000.
fn varied(chip: Chip) -> File {
    let mut palette = [colour_at(0); 256];
    let mut bank = [colour_at(0); 16];
    for (i, entry) in palette.iter_mut().enumerate() {
        *entry = colour_at(i);
    }
    for (i, entry) in bank.iter_mut().enumerate() {
        *entry = colour_at(i + 1240);
    }
    File {
        registers: varied_registers(chip),
        palette,
        bank,
        state: State {
            pointer: Pointer::addressed(true, 0x7B),
            toggle: true,
            marks: 5,
            chip,
            line: 1000,
        },
    }
}

fn pointer_before(next: u8, red: u8, green: u8) -> Pointer {
    Pointer {
        address: 255,
        reading: true,
        next,
        red,
        green,
    }
}

// Every stored bit set: locked by CR11, powered down and at the bank by B0; white, the toggle at data, the pointer before blue with two held bytes, the marks at read, red, line 2048.
fn everything_set(chip: Chip) -> File {
    let white = Colour {
        red: 255,
        green: 255,
        blue: 255,
    };
    File {
        registers: File::stored(chip),
        palette: [white; 256],
        bank: [white; 16],
        state: State {
            pointer: pointer_before(2, 0x5A, 0xC3),
            toggle: true,
            marks: 4,
            chip,
            line: 2048,
        },
    }
}

fn with_pointer(mut file: File, pointer: Pointer) -> File {
    file.state = file.state.pointing(pointer);
    file
}

// A code and a count: of a refusal its code, and 0.
fn print_told(rt: &impl Print, title: &str, told: Result<usize, Answer>) -> io::Result<()> {
    let code = told.map_or_else(Answer::code, |_| 0);
    let count = told.unwrap_or(0);
    rt.print(title)?;
    print!(rt; "{code} {count}")
}

// A plan's code and count, and whether the buffer behind it is as found.
fn print_plan(rt: &impl Print, title: &str, wanted: File, buffer: &mut [u8]) -> io::Result<()> {
    let planned = plan(wanted, buffer);
    print_told(rt, title, planned)?;
    print_found(rt, buffer, planned.unwrap_or(0))
}

fn print_found(rt: &impl Print, buffer: &[u8], count: usize) -> io::Result<()> {
    if count <= 1024 && buffer.iter().skip(8 * count).all(|byte| *byte == FILL) {
        rt.print(", the rest as found")?;
    }
    rt.println("")
}

// A restore's code and count, which file it ended in, and whether its line is the current file's.
fn print_restore(rt: &impl Print, title: &str, current: File, wanted: File) -> io::Result<()> {
    let mut buffer = [FILL; 8192];
    let restored = restore(current, wanted, &mut buffer);
    print_told(rt, title, restored.count)?;
    if same(restored.file, wanted) {
        rt.print(", the wanted file")?;
    }
    if same(restored.file, current) {
        rt.print(", the file as given")?;
    }
    if restored.file.state.line == current.state.line {
        rt.print(", the line as given")?;
    }
    print_found(rt, &buffer, restored.count.unwrap_or(0))
}

fn print_colour(rt: &impl Print, colour: Colour) -> io::Result<()> {
    let red = colour.red;
    let green = colour.green;
    let blue = colour.blue;
    print!(rt; "{red} {green} {blue}")
}

// What a host reads of the file that a restore ends in: a register by its name, the last entries, the pointer's address.
fn print_reads(rt: &impl Print, current: File, wanted: File) -> io::Result<()> {
    let mut buffer = [FILL; 8192];
    let end = restore(current, wanted, &mut buffer).file;
    rt.print("E8 ")?;
    rt.print(end.register_named(b"E8").unwrap_or(0))?;
    rt.print(", palette ")?;
    print_colour(rt, end.palette_entry(255).unwrap_or_default())?;
    rt.print(", bank ")?;
    print_colour(rt, end.bank_entry(15).unwrap_or_default())?;
    rt.print(", address ")?;
    rt.println(end.pointer_now().map_or(0, |pointer| pointer.address))
}

fn plans(rt: &impl Print, chip: Chip) -> io::Result<()> {
    let mut short = [FILL; 8191];
    print_plan(rt, "plan, 8191 bytes: ", varied(chip), &mut short)?;
    let mut room = [FILL; 8192];
    print_plan(rt, "plan, 8192 bytes: ", varied(chip), &mut room)?;
    let mut buffer = [FILL; 8192];
    let green = with_pointer(varied(chip), pointer_before(1, 0, 0));
    print_plan(rt, "plan, before green: ", green, &mut buffer)?;
    let blue = with_pointer(varied(chip), pointer_before(2, 0, 0));
    print_plan(rt, "plan, before blue: ", blue, &mut buffer)?;
    let unsound = with_pointer(varied(chip), pointer_before(1, 0, 7));
    print_plan(rt, "plan, held green too early: ", unsound, &mut buffer)
}

fn restores(rt: &impl Print, chip: Chip) -> io::Result<()> {
    let wanted = varied(chip);
    let all = everything_set(chip);
    print_restore(rt, "restore from power-on: ", File::power_on(chip), wanted)?;
    print_restore(rt, "restore from everything set: ", all, wanted)?;
    let closed = set_register(all, 6, 0); // PCI04
    print_restore(rt, "restore from a closed card: ", closed, wanted)?;
    print_reads(rt, closed, wanted)?;
    print_restore(rt, "restore to power-on: ", all, File::power_on(chip))?;
    let unsound = with_pointer(all, pointer_before(3, 0, 0));
    print_restore(rt, "restore of an unsound file: ", unsound, wanted)?;
    print_restore(rt, "restore to an unsound file: ", wanted, unsound)
}

// From a file of the other chip: 15, also where the wanted file's pointer stands inside an entry.
fn between(rt: &impl Print, chip: Chip, other: Chip) -> io::Result<()> {
    print_restore(
        rt,
        "restore from the other chip: ",
        varied(other),
        varied(chip),
    )?;
    let blue = with_pointer(varied(chip), pointer_before(2, 0, 0));
    print_restore(rt, "restore from it, before blue: ", varied(other), blue)
}

fn main(rt: HostRuntime) -> io::Result<()> {
    rt.println("5464")?;
    plans(&rt, Chip::Gd5464)?;
    restores(&rt, Chip::Gd5464)?;
    between(&rt, Chip::Gd5464, Chip::Gd5462)?;
    rt.println("5462")?;
    plans(&rt, Chip::Gd5462)?;
    restores(&rt, Chip::Gd5462)?;
    between(&rt, Chip::Gd5462, Chip::Gd5464)
}
