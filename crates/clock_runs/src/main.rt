// The dot clock of files, run over the compiled code. Standard input has nine bytes for each: MISC, SR0B to SR0E and SR1B to SR1E, which
// stand in a file at power-on as they are, so that a bit that isn't stored makes it unsound. A line for each: the code, the rate's bits in
// hex or `none`, and both whole numbers.
#![tactic(auto)]

use clock::{ClockRead, clock};
use file::{Chip, File, MISC};
use program_input::read_full;
use std::io;
use std::io::Read;

// Where MISC, SR0B to SR0E and SR1B to SR1E stand in a file.
const NUMBERS: [usize; 9] = [MISC, 15, 16, 17, 18, 21, 22, 23, 24];

fn file_of(set: [u8; 9]) -> File {
    let mut file = File::power_on(Chip::Gd5464);
    for (number, byte) in NUMBERS.iter().zip(&set) {
        file.registers[*number] = u16::from(*byte);
    }
    file
}

// A rate's bits in hex. `f64::to_bits` takes no NaN: the test keeps one out, though `clock` gives none.
fn print_bits(rt: &impl Print, hertz: f64) -> io::Result<()> {
    if hertz >= 0.0 {
        let bits = f64::to_bits(hertz);
        print!(rt; "{bits:016x}")
    } else {
        rt.print("no rate")
    }
}

fn print_clock(rt: &impl Print, read: ClockRead) -> io::Result<()> {
    let ClockRead {
        answer,
        clock,
        terms,
    } = read;
    rt.print(answer.code())?;
    rt.print(" ")?;
    match clock {
        Some(hertz) => print_bits(rt, hertz)?,
        None => rt.print("none")?,
    }
    println!(rt; " {}/{}", terms.p, terms.q)
}

// The next nine bytes, if there are so many.
fn read_set<I: Read>(from: &mut I) -> io::Result<Option<[u8; 9]>> {
    let mut set = [0; 9];
    let count = read_full(from, &mut set)?;
    Ok(if count == set.len() { Some(set) } else { None })
}

// A proved loop has to end: this one does after a million sets.
fn main(rt: HostRuntime) -> io::Result<()> {
    let mut from = rt.reader();
    for _ in 0..1000000 {
        let Some(set) = read_set(&mut from)? else {
            return Ok(());
        };
        print_clock(&rt, clock(file_of(set)))?;
    }
    Ok(())
}
