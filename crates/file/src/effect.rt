ghost use Rattle.std.specs.Prelude.{◌≡◌};
ghost use Rattle.file.specs.declared.effect.Effect.TheVariants.{Nothing};
ghost use Rattle.file.specs.Effects.{store_in, paint_in, apply as applyTo, reach_of};
ghost use Rattle.file.specs.File.{with_state};

use crate::palette::{Colour, Pointer};
use crate::registers::{BANK, File, PALETTE, REGISTERS};
use crate::state::State;

// What an access does to the file.
#[derive(Clone, Copy, Debug, PartialEq, Eq)]
pub enum Effect {
    Nothing,
    // the register takes the value inside the reach; a write of 3C0h flips the toggle too
    Store {
        flips: bool,
        register: usize,
        reach: u16,
        value: u16,
    },
    // the toggle's new state
    Toggle(bool),
    // the pointer's new state
    Move(Pointer),
    // a pixel data access that stores no entry: the pointer behind it, and its marks
    Step {
        pointer: Pointer,
        marks: u8,
    },
    // an entry of the bank or the palette, the pointer behind it, and the marks
    Paint {
        bank: bool,
        entry: usize,
        pointer: Pointer,
        colour: Colour,
        marks: u8,
    },
    // lines pass: the line that the display is at then
    Pass(u16),
}

// What an access may change: bits of one register, the toggle, the pointer, the marks, the line, an entry of the bank or the palette.
#[derive(Clone, Copy, Debug, PartialEq, Eq)]
pub struct Reach {
    pub register: usize,
    pub bits: u16,
    pub toggle: bool,
    pub pointer: bool,
    pub marks: bool,
    pub line: bool,
    pub palette: bool,
    pub bank: bool,
    pub entry: usize,
}

// One register stored: the old bits outside the reach, the value's inside it.
fn stored(mut file: File, number: usize, reach: u16, value: u16) -> File
    ensures { result ≡ store_in number reach value file }
{
    if number < REGISTERS {
        file.registers[number] = bits::store(reach, file.registers[number], value);
    }
    file
}

// One entry stored, in the bank or the palette.
fn painted(mut file: File, bank: bool, entry: usize, colour: Colour) -> File
    ensures { result ≡ paint_in bank entry colour file }
{
    if bank {
        if entry < BANK {
            file.bank[entry] = colour;
        }
    } else if entry < PALETTE {
        file.palette[entry] = colour;
    }
    file
}

#[tactic(auto, unfolding(crate::specs::File::with_state))]
fn stated(file: File, state: State) -> File
    ensures { result ≡ with_state state file }
{
    File { state, ..file }
}

impl Effect {
    // The file after the effect: the one place where an access changes a file.
    pub fn apply(self, file: File) -> File
        ensures { result ≡ applyTo self file }
    {
        match self {
            Effect::Nothing => file,
            Effect::Store {
                register,
                reach,
                value,
                flips,
            } => stated(
                stored(file, register, reach, value),
                file.state.flipped(flips),
            ),
            Effect::Toggle(toggle) => stated(file, file.state.toggling(toggle)),
            Effect::Move(pointer) => stated(file, file.state.pointing(pointer)),
            Effect::Step { pointer, marks } => stated(file, file.state.stepping(pointer, marks)),
            Effect::Paint {
                bank,
                entry,
                pointer,
                colour,
                marks,
            } => stated(
                painted(file, bank, entry, colour),
                file.state.stepping(pointer, marks),
            ),
            Effect::Pass(line) => stated(file, file.state.passing(line)),
        }
    }

    // What the effect may change.
    #[tactic(auto, unfolding(crate::specs::Effects::reach_of))]
    pub fn reach(self) -> Reach
        ensures { result ≡ reach_of self }
    {
        match self {
            Effect::Nothing => Reach::none(),
            Effect::Store {
                register,
                reach,
                value: _,
                flips,
            } => Reach {
                register,
                bits: reach,
                toggle: flips,
                ..Reach::none()
            },
            Effect::Toggle(_) => Reach {
                toggle: true,
                ..Reach::none()
            },
            Effect::Move(_) => Reach {
                pointer: true,
                ..Reach::none()
            },
            Effect::Step {
                pointer: _,
                marks: _,
            } => Reach {
                pointer: true,
                marks: true,
                ..Reach::none()
            },
            Effect::Paint {
                bank,
                entry,
                pointer: _,
                colour: _,
                marks: _,
            } => Reach {
                pointer: true,
                marks: true,
                palette: !bank,
                bank,
                entry,
                ..Reach::none()
            },
            Effect::Pass(_) => Reach {
                line: true,
                ..Reach::none()
            },
        }
    }
}

impl Reach {
    // Nothing at all.
    #[tactic(auto, unfolding(crate::specs::Effects::reach_of))]
    pub fn none() -> Reach
        ensures { result ≡ reach_of Nothing }
    {
        Reach {
            register: 0,
            bits: 0,
            toggle: false,
            pointer: false,
            marks: false,
            line: false,
            palette: false,
            bank: false,
            entry: 0,
        }
    }
}
