// The small parts of a file as they stand in a run: seven bytes and the line. They are lent by `&mut` one by one, which a state by value makes slower.
ghost use Rattle.std.specs.Prelude.{◌≡◌, cond};
ghost use Rattle.quick.specs.Smalls.{smalls_of, state_of};

use file::{Chip, Pointer, State};

// The places of the bytes.
pub const ADDRESS: usize = 0;

pub const READING: usize = 1;

pub const NEXT: usize = 2;

pub const RED: usize = 3;

pub const GREEN: usize = 4;

pub const MARKS: usize = 5;

pub const TOGGLE: usize = 6;

pub const SMALLS: usize = 7;

fn byte_of(on: bool) -> u8
    ensures { result ≡ cond on 1 0 }
{
    if on { 1 } else { 0 }
}

// The state of these bytes.
pub fn state_in(smalls: &[u8; SMALLS], line: u16, chip: Chip) -> State
    ensures { result ≡ state_of chip line smalls.now }
{
    State {
        line,
        pointer: Pointer {
            address: smalls[ADDRESS],
            reading: smalls[READING] == 1,
            next: smalls[NEXT],
            red: smalls[RED],
            green: smalls[GREEN],
        },
        marks: smalls[MARKS],
        toggle: smalls[TOGGLE] == 1,
        chip,
    }
}

// The bytes of a state.
pub fn smalls_of(state: State) -> [u8; SMALLS]
    ensures { result ≡ smalls_of state }
{
    let pointer = state.pointer;
    [
        pointer.address,
        byte_of(pointer.reading),
        pointer.next,
        pointer.red,
        pointer.green,
        state.marks,
        byte_of(state.toggle),
    ]
}
