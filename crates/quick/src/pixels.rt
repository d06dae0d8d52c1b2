// The palette pointer's places, on the bytes of the state.
ghost use Rattle.std.specs.Prelude.{◌≡◌, true, cond, List, [], ℕ, ◌+◌, ◌%◌, eqb};
ghost use Rattle.file.specs.declared.state.State.{State};
ghost use Rattle.file.specs.File.{seen};
ghost use Rattle.file.specs.Palette.{addressed, after_read, marks_from};
ghost use Rattle.file.specs.State.{pointing, stepping};
ghost use Rattle.places.specs.Profile.{gives_pixel, sets_address, writes_pixel};
ghost use Rattle.access.specs.Engine.{decided_read, decided_write};
ghost use Rattle.quick.specs.Smalls.{smalls_of};
ghost use Rattle.quick.specs.Turned.{Turned};

use crate::said::{painted, shown, told};
use crate::smalls::{ADDRESS, GREEN, MARKS, NEXT, READING, RED, SMALLS};
use access::{is_in_bank, is_palette_up};
use file::{Colour, REGISTERS};

fn risen(address: u8) -> u8
    ensures { result ≡ (address + 1) % 256 }
{
    if address == 255 { 0 } else { address + 1 }
}

// After blue: the next entry's red.
fn rise(smalls: &mut [u8; SMALLS])
    ensures { (s : State) → smalls.old ≡ smalls_of s → smalls.new ≡ smalls_of (pointing (addressed s.pointer.reading ((s.pointer.address + 1) % 256)) s) }
{
    let address = smalls[ADDRESS];
    smalls[ADDRESS] = risen(address);
    smalls[NEXT] = 0;
    smalls[RED] = 0;
    smalls[GREEN] = 0;
}

// The pointer and the marks behind a read.
fn step_read(smalls: &mut [u8; SMALLS])
    ensures { (s : State) → smalls.old ≡ smalls_of s → smalls.new ≡ smalls_of (stepping (after_read s.pointer) (marks_from true s.pointer) s) }
{
    let next = smalls[NEXT];
    match next {
        0 => {
            smalls[MARKS] = 4;
            smalls[NEXT] = 1;
        }
        1 => {
            smalls[MARKS] = 5;
            smalls[NEXT] = 2;
        }
        _ => {
            smalls[MARKS] = 6;
            rise(smalls);
        }
    }
}

// A pixel data read.
pub fn read_pixel(registers: &[u16; REGISTERS], smalls: &mut [u8; SMALLS]) -> u64
    ensures { (s : State) → smalls.old ≡ smalls_of s → Turned (decided_read (seen registers.now s) gives_pixel) (seen registers.now s) registers.now smalls.new result }
{
    if is_palette_up(registers) {
        let said = shown(smalls[ADDRESS], smalls[NEXT]);
        step_read(smalls);
        return said;
    }
    told(9, 0)
}

// A pixel data write: a byte held, or an entry painted.
pub fn write_pixel(registers: &[u16; REGISTERS], smalls: &mut [u8; SMALLS], byte: u8) -> u64
    ensures { (s : State) → smalls.old ≡ smalls_of s → Turned (decided_write [] (seen registers.now s) writes_pixel byte) (seen registers.now s) registers.now smalls.new result }
{
    if !is_palette_up(registers) {
        return told(9, 0);
    }
    let next = smalls[NEXT];
    match next {
        0 => {
            smalls[MARKS] = 0;
            smalls[NEXT] = 1;
            smalls[RED] = byte;
            told(0, 0)
        }
        1 => {
            smalls[MARKS] = 1;
            smalls[NEXT] = 2;
            smalls[GREEN] = byte;
            told(0, 0)
        }
        _ => {
            let colour = Colour {
                red: smalls[RED],
                green: smalls[GREEN],
                blue: byte,
            };
            let said = painted(is_in_bank(registers), colour, smalls[ADDRESS]);
            smalls[MARKS] = 2;
            rise(smalls);
            said
        }
    }
}

// A write of 3C7h or 3C8h: the address and the mode, which is 1 for reading.
pub fn set_address(smalls: &mut [u8; SMALLS], mode: u8, byte: u8) -> u64
    ensures { (registers : List ℕ) (s : State) → smalls.old ≡ smalls_of s → mode ≡ cond (eqb mode 1) 1 0 → Turned (decided_write [] (seen registers s) (sets_address (eqb mode 1)) byte) (seen registers s) registers smalls.new result }
{
    smalls[ADDRESS] = byte;
    smalls[READING] = mode;
    smalls[NEXT] = 0;
    smalls[RED] = 0;
    smalls[GREEN] = 0;
    told(0, 0)
}
