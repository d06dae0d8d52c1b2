// Registers stored where they stand.
ghost use Rattle.std.specs.Prelude.{◌≡◌, List, ℕ, ◌<◌, ◌≤◌, get_or, set};
ghost use Rattle.bits.specs.Store.{store as storeBits};
ghost use Rattle.file.specs.declared.state.State.{State};
ghost use Rattle.file.specs.File.{seen};
ghost use Rattle.file.specs.Names.{CR0 as CR0Number, CR7 as CR7Number};
ghost use Rattle.file.specs.Registers.{register_count};
ghost use Rattle.places.specs.EngineCells.{attribute_place, behind_cell};
ghost use Rattle.places.specs.Profile.{profile};
ghost use Rattle.access.specs.Engine.{decided_write};
ghost use Rattle.quick.specs.Smalls.{smalls_of};
ghost use Rattle.quick.specs.Turned.{Stored, Turned, Coded};

use crate::classes::{CLASSES, codes_of};
use crate::said::told;
use crate::smalls::{SMALLS, TOGGLE};
use access::is_locked;
use file::{ARX, CR0, CR6, CR7, MISC, PCI04, REGISTERS};
use places::CELLS;

// The cell of a 3C0h write.
const ATTRIBUTE: u8 = 0x7C;

fn store_in(registers: &mut [u16; REGISTERS], number: usize, reach: u16, value: u16)
    requires { number < register_count }
    ensures { registers.new ≡ set registers.old number (storeBits reach (get_or registers.old number 0) value) }
{
    registers[number] = bits::store(reach, registers[number], value);
}

// CR0 to CR7, which the lock shuts or, of CR7, all bits but one.
fn write_lockable(
    stored: &[u16; REGISTERS],
    registers: &mut [u16; REGISTERS],
    number: usize,
    value: u16,
) -> u64
    requires { (CR0Number ≤ number) × (number ≤ CR7Number) }
    ensures { Stored stored.now registers.old number value registers.new result }
{
    if is_locked(registers) {
        if number <= CR6 {
            return told(8, 0);
        }
        store_in(registers, number, 0x10, value);
        return told(0, 0);
    }
    store_in(registers, number, stored[number], value);
    told(0, 0)
}

// A register that no lock shuts and no check goes by: one behind CR7.
pub fn write_free(
    stored: &[u16; REGISTERS],
    registers: &mut [u16; REGISTERS],
    number: usize,
    value: u16,
) -> u64
    requires { (CR7Number < number) × (number < register_count) }
    ensures { Stored stored.now registers.old number value registers.new result × ((codes : List ℕ) → Coded registers.old codes registers.new codes) }
{
    store_in(registers, number, stored[number], value);
    told(0, 0)
}

// A register before CR0; what the checks go by is told anew where PCI04 or MISC is stored.
fn write_low(
    stored: &[u16; REGISTERS],
    registers: &mut [u16; REGISTERS],
    codes: &mut [u8; CLASSES],
    number: usize,
    value: u16,
) -> u64
    requires { number < CR0Number }
    ensures { Stored stored.now registers.old number value registers.new result × Coded registers.old codes.old registers.new codes.new }
{
    store_in(registers, number, stored[number], value);
    if number == PCI04 || number == MISC {
        *codes = codes_of(registers);
        return told(0, 0);
    }
    told(0, 0)
}

// A register.
pub fn write_register(
    stored: &[u16; REGISTERS],
    registers: &mut [u16; REGISTERS],
    codes: &mut [u8; CLASSES],
    number: usize,
    value: u16,
) -> u64
    requires { number < register_count }
    ensures { Stored stored.now registers.old number value registers.new result × Coded registers.old codes.old registers.new codes.new }
{
    if CR0 <= number {
        if number <= CR7 {
            return write_lockable(stored, registers, number, value);
        }
        return write_free(stored, registers, number, value);
    }
    write_low(stored, registers, codes, number, value)
}

// A write of 3C0h: the index, or the register behind it, which is one behind CR7. The toggle flips.
pub fn write_attribute(
    cells: &[u8; CELLS],
    stored: &[u16; REGISTERS],
    registers: &mut [u16; REGISTERS],
    smalls: &mut [u8; SMALLS],
    value: u16,
) -> u64
    ensures { CR7Number < behind_cell cells.now registers.old 0x7C → ((s : State) → smalls.old ≡ smalls_of s → Turned (decided_write stored.now (seen registers.old s) (profile (attribute_place s.toggle (behind_cell cells.now registers.old 0x7C))).writing value) (seen registers.old s) registers.new smalls.new result) × ((codes : List ℕ) → Coded registers.old codes registers.new codes) }
{
    if smalls[TOGGLE] != 1 {
        store_in(registers, ARX, stored[ARX], value);
        smalls[TOGGLE] = 1;
        return told(0, 0);
    }
    smalls[TOGGLE] = 0;
    let number = places::behind(cells, registers, ATTRIBUTE) as usize;
    if number < REGISTERS {
        store_in(registers, number, stored[number], value);
        return told(0, 0);
    }
    told(1, 0)
}
