// An access at a cell that passed the checks, on a file's parts where they stand. Whatever table of cells is lent, each function answers.
ghost use Rattle.std.specs.Prelude.{◌≡◌, cond, ◌%◌, ◌<◌};
ghost use Rattle.file.specs.declared.state.State.{State};
ghost use Rattle.file.specs.File.{seen};
ghost use Rattle.file.specs.Names.{CR7 as CR7Number};
ghost use Rattle.places.specs.EngineCells.{behind_cell, cell_place, plain_place};
ghost use Rattle.places.specs.Profile.{profile};
ghost use Rattle.access.specs.Access.{display_state};
ghost use Rattle.access.specs.Engine.{decided_read, decided_write};
ghost use Rattle.quick.specs.Smalls.{smalls_of, state_of};
ghost use Rattle.quick.specs.Turned.{Turned, Coded};

use crate::classes::CLASSES;
use crate::pixels::{read_pixel, set_address, write_pixel};
use crate::said::told;
use crate::smalls::{ADDRESS, READING, SMALLS, TOGGLE, state_in};
use crate::stores::{write_attribute, write_free, write_register};
use file::{ARX, B0, CAPTURE_Y_START, Chip, REGISTERS};
use places::{CELLS, Place};

// What 3?Ah reads. At line 0 it is 0 unless the vertical sync starts there.
fn display(registers: &[u16; REGISTERS], smalls: &[u8; SMALLS], line: u16, chip: Chip) -> u16
    ensures { result ≡ display_state (seen registers.now (state_of chip line smalls.now)) }
{
    if line == 0 && 0 < timing::v_sync_start(registers).0 && 0 < timing::v_display(registers).0 {
        return 0;
    }
    access::display_state(registers, state_in(smalls, line, chip))
}

// A byte that reads so or as 0, by one test.
fn byte_if(on: bool, byte: u16) -> u16
    ensures { result ≡ cond on byte 0 }
{
    if on { byte } else { 0 }
}

// A read at the place that a cell names, whatever the file holds.
pub fn read_place(
    registers: &[u16; REGISTERS],
    smalls: &mut [u8; SMALLS],
    line: u16,
    chip: Chip,
    cell: u8,
) -> u64
    ensures { (s : State) → smalls.old ≡ smalls_of s → chip ≡ s.chip → line ≡ s.line → Turned (decided_read (seen registers.now s) (profile (plain_place cell)).reading) (seen registers.now s) registers.now smalls.new result }
{
    match places::plain(cell) {
        Place::Register(number) => told(0, registers[number]),
        Place::Attribute(number) => told(0, registers[number]),
        Place::Fixed(value) => told(0, value),
        Place::DeviceId => told(0, chip.device_id()),
        Place::ToggleState => told(0, byte_if(smalls[TOGGLE] == 1, 0x80)),
        Place::AttributeIndex => told(0, registers[ARX]),
        Place::PaletteState => told(
            0,
            access::palette_state(registers, state_in(smalls, line, chip)),
        ),
        Place::VPortState => told(
            0,
            access::v_port_state(registers, state_in(smalls, line, chip)),
        ),
        Place::ReadAddress => told(0, byte_if(smalls[READING] == 1, 3)),
        Place::WriteAddress => told(0, u16::from(smalls[ADDRESS])),
        Place::PixelData => read_pixel(registers, smalls),
        Place::ToggleReset => {
            let value = display(registers, smalls, line, chip);
            smalls[TOGGLE] = 0;
            told(0, value)
        }
        Place::Unnamed => told(1, 0),
        Place::UnnamedAttribute => told(1, 0),
        Place::CurrentLine => told(
            0,
            access::line_shown(registers, state_in(smalls, line, chip)),
        ),
        Place::Passing => told(1, 0),
    }
}

// A read at the place that a cell, or the one behind it, names.
pub fn turn_read(
    cells: &[u8; CELLS],
    registers: &[u16; REGISTERS],
    smalls: &mut [u8; SMALLS],
    line: u16,
    chip: Chip,
    cell: u8,
) -> u64
    ensures { cell < 0x7C → (s : State) → smalls.old ≡ smalls_of s → chip ≡ s.chip → line ≡ s.line → Turned (decided_read (seen registers.now s) (profile (cell_place cells.now (seen registers.now s) cell)).reading) (seen registers.now s) registers.now smalls.new result }
{
    let behind = places::behind(cells, registers, cell);
    read_place(registers, smalls, line, chip, behind)
}

// A write at such a place.
pub fn write_place(
    stored: &[u16; REGISTERS],
    registers: &mut [u16; REGISTERS],
    smalls: &mut [u8; SMALLS],
    codes: &mut [u8; CLASSES],
    cell: u8,
    value: u16,
) -> u64
    ensures { ((s : State) → smalls.old ≡ smalls_of s → Turned (decided_write stored.now (seen registers.old s) (profile (plain_place cell)).writing value) (seen registers.old s) registers.new smalls.new result) × Coded registers.old codes.old registers.new codes.new }
{
    match places::plain(cell) {
        Place::Register(number) => write_register(stored, registers, codes, number, value),
        Place::Attribute(_) => told(7, 0),
        Place::PaletteState => write_free(stored, registers, B0, value),
        Place::VPortState => write_free(stored, registers, CAPTURE_Y_START, value),
        Place::ReadAddress => set_address(smalls, 1, (value % 256) as u8),
        Place::WriteAddress => set_address(smalls, 0, (value % 256) as u8),
        Place::PixelData => write_pixel(registers, smalls, (value % 256) as u8),
        Place::Unnamed => told(1, 0),
        Place::UnnamedAttribute => told(1, 0),
        Place::Fixed(_) => told(7, 0),
        Place::DeviceId => told(7, 0),
        Place::ToggleState => told(7, 0),
        Place::AttributeIndex => told(7, 0),
        Place::ToggleReset => told(7, 0),
        Place::CurrentLine => told(7, 0),
        Place::Passing => told(1, 0),
    }
}

// A write at the place that a cell, or the one behind it, names; 3C0h goes by the toggle.
pub fn turn_write(
    cells: &[u8; CELLS],
    stored: &[u16; REGISTERS],
    registers: &mut [u16; REGISTERS],
    smalls: &mut [u8; SMALLS],
    codes: &mut [u8; CLASSES],
    cell: u8,
    value: u16,
) -> u64
    ensures { CR7Number < behind_cell cells.now registers.old 0x7C → cell < 0x7D → ((s : State) → smalls.old ≡ smalls_of s → Turned (decided_write stored.now (seen registers.old s) (profile (cell_place cells.now (seen registers.old s) cell)).writing value) (seen registers.old s) registers.new smalls.new result) × Coded registers.old codes.old registers.new codes.new }
{
    if cell == 0x7C {
        return write_attribute(cells, stored, registers, smalls, value);
    }
    let behind = places::behind(cells, registers, cell);
    write_place(stored, registers, smalls, codes, behind, value)
}
