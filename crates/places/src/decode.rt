// From a kind and an address to a place. A cell is a number for what they name: a register's number, from 6Ch on a place that stands alone, from 78h
// on an indexed port, from 7Dh on nothing; 80h more at width 2. Whatever table of cells is lent, each function answers; `cells` is a chip's.
ghost use Rattle.std.specs.Prelude.{◌≡◌};
ghost use Rattle.file.specs.declared.chip.Chip.TheVariants.{Gd5462, Gd5464};
ghost use Rattle.file.specs.File.{seen};
ghost use Rattle.places.specs.EngineCells.{cell_table, cell_in, port_cell, csl_cell, mmio_cell, config_cell, is_nothing, cell_width, plain_place, attribute_place, behind_cell, cell_place};

use crate::place::Place;
use file::{ARX, CRX, Chip, GRX, REGISTERS, SRX, State};

// The cells where nothing is held: the address is held in the other direction only; it falls inside a wider register; nothing at all.
pub const OTHER_WAY_HELD: u8 = 0x7D;

pub const WIDER_HELD: u8 = 0x7E;

const NOTHING: u8 = 0x7F;

// What is added at width 2.
const WIDER: u8 = 0x80;

// The line's cell.
const CURRENT_LINE: u8 = 0x77;

// What SR6 and PCI00 read.
const SR6: u16 = 0x12;

const PCI00: u16 = 0x1013;

// The first cell of the indexed ports.
const FIRST_INDEXED: u8 = 0x78;

// The table's sections: port reads and port writes from 3B0h on; what stands behind SRX, CRX, GRX and ARX, by the numbers that these may hold;
// config space, which stands at 300h of MMIO too; MMIO; and MMIO reads and MMIO writes from 140h on.
const FIRST_PORT: usize = 0x3B0;

const PORTS: usize = 48;

const PORT_WRITES: usize = PORTS;

const BEHIND_SRX: usize = PORT_WRITES + PORTS;

const SRX_NUMBERS: u16 = 32;

const BEHIND_CRX: usize = BEHIND_SRX + SRX_NUMBERS as usize;

const CRX_NUMBERS: u16 = 64;

const BEHIND_GRX: usize = BEHIND_CRX + CRX_NUMBERS as usize;

const GRX_NUMBERS: u16 = 64;

const BEHIND_ARX: usize = BEHIND_GRX + GRX_NUMBERS as usize;

const ARX_NUMBERS: u16 = 32;

const CONFIG_SPACE: usize = BEHIND_ARX + ARX_NUMBERS as usize;

const CONFIG: usize = 6;

const CONFIG_IN_MMIO: usize = 0x300;

const MMIO_SPACE: usize = CONFIG_SPACE + CONFIG;

const MMIO: usize = 0x110;

const CSL_READS: usize = MMIO_SPACE + MMIO;

const CSL_ADDRESS: usize = 0x140;

const CSL: usize = 2;

const CSL_WRITES: usize = CSL_READS + CSL;

pub const CELLS: usize = CSL_WRITES + CSL;

// The cells of 01 and 02, sixteen to a row, section by section; those from 140h on are the 5462's.
const TABLE: [u8; CELLS] = *b"\
\x7F\x7F\x7F\x7F\x02\x79\x7F\x7F\x7F\x7F\x70\x7F\x7F\x7F\x7F\x7F\
\x04\x7B\x7D\x7F\x01\x78\x05\x6D\x6E\x6F\x7F\x7F\x00\x7F\x03\x7A\
\x7F\x7F\x7F\x7F\x02\x79\x7F\x7F\x7F\x7F\x70\x7F\x7F\x7F\x7F\x7F\
\x7F\x7F\x7F\x7F\x02\x79\x7F\x7F\x7F\x7F\x7D\x7F\x7F\x7F\x7F\x7F\
\x7C\x7D\x00\x7F\x01\x78\x05\x6D\x6E\x6F\x7F\x7F\x7D\x7F\x03\x7A\
\x7F\x7F\x7F\x7F\x02\x79\x7F\x7F\x7F\x7F\x7D\x7F\x7F\x7F\x7F\x7F\
\x07\x08\x09\x0A\x0B\x7F\x73\x0C\x7F\x0D\x0E\x0F\x10\x11\x12\x7F\
\x7F\x7F\x7F\x7F\x13\x14\x7F\x7F\x7F\x7F\x7F\x15\x16\x17\x18\x7F\
\x19\x1A\x1B\x1C\x1D\x1E\x1F\x20\x21\x22\x23\x24\x25\x26\x27\x28\
\x29\x2A\x2B\x2C\x2D\x2E\x2F\x30\x31\x32\x33\x34\x7F\x35\x36\x7F\
\x7F\x7F\x7F\x7F\x74\x7F\x75\x7F\x7F\x7F\x7F\x7F\x7F\x7F\x7F\x7F\
\x7F\x7F\x7F\x7F\x7F\x7F\x7F\x7F\x7F\x7F\x7F\x7F\x7F\x7F\x7F\x7F\
\x37\x38\x39\x3A\x3B\x3C\x3D\x3E\x3F\x7F\x7F\x7F\x7F\x7F\x7F\x7F\
\x7F\x7F\x7F\x7F\x7F\x7F\x7F\x7F\x7F\x7F\x7F\x7F\x7F\x7F\x7F\x7F\
\x7F\x7F\x7F\x7F\x7F\x7F\x7F\x7F\x7F\x7F\x7F\x7F\x7F\x7F\x7F\x7F\
\x7F\x7F\x7F\x7F\x7F\x7F\x7F\x7F\x7F\x7F\x7F\x7F\x7F\x7F\x7F\x7F\
\x40\x41\x42\x43\x44\x45\x46\x47\x48\x49\x4A\x4B\x4C\x4D\x4E\x4F\
\x50\x51\x52\x53\x54\x7F\x7F\x7F\x7F\x7F\x7F\x7F\x7F\x7F\x7F\x7F\
\xF1\x7E\xF2\x7E\x86\x7E\
\x19\x7F\x7F\x7F\x1A\x7F\x7F\x7F\x1B\x7F\x7F\x7F\x1C\x7F\x7F\x7F\
\x1D\x7F\x7F\x7F\x1E\x7F\x7F\x7F\x1F\x7F\x7F\x7F\x20\x7F\x7F\x7F\
\x21\x7F\x7F\x7F\x22\x7F\x7F\x7F\x23\x7F\x7F\x7F\x24\x7F\x7F\x7F\
\x25\x7F\x7F\x7F\x26\x7F\x7F\x7F\x27\x7F\x7F\x7F\x28\x7F\x7F\x7F\
\x29\x7F\x7F\x7F\x2A\x7F\x7F\x7F\x2B\x7F\x7F\x7F\x2C\x7F\x7F\x7F\
\x2D\x7F\x7F\x7F\x2E\x7F\x7F\x7F\x2F\x7F\x7F\x7F\x30\x7F\x7F\x7F\
\x31\x7F\x7F\x7F\x32\x7F\x7F\x7F\x33\x7F\x7F\x7F\x34\x7F\x7F\x7F\
\x7F\x7F\x7F\x7F\x35\x7F\x7F\x7F\x36\x7F\x7F\x7F\x7F\x7F\x7F\x7F\
\x00\x7F\x7F\x7F\x12\x7F\x7F\x7F\x18\x7F\x7F\x7F\x7F\x7F\x7F\x7F\
\x7F\x7F\x7F\x7F\x7F\x7F\x7F\x7F\x7F\x7F\x7F\x7F\x7F\x7F\x7F\x7F\
\x05\x7F\x7F\x7F\x6D\x7F\x7F\x7F\x6E\x7F\x7F\x7F\x6F\x7F\x7F\x7F\
\x6C\x7F\x7F\x7F\x7F\x7F\x7F\x7F\x56\x7F\x7F\x7F\x57\x7F\x7F\x7F\
\xD8\x7E\x7F\x7F\x7F\x7F\x7F\x7F\x7F\x7F\x7F\x7F\xD9\x7E\xDA\x7E\
\xDB\x7E\xDC\x7E\x5D\x5E\x7F\x7F\x7F\x7F\x7F\x7F\x7F\x7F\x7F\x7F\
\xDF\x7E\xE0\x7E\xE1\x7E\xE2\x7E\xE3\x7E\x7F\x7F\x7F\x7F\x7F\x7F\
\x7F\x7F\x7F\x7F\x7F\x7F\x7F\x7F\x7F\x7F\x7F\x7F\x7F\x7F\x7F\x7F\
\xE4\x7E\xE5\x7E\xE6\x7E\xE7\x7E\xE8\x7E\xE9\x7E\xF6\x7E\xEB\x7E\
\x7F\x7F\x7F\x7F";

// The table of a chip's cells by value, for those who lend it: a constant that is indexed is copied first.
pub fn cells(chip: Chip) -> [u8; CELLS]
    ensures { result ≡ cell_table chip }
{
    match chip {
        Chip::Gd5462 => without_line(),
        Chip::Gd5464 => with_line(),
    }
}

fn without_line() -> [u8; CELLS]
    ensures { result ≡ cell_table Gd5462 }
{
    TABLE
}

// On the 5464 the line is read at 140h, at width 2, and not written.
fn with_line() -> [u8; CELLS]
    ensures { result ≡ cell_table Gd5464 }
{
    let mut cells = TABLE;
    cells[CSL_READS] = CURRENT_LINE + WIDER;
    cells[CSL_READS + 1] = WIDER_HELD;
    cells[CSL_WRITES] = OTHER_WAY_HELD;
    cells[CSL_WRITES + 1] = WIDER_HELD;
    cells
}

// The cell of a kind and an address.
pub fn cell_at(cells: &[u8; CELLS], kind: u8, address: u16) -> u8
    ensures { result ≡ cell_in cells.now kind address }
{
    let at = usize::from(address);
    match kind / 2 {
        0 => config_cell(cells, at),
        1 => port_cell(cells, kind % 2 == 1, at),
        2 => mmio_cell(cells, kind % 2 == 1, at),
        _ => NOTHING,
    }
}

fn port_cell(cells: &[u8; CELLS], write: bool, at: usize) -> u8
    ensures { result ≡ port_cell cells.now write at }
{
    if at < FIRST_PORT {
        return NOTHING;
    }
    if FIRST_PORT + PORTS <= at {
        return NOTHING;
    }
    if write {
        cells[PORT_WRITES + (at - FIRST_PORT)]
    } else {
        cells[at - FIRST_PORT]
    }
}

fn mmio_cell(cells: &[u8; CELLS], write: bool, at: usize) -> u8
    ensures { result ≡ mmio_cell cells.now write at }
{
    if at < MMIO {
        return cells[MMIO_SPACE + at];
    }
    if at < CONFIG_IN_MMIO {
        return csl_cell(cells, write, at);
    }
    config_cell(cells, at - CONFIG_IN_MMIO)
}

fn csl_cell(cells: &[u8; CELLS], write: bool, at: usize) -> u8
    ensures { result ≡ csl_cell cells.now write at }
{
    if at < CSL_ADDRESS {
        return NOTHING;
    }
    if CSL_ADDRESS + CSL <= at {
        return NOTHING;
    }
    if write {
        cells[CSL_WRITES + (at - CSL_ADDRESS)]
    } else {
        cells[CSL_READS + (at - CSL_ADDRESS)]
    }
}

fn config_cell(cells: &[u8; CELLS], at: usize) -> u8
    ensures { result ≡ config_cell cells.now at }
{
    if at < CONFIG {
        cells[CONFIG_SPACE + at]
    } else {
        NOTHING
    }
}

// Nothing is held at a cell's address.
pub fn is_nothing(cell: u8) -> bool
    ensures { result ≡ is_nothing cell }
{
    OTHER_WAY_HELD <= cell % WIDER
}

// The width that a cell asks for.
pub fn width_of(cell: u8) -> u8
    ensures { result ≡ cell_width cell }
{
    if cell < WIDER { 1 } else { 2 }
}

// What a cell names, whatever the file holds.
pub fn plain(cell: u8) -> Place
    ensures { result ≡ plain_place cell }
{
    let number = usize::from(cell);
    if number < REGISTERS {
        return Place::Register(number);
    }
    match cell {
        0x6C => Place::PaletteState,
        0x6D => Place::ReadAddress,
        0x6E => Place::WriteAddress,
        0x6F => Place::PixelData,
        0x70 => Place::ToggleReset,
        0x71 => Place::Fixed(PCI00),
        0x72 => Place::DeviceId,
        0x73 => Place::Fixed(SR6),
        0x74 => Place::ToggleState,
        0x75 => Place::AttributeIndex,
        0x76 => Place::VPortState,
        CURRENT_LINE => Place::CurrentLine,
        _ => Place::Unnamed,
    }
}

// What a 3C0h write stores into: the index, or the register behind it.
fn attribute(toggle: bool, cell: u8) -> Place
    ensures { result ≡ attribute_place toggle cell }
{
    if !toggle {
        return Place::Attribute(ARX);
    }
    let number = usize::from(cell);
    if number < REGISTERS {
        Place::Attribute(number)
    } else {
        Place::UnnamedAttribute
    }
}

// The cell that the index registers choose behind an indexed port's; any other's is itself.
pub fn behind(cells: &[u8; CELLS], registers: &[u16; REGISTERS], cell: u8) -> u8
    ensures { result ≡ behind_cell cells.now registers.now cell }
{
    if cell < FIRST_INDEXED {
        return cell;
    }
    match cell {
        0x78 => cells[BEHIND_SRX + usize::from(registers[SRX] % SRX_NUMBERS)],
        0x79 => cells[BEHIND_CRX + usize::from(registers[CRX] % CRX_NUMBERS)],
        0x7A => cells[BEHIND_GRX + usize::from(registers[GRX] % GRX_NUMBERS)],
        _ => cells[BEHIND_ARX + usize::from(registers[ARX] % ARX_NUMBERS)],
    }
}

// What a cell names in a file of these registers and this state.
pub fn place_of(cells: &[u8; CELLS], registers: &[u16; REGISTERS], state: State, cell: u8) -> Place
    ensures { result ≡ cell_place cells.now (seen registers.now state) cell }
{
    let kind = cell % WIDER;
    if kind < FIRST_INDEXED {
        return plain(kind);
    }
    match kind {
        0x78 => plain(cells[BEHIND_SRX + usize::from(registers[SRX] % SRX_NUMBERS)]),
        0x79 => plain(cells[BEHIND_CRX + usize::from(registers[CRX] % CRX_NUMBERS)]),
        0x7A => plain(cells[BEHIND_GRX + usize::from(registers[GRX] % GRX_NUMBERS)]),
        0x7B => plain(cells[BEHIND_ARX + usize::from(registers[ARX] % ARX_NUMBERS)]),
        0x7C => attribute(
            state.toggle,
            cells[BEHIND_ARX + usize::from(registers[ARX] % ARX_NUMBERS)],
        ),
        _ => Place::Unnamed,
    }
}
