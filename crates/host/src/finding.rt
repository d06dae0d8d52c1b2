// The cell that a kind and an address name, and the one behind an indexed port, with no table built in memory: where a constant table is gone through one
// by one, the compiler makes constants of it. The bar is an access by a C host, whose goal is 300 instructions (bench/run). What isn't known here is asked of
// the whole table.
ghost use Rattle.std.specs.Prelude.{◌≡◌, Bool, false, cond, ◌<◌, ◌≤◌, eqb, ltb, get_or};
ghost use Rattle.places.specs.EngineCells.{nothing_held, cell_count, cell_table, cell_in, port_cell, mmio_cell, behind_cell};

use file::{ARX, CRX, Chip, GRX, REGISTERS, SRX};
use places::CELLS;

// What is told of a cell that isn't known. It is no None: it is the byte that the tables hold for nothing (`nothing_held`), and `behind` tells it as the table does
// (`behind_cell`).
const UNKNOWN: u8 = 0x7F;

// Where the sections of the table begin: port writes, what stands behind the index registers, config space and MMIO.
const PORT_WRITES: usize = 48;

const SRX_CELLS: usize = 96;

const CRX_CELLS: usize = 128;

const GRX_CELLS: usize = 192;

const ARX_CELLS: usize = 256;

const CONFIG: usize = 288;

const MMIO: usize = 294;

// No register stands behind CRX and GRX from these numbers on.
const CRX_END: usize = 40;

const GRX_END: usize = 16;

// The cell at a place of the table, if it is one of those from a place on to an end, so many apart. It is read before the place is compared, or
// the compiler would index the table after all, at a cost to the same goal.
fn pick(cells: &[u8; CELLS], from: usize, end: usize, step: usize, wanted: usize) -> u8
    requires { (end ≤ cell_count) × (1 ≤ step) × (step ≤ 4) }
    ensures { (eqb result nothing_held ≡ false → (wanted < end) × (result ≡ get_or cells.now wanted 0)) × (step ≡ 1 → from ≤ wanted → result ≡ cond (ltb wanted end) (get_or cells.now wanted 0) nothing_held) }
{
    for at in (from..end).step_by(step) {
        let cell = cells[at];
        if cell != UNKNOWN {
            if at == wanted {
                return cell;
            }
        }
    }
    UNKNOWN
}

// The cell of an MMIO address.
fn mmio_cell(cells: &[u8; CELLS], at: usize) -> u8
    ensures { eqb result nothing_held ≡ false → (write : Bool) → result ≡ mmio_cell cells.now write at }
{
    if at < 0x80 {
        return pick(cells, MMIO, MMIO + 0x80, 4, MMIO + at);
    }
    if at < 0xC0 {
        return pick(cells, MMIO + 0x80, MMIO + 0xC0, 4, MMIO + at);
    }
    if at < 0xE0 {
        return pick(cells, MMIO + 0xC0, MMIO + 0xE0, 1, MMIO + at);
    }
    if at < 0x110 {
        return pick(cells, MMIO + 0xE0, MMIO + 0x110, 2, MMIO + at);
    }
    if at < 0x300 {
        return UNKNOWN;
    }
    pick(cells, CONFIG, MMIO, 1, CONFIG + (at - 0x300))
}

// The cell of a port.
fn port_cell(cells: &[u8; CELLS], write: bool, at: usize) -> u8
    ensures { eqb result nothing_held ≡ false → result ≡ port_cell cells.now write at }
{
    if at < 0x3B0 {
        return UNKNOWN;
    }
    if write {
        return pick(cells, PORT_WRITES, SRX_CELLS, 1, PORT_WRITES + (at - 0x3B0));
    }
    pick(cells, 0, PORT_WRITES, 1, at - 0x3B0)
}

// The cell of a kind and an address on a chip, where it is known.
pub fn cell_of(chip: Chip, kind: u8, address: u16) -> u8
    ensures { eqb result nothing_held ≡ false → (kind < 6) × (result ≡ cell_in (cell_table chip) kind address) }
{
    let cells = places::cells(chip);
    let at = usize::from(address);
    match kind / 2 {
        2 => mmio_cell(&cells, at),
        1 => port_cell(&cells, kind % 2 == 1, at),
        0 => pick(&cells, CONFIG, MMIO, 1, CONFIG + at),
        _ => UNKNOWN,
    }
}

// The cell that the index registers choose behind an indexed port's; any other's is itself.
pub fn behind(chip: Chip, registers: &[u16; REGISTERS], cell: u8) -> u8
    ensures { result ≡ behind_cell (cell_table chip) registers.now cell }
{
    if cell < 0x78 {
        return cell;
    }
    let cells = places::cells(chip);
    match cell {
        0x78 => pick(
            &cells,
            SRX_CELLS,
            CRX_CELLS,
            1,
            SRX_CELLS + usize::from(registers[SRX] % 32),
        ),
        0x79 => pick(
            &cells,
            CRX_CELLS,
            CRX_CELLS + CRX_END,
            1,
            CRX_CELLS + usize::from(registers[CRX] % 64),
        ),
        0x7A => pick(
            &cells,
            GRX_CELLS,
            GRX_CELLS + GRX_END,
            1,
            GRX_CELLS + usize::from(registers[GRX] % 64),
        ),
        _ => pick(
            &cells,
            ARX_CELLS,
            CONFIG,
            1,
            ARX_CELLS + usize::from(registers[ARX] % 32),
        ),
    }
}
