// The list walked from the top, for a record that is not malformed.
ghost use Rattle.std.specs.Prelude.{◌≡◌};
ghost use Rattle.std.specs.List.{find as findOf, list_any};
ghost use Rattle.places.specs.Lookup.{other_way as otherWayOf};
ghost use Rattle.plain.specs.Rows.{rows_of, space as space_of, of_chip};
ghost use Rattle.plain.specs.Walk.{is_at, selected, fits as fitsOf, holds, inside};

use crate::list::{COLUMNS, ROWS};
use crate::row::{Row, row_of};
use access::Record;
use file::{ARX, CRX, Chip, File, GRX, SRX};

// The row that a record means, if there is one: the first that fits.
pub fn find(list: &[[u8; COLUMNS]; ROWS], asked: Record, whole: File) -> Option<Row>
    ensures { result ≡ findOf (fitsOf whole asked.kind asked.address) (rows_of list.now) }
{
    list.iter()
        .map(|line| row_of(line))
        .find(|row| fits(*row, asked, whole))
}

// A row fits a record of a file.
#[tactic(auto, unfolding(crate::specs::Walk::fits))]
fn fits(row: Row, asked: Record, whole: File) -> bool
    ensures { result ≡ fitsOf whole asked.kind asked.address row }
{
    is_at(row, asked.kind, asked.address) && is_selected(row, whole)
}

// A row is for this kind of record and this address.
#[tactic(auto, unfolding(crate::specs::Walk::is_at))]
fn is_at(row: Row, kind: u8, address: u16) -> bool
    ensures { result ≡ is_at kind address row }
{
    address == row.address
        && kind / 2 == space(row)
        && if kind % 2 == 0 { row.reads } else { row.writes }
}

// A row's space, as the kinds of record have it: 0 and 1 config, 2 and 3 port, 4 and 5 MMIO, 6 lines that pass.
#[tactic(auto, unfolding(crate::specs::Rows::space))]
fn space(row: Row) -> u8
    ensures { result ≡ space_of row }
{
    match row.space {
        b'c' => 0,
        b'p' => 1,
        b'm' => 2,
        _ => 3,
    }
}

// The file's index registers, toggle and chip select a row.
fn is_selected(row: Row, whole: File) -> bool
    ensures { result ≡ selected whole row }
{
    let registers = &whole.registers;
    let state = whole.state;
    match row.index {
        b'S' => registers[SRX] == row.nth,
        b'C' => registers[CRX] == row.nth,
        b'G' => registers[GRX] == row.nth,
        b'A' => registers[ARX] % 32 == row.nth,
        b'i' => !state.toggle,
        b'd' => state.toggle && registers[ARX] % 32 == row.nth,
        _ => is_of_chip(row, state.chip),
    }
}

// A row is of this chip.
#[tactic(auto, unfolding(crate::specs::Rows::of_chip))]
fn is_of_chip(row: Row, chip: Chip) -> bool
    ensures { result ≡ of_chip chip row }
{
    let is_5462 = row.nth == 0x62;
    row.index != b'5'
        || match chip {
            Chip::Gd5462 => is_5462,
            Chip::Gd5464 => !is_5462,
        }
}

// Code 16: the address is held in the other direction.
pub fn is_held_other_way(list: &[[u8; COLUMNS]; ROWS], chip: Chip, kind: u8, address: u16) -> bool
    ensures { result ≡ list_any (holds chip (otherWayOf kind) address) (rows_of list.now) }
{
    let other = other_way(kind);
    list.iter()
        .map(|line| row_of(line))
        .any(|row| is_held(row, chip, other, address))
}

// The kind of record of the same space in the other direction.
#[tactic(auto, unfolding(places::specs::Lookup::other_way))]
fn other_way(kind: u8) -> u8
    ensures { result ≡ otherWayOf kind }
{
    if kind % 2 == 0 { kind + 1 } else { kind - 1 }
}

// A row of the chip is for this kind of record and this address, whatever the index.
#[tactic(auto, unfolding(crate::specs::Walk::holds))]
fn is_held(row: Row, chip: Chip, kind: u8, address: u16) -> bool
    ensures { result ≡ holds chip kind address row }
{
    is_at(row, kind, address) && is_of_chip(row, chip)
}

// Code 17: the address falls inside a wider register.
pub fn is_inside_wider(list: &[[u8; COLUMNS]; ROWS], chip: Chip, kind: u8, address: u16) -> bool
    ensures { result ≡ list_any (inside chip kind address) (rows_of list.now) }
{
    list.iter()
        .map(|line| row_of(line))
        .any(|row| is_inside(row, chip, kind, address))
}

// A row of two bytes begins one byte below the address, in either direction.
#[tactic(auto, unfolding(crate::specs::Walk::inside))]
fn is_inside(row: Row, chip: Chip, kind: u8, address: u16) -> bool
    ensures { result ≡ inside chip kind address row }
{
    row.width >= 2
        && address != 0
        && (is_held(row, chip, kind, address - 1)
            || is_held(row, chip, other_way(kind), address - 1))
}
