// The stages of a short plan that go over what a set names: entries and registers.
ghost use Rattle.std.specs.Prelude.{◌≡◌, true, false, [], ◌∷◌, map, ◌+◌, ◌*◌, ◌≤◌, length, get_or, set};
ghost use Rattle.plan.specs.Appended.{Appended};
ghost use Rattle.plan.specs.EngineEntries.{entry_records, entries_named};
ghost use Rattle.plan.specs.EngineRows.{road_of};
ghost use Rattle.roads.specs.RoadRecords.{along};
ghost use Rattle.roads.specs.ColourStage.{stretch_records};
ghost use Rattle.short_roads.specs.ShortPlan.{stretches_from, short_colours, named_roads, bank_named};

use crate::records::mmio_write;
use crate::rows::put_register;
use crate::stages::put_pixel;
use file::Colour;
use touched::Touched;

// An entry's address, where the pointer stands elsewhere, and its three bytes.
fn put_entry(
    named: bool,
    apart: bool,
    number: u32,
    colour: Colour,
    buffer: &mut [u8],
    at: usize,
) -> usize
    requires { at + 8 * length (entry_records named apart number colour) ≤ length buffer.old }
    ensures { Appended buffer.old at (entry_records named apart number colour) buffer.new result }
{
    if !named {
        return at;
    }
    if apart {
        let at = mmio_write(0xA8, number, buffer, at);
        return put_pixel(colour, buffer, at);
    }
    put_pixel(colour, buffer, at)
}

// The entries that are named, of so many marks.
fn put_entries_named(named: &[bool], colours: &[Colour], buffer: &mut [u8], at: usize) -> usize
    requires marks { (length named.now ≡ length colours.now) × (length colours.now ≤ 256) }
    requires room { at + 8 * length (entries_named true 0 named.now colours.now) ≤ length buffer.old }
    ensures { Appended buffer.old at (entries_named true 0 named.now colours.now) buffer.new result }
{
    let mut at = at;
    let mut apart = true;
    for (i, colour) in colours.iter().enumerate() {
        at = put_entry(named[i], apart, i as u32, *colour, buffer, at);
        apart = !named[i];
    }
    at
}

// The palette's, and with B0[3]=1 the bank's, of which the last is always written.
pub fn put_short_colours(
    set: Touched,
    palette: &[Colour; 256],
    bank: &[Colour; 16],
    buffer: &mut [u8],
    at: usize,
) -> usize
    requires { at + 8 * length (short_colours set palette.now bank.now) ≤ length buffer.old }
    ensures { Appended buffer.old at (short_colours set palette.now bank.now) buffer.new result }
{
    let mut in_bank = set.bank;
    in_bank[15] = true;
    let at = put_entries_named(&set.palette, palette, buffer, at);
    let at = mmio_write(0xB0, 0x08, buffer, at);
    put_entries_named(&in_bank, bank, buffer, at)
}

// Whether a number is marked; one that there isn't is not.
fn is_marked(named: &[bool], number: usize) -> bool
    ensures { result ≡ get_or named.now number false }
{
    named.get(number).copied().unwrap_or(false)
}

// The register of a row, if it is named.
fn put_if_named(row: u64, named: &[bool], registers: &[u16], buffer: &mut [u8], at: usize) -> usize
    requires { at + 8 * length (along registers.now (named_roads named.now (road_of row ∷ []))) ≤ length buffer.old }
    ensures { Appended buffer.old at (along registers.now (named_roads named.now (road_of row ∷ []))) buffer.new result }
{
    if is_marked(named, (row % 0x100) as usize) {
        return put_register(row, registers, buffer, at);
    }
    at
}

// The registers of some rows that are named.
pub fn put_named_registers(
    rows: &[u64],
    named: &[bool],
    registers: &[u16],
    buffer: &mut [u8],
    at: usize,
) -> usize
    requires { at + 8 * length (along registers.now (named_roads named.now (map road_of rows.now))) ≤ length buffer.old }
    ensures { Appended buffer.old at (along registers.now (named_roads named.now (map road_of rows.now))) buffer.new result }
{
    let mut at = at;
    for row in rows {
        at = put_if_named(*row, named, registers, buffer, at);
    }
    at
}
