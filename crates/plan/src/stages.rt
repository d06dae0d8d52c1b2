// A plan's stages, each appended to what stands before it.
ghost use Rattle.std.specs.Prelude.{◌≡◌, [], ◌∷◌, ◌+◌, ◌*◌, ◌≤◌, length};
ghost use Rattle.plan.specs.Appended.{Appended};
ghost use Rattle.roads.specs.Plan.{opening, pixel, entries, colours, pixel_step, marking, toggle_read, indices, pointer_write, closing};

use crate::records::{by_half, config_write, mmio_read, mmio_write, port_read, port_write};
use crate::rows::{closing_rows, held, put_registers};
use file::{ARX, CRX, Colour, GRX, MISC, Pointer, SRX};

// Both spaces on, CR0 to CR7 unlocked, MISC as wanted, the palette up with static sync off, the toggle at index.
pub fn put_opening(registers: &[u16], buffer: &mut [u8], at: usize) -> usize
    requires { at + 8 * 6 ≤ length buffer.old }
    ensures { Appended buffer.old at (opening registers.now) buffer.new result }
{
    let misc = held(registers, MISC);
    let at = config_write(0x04, 3, buffer, at);
    let at = mmio_write(0x44, 0, buffer, at);
    let at = mmio_write(0x80, misc, buffer, at);
    let at = mmio_write(0xB0, 0, buffer, at);
    let at = mmio_write(0x68, 0, buffer, at);
    port_read(by_half(misc, 0x3BA, 0x3DA), buffer, at)
}

// The three bytes of an entry.
pub fn put_pixel(colour: Colour, buffer: &mut [u8], at: usize) -> usize
    requires { at + 8 * 3 ≤ length buffer.old }
    ensures { Appended buffer.old at (pixel colour) buffer.new result }
{
    let at = mmio_write(0xAC, u32::from(colour.red), buffer, at);
    let at = mmio_write(0xAC, u32::from(colour.green), buffer, at);
    mmio_write(0xAC, u32::from(colour.blue), buffer, at)
}

// The entries of the palette or of the bank, from the first on.
fn put_entries(colours: &[Colour], buffer: &mut [u8], at: usize) -> usize
    requires { at + 8 * length (entries 0 colours.now) ≤ length buffer.old }
    ensures { Appended buffer.old at (entries 0 colours.now) buffer.new result }
{
    let mut at = mmio_write(0xA8, 0, buffer, at);
    for colour in colours {
        at = put_pixel(*colour, buffer, at);
    }
    at
}

// The palette, and with B0[3]=1 the bank.
pub fn put_colours(
    palette: &[Colour; 256],
    bank: &[Colour; 16],
    buffer: &mut [u8],
    at: usize,
) -> usize
    requires { at + 8 * length (colours palette.now bank.now) ≤ length buffer.old }
    ensures { Appended buffer.old at (colours palette.now bank.now) buffer.new result }
{
    let at = put_entries(palette, buffer, at);
    let at = mmio_write(0xB0, 0x08, buffer, at);
    put_entries(bank, buffer, at)
}

// A pixel data access: a read, or a write of 0.
fn put_step(reading: bool, buffer: &mut [u8], at: usize) -> usize
    requires { at + 8 ≤ length buffer.old }
    ensures { Appended buffer.old at (pixel_step reading ∷ []) buffer.new result }
{
    if reading {
        return mmio_read(0xAC, buffer, at);
    }
    mmio_write(0xAC, 0, buffer, at)
}

// The marks, up to their colour from red on: the entries leave write, blue.
pub fn put_marks(marks: u8, buffer: &mut [u8], at: usize) -> usize
    requires { at + 8 * 3 ≤ length buffer.old }
    ensures { Appended buffer.old at (marking marks) buffer.new result }
{
    let reading = marks / 4 == 1;
    match (marks % 4, reading) {
        (0, _) => put_step(reading, buffer, at),
        (1, _) => {
            let at = put_step(reading, buffer, at);
            put_step(reading, buffer, at)
        }
        (_, false) => at,
        (_, true) => {
            let at = mmio_read(0xAC, buffer, at);
            let at = mmio_read(0xAC, buffer, at);
            mmio_read(0xAC, buffer, at)
        }
    }
}

// What leaves the toggle, which is at data, as wanted: a 3C0h read moves nothing, a 3?Ah read sets it to index.
fn put_toggle(toggle: bool, misc: u32, buffer: &mut [u8], at: usize) -> usize
    requires { at + 8 ≤ length buffer.old }
    ensures { Appended buffer.old at (toggle_read misc toggle ∷ []) buffer.new result }
{
    if toggle {
        return port_read(0x3C0, buffer, at);
    }
    port_read(by_half(misc, 0x3BA, 0x3DA), buffer, at)
}

// SRX, GRX, CRX, ARX and the toggle.
pub fn put_indices(registers: &[u16], toggle: bool, buffer: &mut [u8], at: usize) -> usize
    requires { at + 8 * 5 ≤ length buffer.old }
    ensures { Appended buffer.old at (indices registers.now toggle) buffer.new result }
{
    let misc = held(registers, MISC);
    let at = port_write(0x3C4, held(registers, SRX), buffer, at);
    let at = port_write(0x3CE, held(registers, GRX), buffer, at);
    let at = port_write(
        by_half(misc, 0x3B4, 0x3D4),
        held(registers, CRX),
        buffer,
        at,
    );
    let at = port_write(0x3C0, held(registers, ARX), buffer, at);
    put_toggle(toggle, misc, buffer, at)
}

// 3C7h's pair in read mode, 3C8h's in write mode.
fn put_pointer(pointer: Pointer, buffer: &mut [u8], at: usize) -> usize
    requires { at + 8 ≤ length buffer.old }
    ensures { Appended buffer.old at (pointer_write pointer ∷ []) buffer.new result }
{
    if pointer.reading {
        return mmio_write(0xA4, u32::from(pointer.address), buffer, at);
    }
    mmio_write(0xA8, u32::from(pointer.address), buffer, at)
}

// The pointer; then B0, CR1A, CR11 and PCI04 as wanted.
pub fn put_closing(registers: &[u16], pointer: Pointer, buffer: &mut [u8], at: usize) -> usize
    requires { at + 8 * 5 ≤ length buffer.old }
    ensures { Appended buffer.old at (closing registers.now pointer) buffer.new result }
{
    let rows = closing_rows();
    let at = put_pointer(pointer, buffer, at);
    put_registers(&rows, registers, buffer, at)
}
