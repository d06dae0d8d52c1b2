// One access where the parts of a file stand.
ghost use Rattle.std.specs.Prelude.{◌≡◌, cond, IfSome, [], ◌∷◌, ◌+◌, ◌*◌, ◌%◌, ◌≤◌, T, eqb, length, get_or};
ghost use Rattle.std.proofs.lemmas.List.Edits.{sets};
ghost use Rattle.file.specs.declared.state.State.{State};
ghost use Rattle.file.specs.File.{seen, bank_count};
ghost use Rattle.file.specs.Palette.{component as componentOf};
ghost use Rattle.file.specs.Sound.{all_within, sound};
ghost use Rattle.file.specs.Registers.{stored_table};
ghost use Rattle.places.specs.EngineCells.{plain_place};
ghost use Rattle.places.specs.Profile.{profile};
ghost use Rattle.access.specs.Access.{in_bank};
ghost use Rattle.access.specs.Engine.{decided_write};
ghost use Rattle.quick.specs.Classes.{class_of, codes_of};
ghost use Rattle.quick.specs.Slots.{by_the_key};
ghost use Rattle.quick.specs.Smalls.{smalls_of, state_of};
ghost use Rattle.quick.specs.Turned.{Turned};
ghost use Rattle.trace.specs.EngineServed.{Serves, served_of};
ghost use Rattle.image.specs.Bytes.{colour_bytes};
ghost use Rattle.image.specs.Parts.{rest_count, bank_at, palette_at, state_bytes};
ghost use Rattle.host.specs.Left.{colour_at, rest_left, AccessLeft};
ghost use Rattle.host.specs.Numbers.{record_in, told as told_of};
ghost use Rattle.host.specs.Quick.{limit_of, Known};

use crate::finding::{behind, cell_of};
use crate::{BANK_AT, PALETTE_AT};
use access::{Record, decide, is_in_bank};
use file::{Chip, Colour, File, MISC, PCI04, REGISTERS, State, state_sound};
use image::{REST, fits, state_bytes, state_in};
use quick::{
    CLASSES, SMALLS, code_in, colour_in, is_pixel, paints, paints_bank, read_place, smalls_of,
    state_in as small_state, told as said, value_in, write_place,
};
use trace::{Served, answered, bank_entry, component, palette_entry, put_effect};

// Code 12, in the high 16 bits, and no value.
const NOT_SOUND: u32 = 65536 * 12;

// The record of a number.
pub fn record_in(number: u64) -> Record
    ensures { result ≡ record_in number }
{
    Record {
        kind: (number % 256) as u8,
        width: (number / 256 % 256) as u8,
        address: (number / 65536 % 65536) as u16,
        value: (number / 4294967296) as u32,
    }
}

// A reply as one number.
fn told(code: u8, value: u16) -> u32
    ensures { result ≡ told_of code value }
{
    65536 * (code as u32) + value as u32
}

// One access to a sound file by the whole table: the registers where they stand, the state by value.
fn serve(registers: &mut [u16; REGISTERS], state: State, asked: Record) -> Served
    requires { T (sound (seen registers.old state)) }
    ensures { Serves (seen registers.old state) asked registers.new result }
{
    let chip = state.chip;
    let cells = places::cells(chip);
    let stored = File::stored(chip);
    let decision = decide(&cells, &stored, registers, state, asked);
    let answer = decision.answer;
    let effect = decision.effect;
    let before = answered(answer, decision.pixel, state);
    put_effect(registers, before, effect)
}

// The colour of three bytes.
fn colour_at(rest: &[u8], at: usize) -> Colour
    requires { at + 3 ≤ length rest.now }
    ensures { result ≡ colour_at rest.now at }
{
    Colour {
        red: rest[at],
        green: rest[at + 1],
        blue: rest[at + 2],
    }
}

// A colour stored in three bytes.
fn paint(rest: &mut [u8], at: usize, colour: Colour)
    requires { at + 3 ≤ length rest.old }
    ensures { rest.new ≡ sets rest.old at (colour_bytes (colour ∷ [])) }
{
    rest[at] = colour.red;
    rest[at + 1] = colour.green;
    rest[at + 2] = colour.blue;
}

// Where the palette's entry that the pointer names begins.
fn palette_place(state: State) -> usize
    ensures { (result ≡ palette_at + 3 * state.pointer.address) × (result + 3 ≤ bank_at) }
{
    PALETTE_AT + 3 * palette_entry(state)
}

// Where the bank's entry that the pointer names begins.
fn bank_place(state: State) -> usize
    ensures { (result ≡ bank_at + 3 * (state.pointer.address % bank_count)) × (result + 3 ≤ rest_count) }
{
    BANK_AT + 3 * bank_entry(state)
}

// The component of the next colour, of the entry that the pointer names.
fn shown(registers: &[u16; REGISTERS], rest: &[u8; REST], state: State) -> u16
    ensures { result ≡ componentOf (cond (in_bank (seen registers.now state)) (colour_at rest.now (bank_at + 3 * (state.pointer.address % bank_count))) (colour_at rest.now (palette_at + 3 * state.pointer.address))) state.pointer.next }
{
    let bank = is_in_bank(registers);
    let in_bank = colour_at(rest, bank_place(state));
    let in_palette = colour_at(rest, palette_place(state));
    component(bank, in_bank, in_palette, state)
}

// What the reply says was read.
fn value_of(registers: &[u16; REGISTERS], rest: &[u8; REST], state: State, served: Served) -> u16
    ensures { result ≡ cond served.pixel (componentOf (cond (in_bank (seen registers.now state)) (colour_at rest.now (bank_at + 3 * (state.pointer.address % bank_count))) (colour_at rest.now (palette_at + 3 * state.pointer.address))) state.pointer.next) served.value }
{
    if served.pixel {
        return shown(registers, rest, state);
    }
    served.value
}

// The state's ten bytes.
fn put_state(rest: &mut [u8; REST], state: State)
    ensures { rest.new ≡ sets rest.old 0 (state_bytes state) }
{
    rest[..PALETTE_AT].copy_from_slice(&state_bytes(state));
}

// The entry that is painted, where the pointer stood.
fn painted_place(stood: State, bank: bool) -> usize
    ensures { (result ≡ cond bank (bank_at + 3 * (stood.pointer.address % bank_count)) (palette_at + 3 * stood.pointer.address)) × (result + 3 ≤ rest_count) }
{
    if bank {
        return bank_place(stood);
    }
    palette_place(stood)
}

// What a served access leaves in the rest.
fn leave(rest: &mut [u8; REST], stood: State, served: Served)
    ensures { rest.new ≡ rest_left stood served rest.old }
{
    if !served.paints {
        put_state(rest, served.state);
        return;
    }
    let at = painted_place(stood, served.bank);
    paint(rest, at, served.colour);
    put_state(rest, served.state);
}

// The codes that the registers alone give, and 0 for none. They are numbers, since as an Option<Answer> they make an access slower: 1,851,659 instructions
// for 1,848,653 over 4,002 mixed records.
const SPACE_OFF: u8 = 3;

const OTHER_HALF: u8 = 5;

// The code for the other half by the row of a port, or 0.
fn row_code(colour: bool, row: u16) -> u8
    ensures { result ≡ cond (eqb row 0x3B) (cond colour 5 0) (cond (eqb row 0x3D) (cond colour 0 5) 0) }
{
    if row == 0x3B {
        return if colour { OTHER_HALF } else { 0 };
    }
    if row == 0x3D {
        return if colour { 0 } else { OTHER_HALF };
    }
    0
}

// The code for a space that is off or for the other half, by the registers, or 0.
fn code_of(registers: &[u16; REGISTERS], kind: u8, address: u16) -> u8
    ensures { result ≡ get_or (codes_of registers.now) (class_of kind address % 8) 0 }
{
    let space = kind / 2;
    let enables = registers[PCI04];
    if space == 1 {
        if enables % 2 == 0 {
            return SPACE_OFF;
        }
        return row_code(registers[MISC] % 2 == 1, address / 16);
    }
    if space == 2 {
        if enables / 2 % 2 == 0 {
            return SPACE_OFF;
        }
    }
    0
}

// Values below it fit a kind and a width, which is 1 or 2.
fn limit_of(kind: u8, width: u8) -> u32
    ensures { result ≡ limit_of kind width }
{
    if kind % 2 != 1 {
        return 1;
    }
    if width == 1 { 256 } else { 65536 }
}

// A value's low 16 bits.
fn low(value: u32) -> u16
    ensures { result ≡ value % 65536 }
{
    (value % 65536) as u16
}

// The cell of a record by its key and value, where it is known and the record is in good form.
fn known(chip: Chip, key: u32, value: u32) -> Option<u8>
    ensures { IfSome result (λ cell. Known chip key value cell) }
{
    let kind = (key % 256) as u8;
    let width = (key / 256 % 256) as u8;
    let cell = cell_of(chip, kind, (key / 65536) as u16);
    let narrow = cell % 128;
    if 0x7C <= narrow {
        return None;
    }
    if places::width_of(cell) != width {
        return None;
    }
    if limit_of(kind, width) <= value {
        return None;
    }
    Some(narrow)
}

// A write at a plain cell.
fn write_at(
    registers: &mut [u16; REGISTERS],
    smalls: &mut [u8; SMALLS],
    chip: Chip,
    cell: u8,
    value: u16,
) -> u64
    ensures { (s : State) → smalls.old ≡ smalls_of s → Turned (decided_write (stored_table chip) (seen registers.old s) (profile (plain_place cell)).writing value) (seen registers.old s) registers.new smalls.new result }
{
    let stored = File::stored(chip);
    let mut codes = [0; CLASSES];
    write_place(&stored, registers, smalls, &mut codes, cell, value)
}

// One access whose cell is known.
fn turn(
    registers: &mut [u16; REGISTERS],
    smalls: &mut [u8; SMALLS],
    line: u16,
    chip: Chip,
    cell: u8,
    key: u32,
    value: u32,
) -> u64
    requires { Known chip key value cell × (smalls.old ≡ smalls_of (state_of chip line smalls.old)) × T (sound (seen registers.old (state_of chip line smalls.old))) }
    ensures { Serves (seen registers.old (state_of chip line smalls.old)) (by_the_key key value) registers.new (served_of result (state_of chip line smalls.new)) }
{
    let refusal = code_of(registers, (key % 256) as u8, (key / 65536) as u16);
    if refusal != 0 {
        return said(refusal, 0);
    }
    let plain = behind(chip, registers, cell);
    if key % 2 == 1 {
        return write_at(registers, smalls, chip, plain, low(value));
    }
    read_place(registers, smalls, line, chip, plain)
}

// What was served, of one number.
fn served_of(number: u64, state: State) -> Served
    ensures { result ≡ served_of number state }
{
    Served {
        code: code_in(number),
        value: value_in(number),
        state,
        pixel: is_pixel(number),
        paints: paints(number),
        bank: paints_bank(number),
        colour: colour_in(number),
    }
}

// One access to a sound file, where its cell is known: the registers where they stand, the state by value.
fn serve_known(
    registers: &mut [u16; REGISTERS],
    state: State,
    cell: u8,
    key: u32,
    value: u32,
) -> Served
    requires { Known state.chip key value cell × T (sound (seen registers.old state)) }
    ensures { Serves (seen registers.old state) (by_the_key key value) registers.new result }
{
    let chip = state.chip;
    let line = state.line;
    let mut smalls = smalls_of(state);
    let number = turn(registers, &mut smalls, line, chip, cell, key, value);
    served_of(number, small_state(&smalls, line, chip))
}

// The reply to what was served, and what it leaves in the rest.
fn finish(registers: &[u16; REGISTERS], rest: &mut [u8; REST], state: State, served: Served) -> u32
    ensures value { result ≡ told_of served.code (cond served.pixel (componentOf (cond (in_bank (seen registers.now state)) (colour_at rest.old (bank_at + 3 * (state.pointer.address % bank_count))) (colour_at rest.old (palette_at + 3 * state.pointer.address))) state.pointer.next) served.value) }
    ensures rest_after { rest.new ≡ rest_left state served rest.old }
{
    let value = value_of(registers, rest, state, served);
    leave(rest, state, served);
    told(served.code, value)
}

// No bit outside the table of a chip is set: the registers are tested where they stand.
fn are_stored(registers: &[u16; REGISTERS], chip: Chip) -> bool
    ensures { result ≡ all_within (stored_table chip) registers.now }
{
    let table = File::stored(chip);
    let mut stray: u16 = 0;
    for (stored, value) in table.iter().zip(registers) {
        stray |= bits::stray(*stored, *value);
    }
    stray == 0
}

// One access to registers and a rest; of an unsound file 12, with all as it was.
pub fn access_in(registers: &mut [u16; REGISTERS], rest: &mut [u8; REST], asked: u64) -> u32
    ensures { AccessLeft (record_in asked) registers.old rest.old registers.new rest.new result }
{
    if !fits(rest) {
        return NOT_SOUND;
    }
    let state = state_in(rest);
    if !state_sound(state) {
        return NOT_SOUND;
    }
    let chip = state.chip;
    if !are_stored(registers, chip) {
        return NOT_SOUND;
    }
    let key = (asked % 4294967296) as u32;
    let value = (asked / 4294967296) as u32;
    let Some(cell) = known(chip, key, value) else {
        let served = serve(registers, state, record_in(asked));
        return finish(registers, rest, state, served);
    };
    let served = serve_known(registers, state, cell, key, value);
    finish(registers, rest, state, served)
}
