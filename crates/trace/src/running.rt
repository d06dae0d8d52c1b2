// A run over a trace: the file's parts are locals, and an access changes one of them.
ghost use Rattle.std.specs.Prelude.{◌≡◌, cond, ◌++◌, ◌+◌, ◌*◌, ◌%◌, ◌<◌, ◌≤◌, T, length, get_or, take, drop, set};
ghost use Rattle.bits.specs.Store.{store as storeBits};
ghost use Rattle.file.specs.declared.answer.Answer.TheVariants.{Done as DoneAnswer, Malformed as MalformedAnswer};
ghost use Rattle.file.specs.File.{seen, palette_count, bank_count};
ghost use Rattle.file.specs.Palette.{component as componentOf};
ghost use Rattle.file.specs.Registers.{register_count, stored_table};
ghost use Rattle.file.specs.Sound.{sound};
ghost use Rattle.places.specs.EngineCells.{cell_table};
ghost use Rattle.access.specs.Access.{reply_to};
ghost use Rattle.quick.specs.Slots.{by_the_key, slots_true};
ghost use Rattle.trace.specs.EngineServed.{Answered, Puts, Serves, Says, Turns, Ready, Coloured};
ghost use Rattle.trace.specs.Records.{record_of, reply_bytes, items};
ghost use Rattle.trace.specs.Run.{file_after, replies as repliesOf, run_count, run as run_of};

use crate::wire::{four_at, put_reply, put_said, record_by, record_of};
use access::{Record, decide, is_in_bank};
use file::{
    Answer, BANK, Chip, Colour, Effect, File, PALETTE, Pointer, REGISTERS, State, is_sound,
};
use places::CELLS;
use quick::{
    CLASSES, PLAIN, SLOTS, SMALLS, Slot, address_in, all_slots, code_in, codes_of, colour_in,
    is_pixel, next_in, painted, paints, paints_bank, shown, slot_of, smalls_of, state_in, told,
    turn_read, turn_write, value_in,
};

// What a run hands back: its answer, the new file and the count of replies. What is left of the trace begins at 8 times the count. No `Result`: an unsound
// file comes back too, with count 0.
#[derive(Clone, Copy)]
pub struct Ran {
    pub answer: Answer,
    pub file: File,
    pub count: usize,
}

// The entry of the palette that an address names, and that of the bank.
fn palette_at(address: u8) -> usize
    ensures { (result ≡ address) × (result < palette_count) }
{
    address as usize
}

fn bank_at(address: u8) -> usize
    ensures { (result ≡ address % bank_count) × (result < bank_count) }
{
    address as usize % BANK
}

// The component of the next colour, of the entry of the bank or the palette.
fn component_of(bank: bool, in_bank: Colour, in_palette: Colour, next: u8) -> u16
    ensures { result ≡ componentOf (cond bank in_bank in_palette) next }
{
    if bank {
        in_bank.component(next) as u16
    } else {
        in_palette.component(next) as u16
    }
}

// The entry of the palette that the pointer names, and that of the bank: two functions, each within the bound of its own array.
pub fn palette_entry(state: State) -> usize
    ensures { (result ≡ state.pointer.address) × (result < palette_count) }
{
    let pointer = state.pointer;
    palette_at(pointer.address)
}

pub fn bank_entry(state: State) -> usize
    ensures { (result ≡ state.pointer.address % bank_count) × (result < bank_count) }
{
    let pointer = state.pointer;
    bank_at(pointer.address)
}

// The component of the next colour, of the entry of the bank or the palette that the pointer names.
pub fn component(bank: bool, in_bank: Colour, in_palette: Colour, state: State) -> u16
    ensures { result ≡ componentOf (cond bank in_bank in_palette) state.pointer.next }
{
    let pointer = state.pointer;
    component_of(bank, in_bank, in_palette, pointer.next)
}

// One register stored where it stands.
fn store_in(registers: &mut [u16; REGISTERS], number: usize, reach: u16, value: u16)
    ensures { number < register_count → registers.new ≡ set registers.old number (storeBits reach (get_or registers.old number 0) value) }
{
    if number < REGISTERS {
        registers[number] = bits::store(reach, registers[number], value);
    }
}

// What an access leaves beside the registers: its reply's code and value, the state; whether what was read is the pixel that the pointer
// names, and whether it paints, a colour, in the bank or the palette. The code is a number, as the reply has it.
#[derive(Clone, Copy)]
pub struct Served {
    pub code: u8,
    pub value: u16,
    pub state: State,
    pub pixel: bool,
    pub paints: bool,
    pub bank: bool,
    pub colour: Colour,
}

// An access that is answered, before its effect.
pub fn answered(answer: Answer, pixel: bool, state: State) -> Served
    ensures { Answered answer pixel state result }
{
    Served {
        code: answer.code(),
        value: answer.value(),
        state,
        pixel,
        paints: false,
        bank: false,
        colour: Colour {
            red: 0,
            green: 0,
            blue: 0,
        },
    }
}

// An effect on the registers where they stand, and on the other parts by value.
pub fn put_effect(registers: &mut [u16; REGISTERS], before: Served, effect: Effect) -> Served
    ensures { Puts registers.old before effect registers.new result }
{
    let mut after = before;
    match effect {
        Effect::Nothing => {}
        Effect::Store {
            register,
            reach,
            value,
            flips,
        } => {
            store_in(registers, register, reach, value);
            after.state = before.state.flipped(flips);
        }
        Effect::Toggle(toggle) => {
            after.state = before.state.toggling(toggle);
        }
        Effect::Move(pointer) => {
            after.state = before.state.pointing(pointer);
        }
        Effect::Step { pointer, marks } => {
            after.state = before.state.stepping(pointer, marks);
        }
        Effect::Paint {
            bank,
            entry: _,
            pointer,
            colour,
            marks,
        } => {
            after.paints = true;
            after.bank = bank;
            after.colour = colour;
            after.state = before.state.stepping(pointer, marks);
        }
        Effect::Pass(line) => {
            after.state = before.state.passing(line);
        }
    }
    after
}

// One access: the registers where they stand, the state by value.
fn serve(tables: &Tables, registers: &mut [u16; REGISTERS], state: State, asked: Record) -> Served
    requires { (tables.now.cells ≡ cell_table state.chip) × (tables.now.stored ≡ stored_table state.chip) × T (sound (seen registers.old state)) }
    ensures { Serves (seen registers.old state) asked registers.new result }
{
    let decision = decide(&tables.cells, &tables.stored, registers, state, asked);
    let before = answered(decision.answer, decision.pixel, state);
    put_effect(registers, before, decision.effect)
}

// What was served, as one number.
fn said_of(served: Served, pointer: Pointer) -> u64
    ensures { Says served pointer result }
{
    if served.paints {
        return painted(served.bank, served.colour, pointer.address);
    }
    if served.pixel {
        return shown(pointer.address, pointer.next);
    }
    told(served.code, served.value)
}

// The tables of a chip that a run goes by.
#[derive(Drop)]
struct Tables {
    chip: Chip,
    cells: [u8; CELLS],
    stored: [u16; REGISTERS],
}

// What accesses change where it stands: the registers, the bytes of the state, the line, and the codes of the classes, which go by the registers.
#[derive(Drop)]
struct Parts {
    registers: [u16; REGISTERS],
    smalls: [u8; SMALLS],
    line: u16,
    codes: [u8; CLASSES],
}

// One access in the order of the checks. In place of its call it would slow down those that go by their slot.
#[inline(never)]
fn ordered(tables: &Tables, parts: &mut Parts, asked: Record) -> u64
    requires { Ready tables.now.cells tables.now.stored parts.old.registers parts.old.smalls parts.old.codes tables.now.chip parts.old.line }
    ensures { Turns parts.old.registers parts.old.smalls tables.now.chip parts.old.line asked parts.new.registers parts.new.smalls parts.new.codes parts.new.line result }
{
    let state = state_in(&parts.smalls, parts.line, tables.chip);
    let served = serve(tables, &mut parts.registers, state, asked);
    parts.line = served.state.line;
    parts.smalls = smalls_of(served.state);
    parts.codes = codes_of(&parts.registers);
    said_of(served, state.pointer)
}

fn class_of(class: u8) -> usize
    ensures { (result ≡ class % 8) × (result < 8) }
{
    class as usize % CLASSES
}

// One access: by its slot, or in the order of the checks.
fn turn(slots: &[Slot; SLOTS], tables: &Tables, parts: &mut Parts, key: u32, value: u32) -> u64
    requires { Ready tables.now.cells tables.now.stored parts.old.registers parts.old.smalls parts.old.codes tables.now.chip parts.old.line × T (slots_true (cell_table tables.now.chip) slots.now) }
    ensures { Turns parts.old.registers parts.old.smalls tables.now.chip parts.old.line (by_the_key key value) parts.new.registers parts.new.smalls parts.new.codes parts.new.line result }
{
    let slot = slots[slot_of(key)];
    if slot.key != key || slot.limit <= value {
        return ordered(tables, parts, record_by(key, value));
    }
    let refusal = parts.codes[class_of(slot.class)];
    if refusal != 0 {
        return told(refusal, 0);
    }
    if key % 2 == 1 {
        return turn_write(
            &tables.cells,
            &tables.stored,
            &mut parts.registers,
            &mut parts.smalls,
            &mut parts.codes,
            slot.cell,
            (value % 65536) as u16,
        );
    }
    turn_read(
        &tables.cells,
        &parts.registers,
        &mut parts.smalls,
        parts.line,
        tables.chip,
        slot.cell,
    )
}

// What a record says to the colours: one is painted, or shown in place of the value; gives the value of the reply.
fn coloured(
    registers: &[u16; REGISTERS],
    palette: &mut [Colour; PALETTE],
    bank: &mut [Colour; BANK],
    said: u64,
) -> u16
    ensures { Coloured registers.now palette.old bank.old said palette.new bank.new result }
{
    if said < PLAIN {
        return value_in(said);
    }
    let in_palette = palette_at(address_in(said));
    let in_bank = bank_at(address_in(said));
    if is_pixel(said) {
        return component_of(
            is_in_bank(registers),
            bank[in_bank],
            palette[in_palette],
            next_in(said),
        );
    }
    if paints(said) {
        if paints_bank(said) {
            bank[in_bank] = colour_in(said);
        } else {
            palette[in_palette] = colour_in(said);
        }
    }
    value_in(said)
}

// The first `count` whole records of a trace, which has them, into as many places of a reply buffer, which has them.
fn run_whole(whole: File, trace: &[u8], replies: &mut [u8], count: usize) -> File
    requires { T (sound whole) × (8 * count ≤ length trace.now) × (8 * count ≤ length replies.old) }
    ensures value { result ≡ file_after whole (items count trace.now) }
    ensures replies_after { replies.new ≡ repliesOf whole (items count trace.now) ++ drop (8 * count) replies.old }
{
    let state = whole.state;
    let tables = Tables {
        chip: state.chip,
        cells: places::cells(state.chip),
        stored: File::stored(state.chip),
    };
    let slots = all_slots();
    let mut parts = Parts {
        registers: whole.registers,
        smalls: smalls_of(state),
        line: state.line,
        codes: codes_of(&whole.registers),
    };
    let mut palette = whole.palette;
    let mut bank = whole.bank;
    // By number: it says where the record stands and where its reply goes.
    for n in 0..count {
        let key = four_at(trace, 8 * n);
        let value = four_at(trace, 8 * n + 4);
        let said = turn(slots, &tables, &mut parts, key, value);
        let shown = coloured(&parts.registers, &mut palette, &mut bank, said);
        put_said(replies, 8 * n, key, code_in(said), shown);
    }
    File {
        registers: parts.registers,
        palette,
        bank,
        state: state_in(&parts.smalls, parts.line, tables.chip),
    }
}

// The reply to the fragment from a place of a trace on: code 2. Where the trace ends before it, or there is no room, nothing is written.
pub fn put_fragment(trace: &[u8], replies: &mut [u8], at: usize)
    ensures replies_after { at ≤ length trace.now → at + 8 ≤ length replies.old → replies.new ≡ take at replies.old ++ reply_bytes (reply_to (record_of (take 8 (drop at trace.now))) MalformedAnswer) ++ drop (at + 8) replies.old }
    ensures replies_unchanged { (length trace.now < at → replies.new ≡ replies.old) × (length replies.old < at + 8 → replies.new ≡ replies.old) }
{
    if trace.len() < at {
        return;
    }
    let left = &trace[at..];
    put_reply(replies, at, record_of(left), 2, 0);
}

// A run from a sound file.
fn run_sound(whole: File, trace: &[u8], replies: &mut [u8]) -> Ran
    requires { T (sound whole) }
    ensures answer_value { (result.answer ≡ DoneAnswer 0) × (result.file ≡ file_after whole (items (run_count trace.now replies.old) trace.now)) × (result.count ≡ run_count trace.now replies.old) }
    ensures replies_after { replies.new ≡ repliesOf whole (items (run_count trace.now replies.old) trace.now) ++ drop (8 * run_count trace.now replies.old) replies.old }
{
    let places = replies.len() / 8;
    let full = trace.len() / 8;
    if places <= full {
        return Ran {
            answer: Answer::Done(0),
            file: run_whole(whole, trace, replies, places),
            count: places,
        };
    }
    let file = run_whole(whole, trace, replies, full);
    if trace.len() % 8 == 0 {
        return Ran {
            answer: Answer::Done(0),
            file,
            count: full,
        };
    }
    put_fragment(trace, replies, 8 * full);
    Ran {
        answer: Answer::Done(0),
        file,
        count: full + 1,
    }
}

// A run over a trace: replies into whole 8-byte places of a buffer until records or places end.
pub fn run(whole: File, trace: &[u8], replies: &mut [u8]) -> Ran
    ensures answer_value { (result.answer ≡ (run_of whole trace.now replies.old).answer) × (result.file ≡ (run_of whole trace.now replies.old).file) × (result.count ≡ (run_of whole trace.now replies.old).count) }
    ensures replies_after { replies.new ≡ (run_of whole trace.now replies.old).buffer }
{
    if is_sound(whole) {
        return run_sound(whole, trace, replies);
    }
    Ran {
        answer: Answer::NotSound,
        file: whole,
        count: 0,
    }
}
