// One access in parts: the common checks, then answer and effect by place. Nothing here changes a file; whatever tables are lent, each function answers.
ghost use Rattle.std.specs.Prelude.{◌≡◌, ◌%◌, ◌<◌, false, cond, ◌&&◌, T, leb, ltb, get_or, []};
ghost use Rattle.file.specs.Chips.{pci02};
ghost use Rattle.file.specs.File.{seen, crtc_locked, bank_count};
ghost use Rattle.file.specs.Registers.{register_count};
ghost use Rattle.file.specs.State.{unasked};
ghost use Rattle.file.specs.declared.answer.Answer.TheVariants.{Done as DoneAnswer};
ghost use Rattle.file.specs.declared.effect.Effect.TheVariants.{Nothing};
ghost use Rattle.places.specs.EngineCells.{in_file};
ghost use Rattle.places.specs.Profile.{profile, stores_to, writes_pixel, passes_lines, gives_pixel};
ghost use Rattle.access.specs.Access.{locked_out, palette_up, in_bank, pixel_write, shown_state, v_port_state, v_sync_start, v_sync_end};
ghost use Rattle.access.specs.Access.{line_shown, line_after, display_state};
ghost use Rattle.bits.specs.Store.{store as storeBits};
ghost use Rattle.file.specs.Names.{B0 as B0Number};
ghost use Rattle.access.specs.Checks.{bad_access, bad_passing, space_off};
ghost use Rattle.access.specs.Engine.{no_access, lines_pass, other_row, nothing_told, looked_by, reach_by, decided_write, decided_read, decided_by};

use crate::record::Record;
use file::{
    ARX, Answer, B0, BANK, CAPTURE_Y_START, CR0, CR1A, CR6, CR7, CR11, Effect, MISC, PCI04,
    Pointer, REGISTERS, State,
};
use places::{CELLS, OTHER_WAY_HELD, Place, WIDER_HELD};

// What a record that passes the common checks means: the place of a cell, or that lines pass.
#[derive(Clone, Copy)]
pub enum Meant {
    At(u8),
    Lines,
}

// No ordinary access in good form.
#[tactic(auto, unfolding(crate::specs::Engine::no_access))]
fn is_no_access(asked: Record) -> bool
    ensures { result ≡ no_access asked }
{
    5 < asked.kind || is_bad_access(asked)
}

// An ordinary access in another form: width not 1 or 2; a write's value that doesn't fit the width; a read's value not 0.
#[tactic(auto, unfolding(crate::specs::Checks::bad_access, crate::specs::Checks::is_write))]
pub fn is_bad_access(asked: Record) -> bool
    ensures { result ≡ bad_access asked }
{
    match (asked.kind % 2, asked.width) {
        (1, 1) => 0x100 <= asked.value,
        (1, 2) => 0x1_0000 <= asked.value,
        (_, 1 | 2) => asked.value != 0,
        _ => true,
    }
}

// Kind 6 in good form: lines pass.
#[tactic(auto, unfolding(crate::specs::Engine::lines_pass, crate::specs::Checks::is_passing))]
fn is_passing(asked: Record) -> bool
    ensures { result ≡ lines_pass asked }
{
    asked.kind == 6 && !is_bad_passing(asked)
}

// Of kind 6: another form than width 2, address 0, value 1 to 65,535.
#[tactic(auto, unfolding(crate::specs::Checks::bad_passing))]
pub fn is_bad_passing(asked: Record) -> bool
    ensures { result ≡ bad_passing asked }
{
    !(asked.width == 2 && asked.address == 0 && 1 <= asked.value && asked.value <= 65535)
}

// Code 3: a port access with PCI04[0]=0, or an MMIO access with PCI04[1]=0.
pub fn is_space_off(registers: &[u16; REGISTERS], asked: Record) -> bool
    ensures { result ≡ space_off (seen registers.now unasked) asked }
{
    match asked.kind / 2 {
        1 => registers[PCI04] % 2 == 0,
        2 => registers[PCI04] / 2 % 2 == 0,
        _ => false,
    }
}

// Code 5, of an address that is held: of the ports, 3B?h and 3D?h are the CRTC's.
fn is_other_row(registers: &[u16; REGISTERS], asked: Record) -> bool
    ensures { result ≡ other_row (seen registers.now unasked) asked }
{
    let half = registers[MISC] % 2;
    match (asked.kind / 2, asked.address / 16) {
        (1, 0x3B) => half == 1,
        (1, 0x3D) => half == 0,
        _ => false,
    }
}

// Codes 16, 17 and 4, by the cell of an address that is not held.
#[tactic(auto, unfolding(crate::specs::Engine::nothing_told))]
fn nothing_held(cell: u8) -> Answer
    ensures { result ≡ nothing_told cell }
{
    match cell {
        OTHER_WAY_HELD => Answer::OtherDirection,
        WIDER_HELD => Answer::InsideWider,
        _ => Answer::NotHeld,
    }
}

// The checks that every record passes before its place is asked, in 01's order. Lines that pass are told among what is no access.
fn look(cells: &[u8; CELLS], registers: &[u16; REGISTERS], asked: Record) -> Result<Meant, Answer>
    ensures { result ≡ looked_by cells.now (seen registers.now unasked) asked }
{
    if is_no_access(asked) {
        return if is_passing(asked) {
            Ok(Meant::Lines)
        } else {
            Err(Answer::Malformed)
        };
    }
    if is_space_off(registers, asked) {
        return Err(Answer::SpaceOff);
    }
    let cell = places::cell_at(cells, asked.kind, asked.address);
    if places::is_nothing(cell) {
        return Err(nothing_held(cell));
    }
    if is_other_row(registers, asked) {
        return Err(Answer::OtherHalf);
    }
    if places::width_of(cell) != asked.width {
        return Err(Answer::WrongWidth);
    }
    Ok(Meant::At(cell))
}

// CR11[7] locks CR0 to CR6.
#[tactic(auto, unfolding(crate::specs::Access::locked_out))]
pub fn is_locked_out(registers: &[u16; REGISTERS], number: usize) -> bool
    ensures { result ≡ locked_out (seen registers.now unasked) number }
{
    is_locked(registers) && CR0 <= number && number <= CR6
}

// CR11[7] is 1.
pub fn is_locked(registers: &[u16; REGISTERS]) -> bool
    ensures { result ≡ crtc_locked (seen registers.now unasked) }
{
    registers[CR11] / 128 % 2 == 1
}

// The bits of a register that a write may change.
#[tactic(auto, unfolding(crate::specs::Engine::reach_by, crate::specs::Access::locked_reach))]
fn reach_in(stored: &[u16; REGISTERS], registers: &[u16; REGISTERS], number: usize) -> u16
    requires { number < register_count }
    ensures { result ≡ reach_by stored.now (seen registers.now unasked) number }
{
    if is_locked(registers) && number == CR7 {
        0x10
    } else {
        stored[number]
    }
}

// B0[7] stops the palette, and so does static sync, CR1A[3:2].
#[tactic(auto, unfolding(crate::specs::Access::palette_up, file::specs::File::seen, file::specs::File::register, bits::specs::Store::bit))]
pub fn is_palette_up(registers: &[u16; REGISTERS]) -> bool
    ensures { result ≡ palette_up (seen registers.now unasked) }
{
    registers[B0] / 128 % 2 == 0 && registers[CR1A] / 8 % 2 == 0 && registers[CR1A] / 4 % 2 == 0
}

// The pointer's entry is one of the bank's.
pub fn is_in_bank(registers: &[u16; REGISTERS]) -> bool
    ensures { result ≡ in_bank (seen registers.now unasked) }
{
    registers[B0] / 8 % 2 == 1
}

// The number of the entry that an address names.
pub fn entry_number(bank: bool, address: u8) -> usize
    ensures { result ≡ cond bank (address % bank_count) address }
{
    if bank {
        address as usize % BANK
    } else {
        address as usize
    }
}

// What an access answers and what it does, and whether what was read is the pixel that the pointer names: the answer then has 0 for it.
// No `Result`: code 1 is no refusal and may flip the toggle, so answer and effect both count.
#[derive(Clone, Copy)]
pub struct Decision {
    pub answer: Answer,
    pub effect: Effect,
    pub pixel: bool,
}

// An answer that does nothing, as every refusal.
fn only(answer: Answer) -> Decision
    ensures { result ≡ record { answer = answer; effect = Nothing; pixel = false } }
{
    Decision {
        answer,
        effect: Effect::Nothing,
        pixel: false,
    }
}

// An access that is done and gives no value.
fn done(effect: Effect) -> Decision
    ensures { result ≡ record { answer = DoneAnswer 0; effect = effect; pixel = false } }
{
    Decision {
        answer: Answer::Done(0),
        effect,
        pixel: false,
    }
}

// A write to a register: the lock refuses CR0 to CR6.
fn write_register(
    stored: &[u16; REGISTERS],
    registers: &[u16; REGISTERS],
    number: usize,
    flips: bool,
    value: u16,
) -> Decision
    requires { number < register_count }
    ensures { result ≡ decided_write stored.now (seen registers.now unasked) (stores_to number flips) value }
{
    if is_locked_out(registers, number) {
        return only(Answer::Locked);
    }
    done(Effect::Store {
        register: number,
        reach: reach_in(stored, registers, number),
        value,
        flips,
    })
}

// What a pixel data write does: at blue it stores an entry.
fn pixel_write(registers: &[u16; REGISTERS], state: State, byte: u8) -> Effect
    ensures { result ≡ pixel_write (seen registers.now state) byte }
{
    let pointer = state.pointer;
    let after = pointer.after_write(byte);
    let marks = pointer.marks(false);
    if !pointer.stores() {
        return Effect::Step {
            pointer: after,
            marks,
        };
    }
    let bank = is_in_bank(registers);
    let entry = entry_number(bank, pointer.address);
    Effect::Paint {
        bank,
        entry,
        pointer: after,
        colour: pointer.mixed(byte),
        marks,
    }
}

// A pixel data write.
fn write_pixel(registers: &[u16; REGISTERS], state: State, value: u16) -> Decision
    ensures { result ≡ decided_write [] (seen registers.now state) writes_pixel value }
{
    if is_palette_up(registers) {
        done(pixel_write(registers, state, (value % 256) as u8))
    } else {
        only(Answer::PaletteDown)
    }
}

// The line that the display is at, reduced by the total.
pub fn line_shown(registers: &[u16; REGISTERS], state: State) -> u16
    ensures { result ≡ line_shown (seen registers.now state) }
{
    state.line % timing::v_total(registers).0
}

// The line after some more. The sum may pass 16 bits.
pub fn line_after(registers: &[u16; REGISTERS], state: State, lines: u16) -> u16
    ensures { result ≡ line_after (seen registers.now state) lines }
{
    let total = timing::v_total(registers).0;
    let sum = u32::from(state.line % total) + u32::from(lines);
    (sum % u32::from(total)) as u16
}

// Lines pass.
fn pass_lines(registers: &[u16; REGISTERS], state: State, lines: u16) -> Decision
    ensures { result ≡ decided_write [] (seen registers.now state) passes_lines lines }
{
    done(Effect::Pass(line_after(registers, state, lines)))
}

// A write at a place.
fn write_at(
    stored: &[u16; REGISTERS],
    registers: &[u16; REGISTERS],
    state: State,
    place: Place,
    value: u16,
) -> Decision
    requires { T (in_file place) }
    ensures { result ≡ decided_write stored.now (seen registers.now state) (profile place).writing value }
{
    match place {
        Place::Register(number) => write_register(stored, registers, number, false, value),
        Place::Attribute(number) => write_register(stored, registers, number, true, value),
        Place::PaletteState => write_register(stored, registers, B0, false, value),
        Place::ReadAddress => done(Effect::Move(Pointer::addressed(true, (value % 256) as u8))),
        Place::WriteAddress => done(Effect::Move(Pointer::addressed(false, (value % 256) as u8))),
        Place::PixelData => write_pixel(registers, state, value),
        Place::UnnamedAttribute => Decision {
            answer: Answer::NoRegister,
            effect: Effect::Toggle(!state.toggle),
            pixel: false,
        },
        Place::Unnamed => only(Answer::NoRegister),
        Place::VPortState => write_register(stored, registers, CAPTURE_Y_START, false, value),
        Place::Fixed(_)
        | Place::ToggleState
        | Place::AttributeIndex
        | Place::ToggleReset
        | Place::DeviceId
        | Place::CurrentLine => only(Answer::ReadOnly),
        Place::Passing => pass_lines(registers, state, value),
    }
}

// A pixel data read, which moves the pointer.
fn read_pixel(registers: &[u16; REGISTERS], state: State) -> Decision
    ensures { result ≡ decided_read (seen registers.now state) gives_pixel }
{
    let pointer = state.pointer;
    if is_palette_up(registers) {
        return Decision {
            answer: Answer::Done(0),
            effect: Effect::Step {
                pointer: pointer.after_read(),
                marks: pointer.marks(true),
            },
            pixel: true,
        };
    }
    only(Answer::PaletteDown)
}

// What B0 reads: the last pixel data access in its low bits.
pub fn palette_state(registers: &[u16; REGISTERS], state: State) -> u16
    ensures { result ≡ storeBits shown_state (get_or registers.now B0Number 0) state.marks }
{
    bits::store(0x07, registers[B0], state.marks as u16)
}

// What PCI02 reads.
pub fn device_id(state: State) -> u16
    ensures { result ≡ pci02 state.chip }
{
    let chip = state.chip;
    chip.device_id()
}

// What 10Ch reads: on the 5462 two of its bits read 1.
pub fn v_port_state(registers: &[u16; REGISTERS], state: State) -> u16
    ensures { result ≡ v_port_state (seen registers.now state) }
{
    let chip = state.chip;
    let shown = chip.v_port_shown();
    bits::store(shown, registers[CAPTURE_Y_START], shown)
}

// A line is in vertical sync.
#[tactic(auto, unfolding(crate::specs::Access::v_sync_start, crate::specs::Access::v_sync_end))]
fn is_in_sync(registers: &[u16; REGISTERS], line: u16) -> bool
    ensures { result ≡ (leb (v_sync_start (seen registers.now unasked)) line && ltb line (v_sync_end (seen registers.now unasked))) }
{
    timing::v_sync_start(registers).0 <= line && line < timing::v_sync_end(registers).0
}

// What 3?Ah reads: bit 3 in vertical sync, bit 0 past the display.
pub fn display_state(registers: &[u16; REGISTERS], state: State) -> u16
    ensures { result ≡ display_state (seen registers.now state) }
{
    let line = line_shown(registers, state);
    let sync = is_in_sync(registers, line);
    let past = timing::v_display(registers).0 <= line;
    shown(sync, 0x08) + shown(past, 0x01)
}

// A bit that reads 1 or not: its callers add two of them up.
fn shown(on: bool, bit: u16) -> u16
    ensures { result ≡ cond on bit 0 }
{
    if on { bit } else { 0 }
}

// A read at a place.
fn read_at(registers: &[u16; REGISTERS], state: State, place: Place) -> Decision
    requires { T (in_file place) }
    ensures { result ≡ decided_read (seen registers.now state) (profile place).reading }
{
    let pointer = state.pointer;
    match place {
        Place::Register(number) | Place::Attribute(number) => {
            only(Answer::Done(registers[number]))
        }
        Place::Fixed(value) => only(Answer::Done(value)),
        Place::ToggleState => only(Answer::Done(if state.toggle { 0x80 } else { 0 })),
        Place::AttributeIndex => only(Answer::Done(registers[ARX])),
        Place::PaletteState => only(Answer::Done(palette_state(registers, state))),
        Place::ReadAddress => only(Answer::Done(pointer.dac_state())),
        Place::WriteAddress => only(Answer::Done(pointer.address as u16)),
        Place::PixelData => read_pixel(registers, state),
        Place::ToggleReset => Decision {
            answer: Answer::Done(display_state(registers, state)),
            effect: Effect::Toggle(false),
            pixel: false,
        },
        Place::Unnamed | Place::UnnamedAttribute | Place::Passing => only(Answer::NoRegister),
        Place::DeviceId => only(Answer::Done(device_id(state))),
        Place::VPortState => only(Answer::Done(v_port_state(registers, state))),
        Place::CurrentLine => only(Answer::Done(line_shown(registers, state))),
    }
}

// Answer and effect of a record in a file of these registers and this state.
pub fn decide(
    cells: &[u8; CELLS],
    stored: &[u16; REGISTERS],
    registers: &[u16; REGISTERS],
    state: State,
    asked: Record,
) -> Decision
    ensures { result ≡ decided_by cells.now stored.now (seen registers.now state) asked }
{
    match look(cells, registers, asked) {
        Err(answer) => only(answer),
        Ok(Meant::Lines) => pass_lines(registers, state, asked.value as u16),
        Ok(Meant::At(cell)) => {
            let place = places::place_of(cells, registers, state, cell);
            if asked.kind % 2 == 1 {
                write_at(stored, registers, state, place, asked.value as u16)
            } else {
                read_at(registers, state, place)
            }
        }
    }
}
