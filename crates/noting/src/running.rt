// A run that keeps the set: the loop of a run without it, with the set as one more local.
ghost use Rattle.std.specs.Prelude.{◌≡◌, ◌++◌, ◌+◌, ◌*◌, ◌≤◌, T, length, take, drop};
ghost use Rattle.file.specs.declared.answer.Answer.TheVariants.{Done as DoneAnswer};
ghost use Rattle.file.specs.File.{seen};
ghost use Rattle.file.specs.Registers.{stored_table};
ghost use Rattle.file.specs.Sound.{sound};
ghost use Rattle.places.specs.EngineCells.{cell_table};
ghost use Rattle.access.specs.Access.{reach as reach_in};
ghost use Rattle.trace.specs.EngineServed.{Serves};
ghost use Rattle.trace.specs.Records.{items, record_of};
ghost use Rattle.trace.specs.Run.{file_after, replies as repliesOf, run_count};
ghost use Rattle.touched.specs.Noted.{noted_all};
ghost use Rattle.noting.specs.Noting.{run_reaches, RunNotedKept};

use crate::kept::Noted;
use access::{Record, decide, is_in_bank};
use file::{Answer, File, REGISTERS, Reach, State, is_sound};
use places::CELLS;
use touched::Touched;
use trace::{
    Ran, Served, answered, bank_entry, component, palette_entry, put_effect, put_fragment,
    put_reply, record_of,
};

// What an access leaves beside the registers, and what it reached.
#[derive(Clone, Copy)]
pub struct ServedNoting {
    pub served: Served,
    pub reach: Reach,
}

// The record of a place where 8 bytes stand.
fn record_at(bytes: &[u8], at: usize) -> Record
    requires { at + 8 ≤ length bytes.now }
    ensures { result ≡ record_of (take 8 (drop at bytes.now)) }
{
    let left = &bytes[at..];
    record_of(left)
}

// One access: the registers where they stand, the state by value.
fn serve_noting(
    cells: &[u8; CELLS],
    stored: &[u16; REGISTERS],
    registers: &mut [u16; REGISTERS],
    state: State,
    asked: Record,
) -> ServedNoting
    requires { (cells.now ≡ cell_table state.chip) × (stored.now ≡ stored_table state.chip) × T (sound (seen registers.old state)) }
    ensures { Serves (seen registers.old state) asked registers.new result.served × (result.reach ≡ reach_in (seen registers.old state) asked) }
{
    let decision = decide(cells, stored, registers, state, asked);
    let answer = decision.answer;
    let effect = decision.effect;
    let before = answered(answer, decision.pixel, state);
    let reach = effect.reach();
    let served = put_effect(registers, before, effect);
    ServedNoting { served, reach }
}

// The first `count` whole records of a trace, which has them, into as many places of a reply buffer, which has them.
fn run_whole_noting(
    whole: File,
    touched: Touched,
    trace: &[u8],
    replies: &mut [u8],
    count: usize,
) -> Noted<File>
    requires { T (sound whole) × (8 * count ≤ length trace.now) × (8 * count ≤ length replies.old) }
    ensures file_value { (result.done ≡ file_after whole (items count trace.now)) × (result.touched ≡ noted_all (run_reaches whole (items count trace.now)) touched) }
    ensures replies_after { replies.new ≡ repliesOf whole (items count trace.now) ++ drop (8 * count) replies.old }
{
    let mut registers = whole.registers;
    let mut palette = whole.palette;
    let mut bank = whole.bank;
    let mut state = whole.state;
    let mut set = touched;
    let chip = state.chip;
    let cells = places::cells(chip);
    let stored = File::stored(chip);
    // By number: it says where the record stands and where its reply goes.
    for n in 0..count {
        let asked = record_at(trace, 8 * n);
        let done = serve_noting(&cells, &stored, &mut registers, state, asked);
        let served = done.served;
        let reach = done.reach;
        set = set.note(reach);
        let mut value = served.value;
        if served.pixel {
            let banked = is_in_bank(&registers);
            let in_bank = bank[bank_entry(state)];
            let in_palette = palette[palette_entry(state)];
            value = component(banked, in_bank, in_palette, state);
        }
        put_reply(replies, 8 * n, asked, served.code, value);
        let colour = served.colour;
        if served.paints {
            if served.bank {
                bank[bank_entry(state)] = colour;
            } else {
                palette[palette_entry(state)] = colour;
            }
        }
        state = served.state;
    }
    let done = File {
        registers,
        palette,
        bank,
        state,
    };
    Noted { done, touched: set }
}

// A run from a sound file.
fn run_sound_noting(whole: File, touched: Touched, trace: &[u8], replies: &mut [u8]) -> Noted<Ran>
    requires { T (sound whole) }
    ensures { RunNotedKept touched whole trace.now replies.old replies.new result }
{
    let places = replies.len() / 8;
    let full = trace.len() / 8;
    if places <= full {
        return ran(
            run_whole_noting(whole, touched, trace, replies, places),
            places,
        );
    }
    let behind = run_whole_noting(whole, touched, trace, replies, full);
    if trace.len() % 8 == 0 {
        return ran(behind, full);
    }
    put_fragment(trace, replies, 8 * full);
    ran(behind, full + 1)
}

// A run that is done, by what stands behind its records and how many they are.
fn ran(behind: Noted<File>, count: usize) -> Noted<Ran>
    ensures { result ≡ record { done = record { answer = DoneAnswer 0; file = behind.done; count = count }; touched = behind.touched } }
{
    Noted {
        done: Ran {
            answer: Answer::Done(0),
            file: behind.done,
            count,
        },
        touched: behind.touched,
    }
}

// A run over a trace as without the set: replies into whole 8-byte places of a buffer until records or places end.
pub fn run_noting(whole: File, touched: Touched, trace: &[u8], replies: &mut [u8]) -> Noted<Ran>
    ensures { RunNotedKept touched whole trace.now replies.old replies.new result }
{
    if is_sound(whole) {
        return run_sound_noting(whole, touched, trace, replies);
    }
    let done = Ran {
        answer: Answer::NotSound,
        file: whole,
        count: 0,
    };
    Noted { done, touched }
}
