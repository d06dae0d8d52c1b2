// The short plan of a saved file and a set.
ghost use Rattle.std.specs.Prelude.{◌≡◌, false, ◌+◌, ◌*◌, ◌≤◌, length};
ghost use Rattle.file.specs.Chips.{same_chip};
ghost use Rattle.plan.specs.Appended.{Appended};
ghost use Rattle.plan.specs.ShortAnswers.{without_room};
ghost use Rattle.plan.specs.ShortPromises.{ShortKept};
ghost use Rattle.short_roads.specs.ShortPlan.{stage_records, short_records};

use crate::chips::on_one_chip;
use crate::rows::register_rows;
use crate::short_answer::ShortAnswer;
use crate::short_stages::{put_named_registers, put_short_colours};
use crate::stages::{put_closing, put_indices, put_marks, put_opening};
use file::{File, is_sound};
use touched::{Touched, agrees_outside};

// The records of a short plan, stage by stage; none for an empty set.
fn put_short(saved: File, set: Touched, buffer: &mut [u8], at: usize) -> usize
    requires { at + 8 * length (short_records saved set) ≤ length buffer.old }
    ensures { Appended buffer.old at (short_records saved set) buffer.new result }
{
    if set.is_empty() {
        return at;
    }
    put_stages(saved, set, buffer, at)
}

// The same of a set that isn't empty.
fn put_stages(saved: File, set: Touched, buffer: &mut [u8], at: usize) -> usize
    requires { at + 8 * length (stage_records saved set) ≤ length buffer.old }
    ensures { Appended buffer.old at (stage_records saved set) buffer.new result }
{
    let registers = &saved.registers;
    let rows = register_rows();
    let at = put_opening(registers, buffer, at);
    let at = put_short_colours(set, &saved.palette, &saved.bank, buffer, at);
    let at = put_marks(saved.state.marks, buffer, at);
    let at = put_named_registers(&rows, &set.registers, registers, buffer, at);
    let at = put_indices(registers, saved.state.toggle, buffer, at);
    put_closing(registers, saved.state.pointer, buffer, at)
}

// What refuses a short plan but for its buffer: 12 by the current file and by the saved one, 15, 13, 20.
#[tactic(auto, unfolding(crate::specs::ShortAnswers::without_room))]
fn refusal(current: File, saved: File, set: Touched) -> Result<(), ShortAnswer>
    ensures { result ≡ without_room current saved set }
{
    if !is_sound(current) {
        return Err(ShortAnswer::NotSound);
    }
    if !is_sound(saved) {
        return Err(ShortAnswer::NotSound);
    }
    if !on_one_chip(current, saved) {
        return Err(ShortAnswer::OtherChip);
    }
    if saved.state.pointer.next != 0 {
        return Err(ShortAnswer::NotBeforeRed);
    }
    if !agrees_outside(set, current, saved) {
        return Err(ShortAnswer::Elsewhere);
    }
    Ok(())
}

// A short plan back to the saved file, for a file that differs from it inside the set only, and how many records it has: 12, 15, 13, 20, 11, or the buffer's
// first 8 bytes times the count filled. Its records go by the saved file and the set alone. A refusal leaves the buffer as found.
pub fn short_plan(
    current: File,
    saved: File,
    set: Touched,
    buffer: &mut [u8],
) -> Result<usize, ShortAnswer>
    ensures { ShortKept current saved set buffer.old buffer.new result }
{
    refusal(current, saved, set)?;
    if buffer.len() < 8192 {
        return Err(ShortAnswer::ShortBuffer);
    }
    Ok(put_short(saved, set, buffer, 0) / 8)
}
