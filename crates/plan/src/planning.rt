ghost use Rattle.std.specs.Prelude.{◌≡◌, ◌+◌, ◌*◌, ◌≤◌, length};
ghost use Rattle.plan.specs.Appended.{Appended};
ghost use Rattle.roads.specs.Plan.{plan_records};
ghost use Rattle.plan.specs.Promises.{PlanKept};

use crate::rows::{put_registers, register_rows};
use crate::stages::{put_closing, put_colours, put_indices, put_marks, put_opening};
use file::{Answer, File, is_sound};

// The records of a plan, stage by stage.
fn put_plan(wanted: File, buffer: &mut [u8], at: usize) -> usize
    requires { at + 8 * length (plan_records wanted) ≤ length buffer.old }
    ensures { Appended buffer.old at (plan_records wanted) buffer.new result }
{
    let registers = &wanted.registers;
    let rows = register_rows();
    let at = put_opening(registers, buffer, at);
    let at = put_colours(&wanted.palette, &wanted.bank, buffer, at);
    let at = put_marks(wanted.state.marks, buffer, at);
    let at = put_registers(&rows, registers, buffer, at);
    let at = put_indices(registers, wanted.state.toggle, buffer, at);
    put_closing(registers, wanted.state.pointer, buffer, at)
}

// A plan of the wanted file, whatever file it is run from, and how many records it has: 12, 13, 11, or the buffer's first 8 bytes times the count
// filled. A refusal leaves the buffer as found.
pub fn plan(wanted: File, buffer: &mut [u8]) -> Result<usize, Answer>
    ensures { PlanKept wanted buffer.old buffer.new result }
{
    if !is_sound(wanted) {
        return Err(Answer::NotSound);
    }
    if wanted.state.pointer.next != 0 {
        return Err(Answer::NotBeforeRed);
    }
    if buffer.len() < 8192 {
        return Err(Answer::ShortBuffer);
    }
    Ok(put_plan(wanted, buffer, 0) / 8)
}
