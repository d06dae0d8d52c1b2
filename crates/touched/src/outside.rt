// Whether two files differ outside a set.
ghost use Rattle.std.specs.Prelude.{◌≡◌, ◌||◌, zip};
ghost use Rattle.std.specs.List.{list_all};
ghost use Rattle.touched.specs.Outside.{state_agrees, agrees_outside};

use crate::set::Touched;
use file::File;

// Each place is named, or both hold the same there.
fn agree<T: PartialEq>(named: &[bool], from: &[T], to: &[T]) -> bool
    ensures { result ≡ list_all (λ place. place.0 || T.eq place.1.0 place.1.1) (zip named.now (zip from.now to.now)) }
{
    named
        .iter()
        .zip(from.iter().zip(to))
        .all(|(named, (one, other))| *named || *one == *other)
}

// Pointer, marks and toggle.
#[tactic(auto, unfolding(crate::specs::Outside::state_agrees, crate::specs::Outside::same_pointer, crate::specs::Outside::same_bools))]
fn state_agrees(set: Touched, current: File, saved: File) -> bool
    ensures { result ≡ state_agrees set current saved }
{
    let from = current.state;
    let to = saved.state;
    (set.pointer || from.pointer == to.pointer)
        && (set.marks || from.marks == to.marks)
        && (set.toggle || from.toggle == to.toggle)
}

// Two files hold the same wherever the set names nothing.
pub fn agrees_outside(set: Touched, current: File, saved: File) -> bool
    ensures { result ≡ agrees_outside set current saved }
{
    let registers = agree(&set.registers, &current.registers, &saved.registers);
    let palette = agree(&set.palette, &current.palette, &saved.palette);
    let bank = agree(&set.bank, &current.bank, &saved.bank);
    registers & palette & bank & state_agrees(set, current, saved)
}
