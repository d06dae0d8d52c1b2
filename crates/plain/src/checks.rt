// The checks that every record passes before its row is asked, in 01's order: 12, 2, 3, then 16, 17 or 4 where no row fits, 5 and 6.
ghost use Rattle.std.specs.Prelude.{◌≡◌};
ghost use Rattle.file.specs.File.{power_on};
ghost use Rattle.file.specs.declared.chip.Chip.TheVariants.{Gd5464};
ghost use Rattle.access.specs.Checks.{malformed, of_other_half};
ghost use Rattle.plain.specs.Rows.{rows_of};
ghost use Rattle.plain.specs.Looked.{nothing_there, looked_at, looked_over};

use crate::list::{COLUMNS, ROWS};
use crate::row::Row;
use crate::walk::{find, is_held_other_way, is_inside_wider};
use access::{Record, is_bad_access, is_bad_passing, is_space_off};
use file::{Answer, Chip, File, MISC, is_sound};

// All of them: 12, 2 and 3, and then the list is walked. What is not refused means a row.
pub fn look(list: &[[u8; COLUMNS]; ROWS], asked: Record, whole: File) -> Result<Row, Answer>
    ensures { result ≡ looked_over (rows_of list.now) whole asked }
{
    if !is_sound(whole) {
        return Err(Answer::NotSound);
    }
    if is_malformed(asked) {
        return Err(Answer::Malformed);
    }
    if is_space_off(&whole.registers, asked) {
        return Err(Answer::SpaceOff);
    }
    look_at(list, asked, whole, find(list, asked, whole))
}

// Code 2: kind over 6, or a record that has not the form of its kind.
#[tactic(auto, unfolding(access::specs::Checks::malformed, access::specs::Checks::is_passing))]
fn is_malformed(asked: Record) -> bool
    ensures { result ≡ malformed (power_on Gd5464) asked }
{
    6 < asked.kind
        || if asked.kind == 6 {
            is_bad_passing(asked)
        } else {
            is_bad_access(asked)
        }
}

// The row that the walk found, if there is one: 16, 17 or 4, then 5, then 6, another width than the row's.
fn look_at(
    list: &[[u8; COLUMNS]; ROWS],
    asked: Record,
    whole: File,
    found: Option<Row>,
) -> Result<Row, Answer>
    ensures { result ≡ looked_at (rows_of list.now) whole asked found }
{
    let Some(row) = found else {
        return Err(nothing_there(list, asked, whole.state.chip));
    };
    if is_other_half(asked, whole) {
        return Err(Answer::OtherHalf);
    }
    if row.width != asked.width {
        return Err(Answer::WrongWidth);
    }
    Ok(row)
}

// Codes 16, 17 and 4: where no row fits, the address is held in the other direction only, or it falls inside a wider register, or there is nothing.
fn nothing_there(list: &[[u8; COLUMNS]; ROWS], asked: Record, chip: Chip) -> Answer
    ensures { result ≡ nothing_there (rows_of list.now) chip asked }
{
    if is_held_other_way(list, chip, asked.kind, asked.address) {
        return Answer::OtherDirection;
    }
    if is_inside_wider(list, chip, asked.kind, asked.address) {
        return Answer::InsideWider;
    }
    Answer::NotHeld
}

// Code 5: 3B4h/3B5h/3BAh while MISC[0]=1, or 3D4h/3D5h/3DAh while it is 0.
fn is_other_half(asked: Record, whole: File) -> bool
    ensures { result ≡ of_other_half whole asked }
{
    let half = whole.registers[MISC] % 2;
    asked.kind / 2 == 1
        && match asked.address {
            0x3B4 | 0x3B5 | 0x3BA => half == 1,
            0x3D4 | 0x3D5 | 0x3DA => half == 0,
            _ => false,
        }
}
