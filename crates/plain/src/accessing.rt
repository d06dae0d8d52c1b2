// One access: the checks, and then a read or a write at the row that the record means, or lines pass.
ghost use Rattle.std.specs.Prelude.{◌≡◌};
ghost use Rattle.access.specs.Checks.{carries as carriesValue};
ghost use Rattle.plain.specs.Told.{access_told, item_told};

use crate::checks::look;
use crate::list::list;
use crate::reading::read_row;
use crate::told::{Told, leaving};
use crate::writing::write_row;
use access::{Item, Record};
use file::{Answer, File, is_sound};

// What stands next in a trace; a fragment has code 2, and an unsound file 12 before it.
pub fn access_item(item: Item, whole: File) -> Told
    ensures { result ≡ item_told whole item }
{
    match item {
        Item::Whole(asked) => access(asked, whole),
        Item::Fragment(_) => {
            if is_sound(whole) {
                leaving(whole, Answer::Malformed)
            } else {
                leaving(whole, Answer::NotSound)
            }
        }
    }
}

// A whole record.
fn access(asked: Record, whole: File) -> Told
    ensures { result ≡ access_told whole asked }
{
    match look(list(), asked, whole) {
        Err(answer) => leaving(whole, answer),
        Ok(row) => {
            if carries(asked) {
                write_row(row, whole, asked.value as u16)
            } else {
                read_row(row, whole)
            }
        }
    }
}

// The record brings a value: it is a write, or lets lines pass.
#[tactic(auto, unfolding(access::specs::Checks::carries, access::specs::Checks::is_write, access::specs::Checks::is_passing))]
fn carries(asked: Record) -> bool
    ensures { result ≡ carriesValue asked }
{
    asked.kind % 2 == 1 || asked.kind == 6
}
