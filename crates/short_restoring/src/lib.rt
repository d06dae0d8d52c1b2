// 02, 11/13: restores that hand back the set of what was touched: by a short plan, and by the full one.
#![tactic(auto)]

mod kept;

ghost use Rattle.std.specs.Prelude.{◌≡◌};
ghost use Rattle.short_restoring.specs.Promises.{ShortRestoreKept, RestoreNotedKept};

use file::File;
pub use kept::{RestoreNoted, ShortRestored};
use plan::short_plan;
use restoring::restore;
use touched::Touched;
use trace::run;

// Writes a short plan back to the saved file and runs it from the current one: 12, 15, 13, 20, 11 by the short plan. A refusal gives the current file and the
// set back; else the set is empty.
pub fn short_restore(current: File, saved: File, set: Touched, buffer: &mut [u8]) -> ShortRestored
    ensures { ShortRestoreKept current saved set buffer.old buffer.new result }
{
    match short_plan(current, saved, set, buffer) {
        Ok(count) => {
            let mut replies = [0u8; 8192];
            let ran = run(current, &buffer[..8 * count], &mut replies);
            ShortRestored {
                count: Ok(count),
                file: ran.file,
                touched: Touched::nothing(),
            }
        }
        Err(answer) => ShortRestored {
            count: Err(answer),
            file: current,
            touched: set,
        },
    }
}

// A restore by the full plan, with the set: empty after it, unless it is refused.
pub fn restore_noting(current: File, wanted: File, set: Touched, buffer: &mut [u8]) -> RestoreNoted
    ensures { RestoreNotedKept current wanted set buffer.old buffer.new result }
{
    let done = restore(current, wanted, buffer);
    let touched = if done.count.is_ok() {
        Touched::nothing()
    } else {
        set
    };
    RestoreNoted { done, touched }
}
