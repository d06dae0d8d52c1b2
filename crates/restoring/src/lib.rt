// A restore: the plan of a wanted file, written and run.
#![tactic(auto)]

ghost use Rattle.std.specs.Prelude.{◌≡◌, cond};
ghost use Rattle.file.specs.declared.answer.Answer.TheVariants.{OtherChip as OtherChipAnswer, NotSound as NotSoundAnswer};
ghost use Rattle.file.specs.Sound.{sound};
ghost use Rattle.restoring.specs.Promises.{PlannedFrom, RestoreKept};

use file::{Answer, File, is_sound};
use plan::{on_one_chip, plan};
use trace::run;

// How many records the plan of a restore has, or its refusal; and the file that the run ends in, which is the current one with a refusal, and so stands beside
// the Result.
#[derive(Clone, Copy, Debug, PartialEq, Eq)]
pub struct Restored {
    pub count: Result<usize, Answer>,
    pub file: File,
}

// Writes a plan of the wanted file and runs it from the current one: 12 by the current file and by the wanted one, 15 where their chips differ, then
// 13, 11 by the plan. No record of a plan is refused (`plan-runs`), so the replies aren't looked at. A refusal gives the current file back.
pub fn restore(current: File, wanted: File, buffer: &mut [u8]) -> Restored
    ensures { RestoreKept current wanted buffer.old buffer.new result }
{
    match plan_from(current, wanted, buffer) {
        Ok(count) => {
            let mut replies = [0u8; 8192];
            let ran = run(current, &buffer[..8 * count], &mut replies);
            Restored {
                count: Ok(count),
                file: ran.file,
            }
        }
        Err(answer) => Restored {
            count: Err(answer),
            file: current,
        },
    }
}

// The plan of the wanted file, where the current one may be restored to it. On one chip the plan asks whether the wanted file is sound.
fn plan_from(current: File, wanted: File, buffer: &mut [u8]) -> Result<usize, Answer>
    ensures { PlannedFrom current wanted buffer.old buffer.new result }
{
    if !is_sound(current) {
        return Err(Answer::NotSound);
    }
    if !on_one_chip(current, wanted) {
        return Err(elsewhere(wanted));
    }
    plan(wanted, buffer)
}

// Tells why a file of another chip isn't restored to the file `wanted`: 12 where that isn't sound, which is told first, and else 15.
fn elsewhere(wanted: File) -> Answer
    ensures { result ≡ cond (sound wanted) OtherChipAnswer NotSoundAnswer }
{
    if is_sound(wanted) {
        Answer::OtherChip
    } else {
        Answer::NotSound
    }
}
