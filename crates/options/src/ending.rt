// What is tested after the last word, and what the words ask for.
ghost use Rattle.std.specs.Prelude.{◌≡◌};
ghost use Rattle.options.specs.Asking.{asked_by, both_standard, chip_named, is_plain, lack_of, of_both, told as told_of};

use crate::inputs::is_standard_input;
use crate::types::{Asked, Command, Of, Reading, Refused, Slot, Span, Wrong};
use crate::words::part;
use file::Chip;

// Gives what is wrong where `slot` waits for a value after the last word.
#[tactic(auto, unfolding(crate::specs::Asking::lack_of))]
fn lack_of(slot: Slot) -> Wrong
    ensures { result ≡ lack_of slot }
{
    match slot {
        Slot::Of | Slot::Mhz | Slot::Operand => Wrong::NoTwoValues,
        _ => Wrong::NoValue,
    }
}

// Tells whether the name of --since, if it was given, and FILE are both standard input.
#[tactic(auto, unfolding(crate::specs::Asking::both_standard))]
fn both_standard(words: &[u8], since: Option<Span>, file: Span) -> bool
    ensures { result ≡ both_standard words.now since file }
{
    match since {
        Some(since) => is_standard_input(words, since) && is_standard_input(words, file),
        None => false,
    }
}

// Gives the chip that `name` names; the 5464 where it names none.
fn chip_named(words: &[u8], name: Option<Span>) -> Chip
    ensures { result ≡ chip_named words.now name }
{
    match name {
        Some(name) if part(words, name) == b"5462".as_slice() => Chip::Gd5462,
        _ => Chip::Gd5464,
    }
}

// Tells whether `name` names the plain engine.
fn is_plain(words: &[u8], name: Option<Span>) -> bool
    ensures { result ≡ is_plain words.now name }
{
    match name {
        Some(name) => part(words, name) == b"plain".as_slice(),
        None => false,
    }
}

// Gives the two values of --of, if it was given.
#[tactic(auto, unfolding(crate::specs::Asking::of_both))]
fn of_both(name: Option<Span>, mhz: Option<Span>) -> Option<Of>
    ensures { result ≡ of_both name mhz }
{
    match (name, mhz) {
        (Some(name), Some(mhz)) => Some(Of { name, mhz }),
        _ => None,
    }
}

// Gives what `reading` says that the words ask of `command` and `file`.
#[tactic(auto, unfolding(crate::specs::Asking::asked_by))]
fn asked_by(words: &[u8], reading: Reading, command: Command, file: Span) -> Asked
    ensures { result ≡ asked_by words.now reading command file }
{
    Asked {
        command,
        chip: chip_named(words, reading.taken(Slot::Chip)),
        plain: is_plain(words, reading.taken(Slot::Engine)),
        hex: reading.taken(Slot::Hex).is_some(),
        quiet: reading.taken(Slot::Quiet).is_some(),
        wide: reading.taken(Slot::Wide).is_some(),
        summary: reading.taken(Slot::Summary).is_some(),
        since: reading.taken(Slot::Since),
        of: of_both(reading.taken(Slot::Of), reading.taken(Slot::Mhz)),
        list: reading.taken(Slot::Write),
        file,
    }
}

// Tests what can be tested after the last word alone, and gives what the words ask for.
#[tactic(auto, unfolding(crate::specs::Asking::told, crate::specs::Asking::told_by))]
pub fn told(words: &[u8], reading: Reading) -> Result<Asked, Refused>
    ensures { result ≡ told_of words.now reading }
{
    let Some(command) = reading.command else {
        return Err(reading.refused(Wrong::NoCommand, None));
    };
    if let Some(waiting) = reading.waiting {
        return Err(reading.refused(lack_of(waiting.slot), Some(waiting.option)));
    }
    let Some(file) = reading.taken(Slot::Operand) else {
        return Err(reading.refused(Wrong::NoFile, None));
    };
    if both_standard(words, reading.taken(Slot::Since), file) {
        return Err(reading.refused(Wrong::BothStandardInput, Some(file)));
    }
    Ok(asked_by(words, reading, command, file))
}
