// One word further.
ghost use Rattle.std.specs.Prelude.{◌≡◌, ◌<◌};
ghost use Rattle.options.specs.Steps.{allowed as allowedIn, alone as aloneIn, equalled as equalledIn, is_excluded, optioned as optionedIn};
ghost use Rattle.options.specs.Steps.{cause_of, is_bad, is_neither, next_waiting, operand as operandIn, value_taken, valued as valuedIn};
ghost use Rattle.options.specs.Steps.{commanded as commandedIn, stepped as steppedIn, unended as unendedIn, worded as wordedIn};

use crate::names::{command_named, option_named, value_count};
use crate::types::{Command, Reading, Refused, Slot, Span, Waiting, Wrong};
use crate::words::{is_option, name_span, part};

// Tells whether `word` is neither `a` nor `b`.
fn is_neither(word: &[u8], a: &[u8], b: &[u8]) -> bool
    ensures { result ≡ is_neither word.now a.now b.now }
{
    word != a && word != b
}

// Tells whether `word` is no value of `slot`: a chip or an engine that there isn't, or an empty name.
#[tactic(auto, unfolding(crate::specs::Steps::is_bad, file::specs::Readers::ascii))]
fn is_bad(slot: Slot, word: &[u8]) -> bool
    ensures { result ≡ is_bad slot word.now }
{
    match slot {
        Slot::Chip => is_neither(word, b"5462", b"5464"),
        Slot::Engine => is_neither(word, b"quick", b"plain"),
        Slot::Since => word.is_empty(),
        _ => false,
    }
}

// Gives what is wrong with a bad value of `slot`.
#[tactic(auto, unfolding(crate::specs::Steps::cause_of))]
fn cause_of(slot: Slot) -> Wrong
    ensures { result ≡ cause_of slot }
{
    match slot {
        Slot::Chip => Wrong::NoSuchChip,
        Slot::Engine => Wrong::NoSuchEngine,
        _ => Wrong::EmptyName,
    }
}

// Gives what waits for the next word after `waiting` has its value: --of takes two.
#[tactic(auto, unfolding(crate::specs::Steps::next_waiting, crate::specs::Steps::waits_next))]
fn next_waiting(waiting: Waiting) -> Option<Waiting>
    ensures { result ≡ next_waiting waiting }
{
    match waiting.slot {
        Slot::Of => Some(Waiting {
            slot: Slot::Mhz,
            option: waiting.option,
        }),
        _ => None,
    }
}

// Takes `span` as the value that `waiting` waits for.
#[tactic(auto, unfolding(crate::specs::Steps::value_taken))]
fn value_taken(reading: Reading, waiting: Waiting, span: Span) -> Reading
    ensures { result ≡ value_taken reading waiting span }
{
    let after = reading.filled(waiting.slot, span);
    after.awaiting(next_waiting(waiting))
}

// Reads `span` as the value that `waiting` waits for.
#[tactic(auto, unfolding(crate::specs::Steps::valued))]
fn valued(words: &[u8], reading: Reading, waiting: Waiting, span: Span) -> Result<Reading, Refused>
    ensures { result ≡ valuedIn words.now reading waiting span }
{
    let slot = waiting.slot;
    if is_bad(slot, part(words, span)) {
        return Err(reading.refused(cause_of(slot), Some(span)));
    }
    Ok(value_taken(reading, waiting, span))
}

// Reads `span` as an operand, of which there is one.
fn operand(words: &[u8], reading: Reading, span: Span) -> Result<Reading, Refused>
    ensures { result ≡ operandIn words.now reading span }
{
    if reading.taken(Slot::Operand).is_some() {
        return Err(reading.refused(Wrong::OneFileMore, Some(span)));
    }
    if part(words, span).is_empty() {
        return Err(reading.refused(Wrong::EmptyName, Some(span)));
    }
    Ok(reading.filled(Slot::Operand, span))
}

// Reads `option`, whose name is `name`, with the value after its '=' up to `end`.
#[tactic(auto, unfolding(crate::specs::Steps::equalled))]
fn equalled(
    words: &[u8],
    reading: Reading,
    option: Slot,
    name: Span,
    end: usize,
) -> Result<Reading, Refused>
    requires { name.end < end }
    ensures { result ≡ equalledIn words.now reading option name end }
{
    if value_count(option) != 1 {
        return Err(reading.refused(Wrong::NotWithValue, Some(name)));
    }
    let value = Span {
        start: name.end + 1,
        end,
    };
    valued(
        words,
        reading,
        Waiting {
            slot: option,
            option: name,
        },
        value,
    )
}

// Reads `option`, whose name is `name`, without an '='.
#[tactic(auto, unfolding(crate::specs::Steps::alone))]
fn alone(reading: Reading, option: Slot, name: Span) -> Reading
    ensures { result ≡ aloneIn reading option name }
{
    if value_count(option) == 0 {
        return reading.filled(option, name);
    }
    reading.awaiting(Some(Waiting {
        slot: option,
        option: name,
    }))
}

// Tells whether `option` can't stand beside one that was given: --wide and --of.
#[tactic(auto, unfolding(crate::specs::Steps::is_excluded))]
fn is_excluded(reading: Reading, option: Slot) -> bool
    ensures { result ≡ is_excluded reading option }
{
    match option {
        Slot::Wide => reading.taken(Slot::Of).is_some(),
        Slot::Of => reading.taken(Slot::Wide).is_some(),
        _ => false,
    }
}

// Reads `option`, which the command has, up to `end`; its name is `name`.
#[tactic(auto, unfolding(crate::specs::Steps::allowed))]
fn allowed(
    words: &[u8],
    reading: Reading,
    option: Slot,
    name: Span,
    end: usize,
) -> Result<Reading, Refused>
    ensures { result ≡ allowedIn words.now reading option name end }
{
    if reading.taken(option).is_some() {
        return Err(reading.refused(Wrong::Twice, Some(name)));
    }
    if is_excluded(reading, option) {
        return Err(reading.refused(Wrong::WideWithOf, Some(name)));
    }
    if name.end < end {
        return equalled(words, reading, option, name, end);
    }
    Ok(alone(reading, option, name))
}

// Reads `span` as an option of `command`.
#[tactic(auto, unfolding(crate::specs::Steps::optioned, crate::specs::Steps::optioned_by))]
fn optioned(
    words: &[u8],
    reading: Reading,
    command: Command,
    span: Span,
) -> Result<Reading, Refused>
    ensures { result ≡ optionedIn words.now reading command span }
{
    let name = name_span(words, span);
    match option_named(command, part(words, name)) {
        Some(option) => allowed(words, reading, option, name, span.end),
        None => Err(reading.refused(Wrong::UnknownOption, Some(name))),
    }
}

// Reads `span` as the command.
#[tactic(auto, unfolding(crate::specs::Steps::commanded, crate::specs::Steps::commanded_by))]
fn commanded(words: &[u8], reading: Reading, span: Span) -> Result<Reading, Refused>
    ensures { result ≡ commandedIn words.now reading span }
{
    match command_named(part(words, span)) {
        Some(command) => Ok(reading.with_command(command)),
        None => Err(reading.refused(Wrong::UnknownCommand, Some(span))),
    }
}

// Reads `span`, a word behind `command`, where no `--` stands before it.
fn unended(words: &[u8], reading: Reading, command: Command, span: Span) -> Result<Reading, Refused>
    ensures { result ≡ unendedIn words.now reading command span }
{
    if part(words, span) == b"--".as_slice() {
        return Ok(reading.options_ended());
    }
    if is_option(part(words, span)) {
        return optioned(words, reading, command, span);
    }
    operand(words, reading, span)
}

// Reads `span`, the word that `reading` counts last.
#[tactic(auto, unfolding(crate::specs::Steps::worded, crate::specs::Steps::worded_by))]
fn worded(words: &[u8], reading: Reading, span: Span) -> Result<Reading, Refused>
    ensures { result ≡ wordedIn words.now reading span }
{
    match (reading.command, reading.waiting) {
        (None, _) => commanded(words, reading, span),
        (Some(_), Some(waiting)) => valued(words, reading, waiting, span),
        (Some(_), None) if reading.ended => operand(words, reading, span),
        (Some(command), None) => unended(words, reading, command, span),
    }
}

// Reads one word more, `span`; after 64 of them, none.
#[tactic(auto, unfolding(crate::specs::Steps::stepped))]
pub fn stepped(words: &[u8], reading: Reading, span: Span) -> Result<Reading, Refused>
    ensures { result ≡ steppedIn words.now reading span }
{
    if reading.count >= 64 {
        return Err(reading.refused(Wrong::TooManyWords, None));
    }
    worded(words, reading.counted(), span)
}
