// The commands and the options, by their names.
ghost use Rattle.std.specs.Prelude.{◌≡◌};
ghost use Rattle.file.specs.Readers.{same};
ghost use Rattle.options.specs.Table.{command_name, command_named, option_name, option_named, options_of, value_count};

use crate::types::{Command, Slot};

const COMMANDS: [Command; 8] = [
    Command::Replay,
    Command::Snapshot,
    Command::Geometry,
    Command::Modeline,
    Command::Clocks,
    Command::Portable,
    Command::Explain,
    Command::Bytes,
];

// Gives the name of `command`.
#[tactic(auto, unfolding(crate::specs::Table::command_name, file::specs::Readers::ascii))]
pub fn command_name(command: Command) -> &'static [u8]
    ensures { result.now ≡ command_name command }
{
    match command {
        Command::Replay => b"replay",
        Command::Snapshot => b"snapshot",
        Command::Geometry => b"geometry",
        Command::Modeline => b"modeline",
        Command::Clocks => b"clocks",
        Command::Portable => b"portable",
        Command::Explain => b"explain",
        Command::Bytes => b"bytes",
    }
}

// Tells whether `word` is `name`.
#[tactic(auto, unfolding(file::specs::Readers::same))]
fn names(word: &[u8], name: &[u8]) -> bool
    ensures { result ≡ same word.now name.now }
{
    word == name
}

// Gives the command that `word` names.
#[tactic(auto, unfolding(crate::specs::Table::command_named, crate::specs::Table::named_among, crate::specs::Table::commands))]
pub fn command_named(word: &[u8]) -> Option<Command>
    ensures { result ≡ command_named word.now }
{
    COMMANDS
        .iter()
        .copied()
        .find(|command| names(word, command_name(*command)))
}

// Gives the name of the option of `slot`; the two other slots have none.
#[tactic(auto, unfolding(crate::specs::Table::option_name, file::specs::Readers::ascii))]
fn option_name(slot: Slot) -> &'static [u8]
    ensures { result.now ≡ option_name slot }
{
    match slot {
        Slot::Hex => b"--hex",
        Slot::Quiet => b"--quiet",
        Slot::Chip => b"--chip",
        Slot::Engine => b"--engine",
        Slot::Since => b"--since",
        Slot::Wide => b"--wide",
        Slot::Write => b"--write",
        Slot::Summary => b"--summary",
        Slot::Of => b"--of",
        Slot::Mhz | Slot::Operand => b"",
    }
}

// Gives the options of `command`.
#[tactic(auto, unfolding(crate::specs::Table::options_of))]
fn options_of(command: Command) -> &'static [Slot]
    ensures { result.now ≡ options_of command }
{
    match command {
        Command::Replay => &[Slot::Hex, Slot::Quiet, Slot::Chip, Slot::Engine],
        Command::Snapshot => &[Slot::Hex, Slot::Chip, Slot::Engine, Slot::Since],
        Command::Geometry => &[Slot::Hex, Slot::Chip, Slot::Engine],
        Command::Modeline => &[Slot::Hex, Slot::Wide, Slot::Of],
        Command::Clocks => &[Slot::Hex],
        Command::Portable => &[Slot::Hex, Slot::Write],
        Command::Explain => &[Slot::Hex, Slot::Quiet, Slot::Summary, Slot::Chip],
        Command::Bytes => &[Slot::Hex],
    }
}

// Gives the option of `command` that `word` names.
#[tactic(auto, unfolding(crate::specs::Table::option_named, crate::specs::Table::named_among))]
pub fn option_named(command: Command, word: &[u8]) -> Option<Slot>
    ensures { result ≡ option_named command word.now }
{
    options_of(command)
        .iter()
        .copied()
        .find(|option| names(word, option_name(*option)))
}

// Counts the words that the option of `slot` takes as its values.
#[tactic(auto, unfolding(crate::specs::Table::value_count))]
pub fn value_count(slot: Slot) -> usize
    ensures { result ≡ value_count slot }
{
    match slot {
        Slot::Chip | Slot::Engine | Slot::Since | Slot::Write => 1,
        Slot::Of => 2,
        _ => 0,
    }
}
