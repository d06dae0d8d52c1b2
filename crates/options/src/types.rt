// What the words ask for, what can be wrong with them, and how far they are read.
use file::Chip;

// The commands, in the order of their table.
#[derive(Clone, Copy, Debug, PartialEq, Eq)]
pub enum Command {
    Replay,
    Snapshot,
    Geometry,
    Modeline,
    Clocks,
    Portable,
    Explain,
    Bytes,
}

// What the words fill: a slot for each option, one more for the second value of --of, and one for FILE.
#[derive(Clone, Copy, Debug, PartialEq, Eq)]
pub enum Slot {
    Hex,
    Quiet,
    Chip,
    Engine,
    Since,
    Wide,
    Write,
    Summary,
    Of,
    Mhz,
    Operand,
}

// A word, or a part of one: its bytes stand from `start` to before `end` in the slice of the words.
#[derive(Clone, Copy)]
pub struct Span {
    pub start: usize,
    pub end: usize,
}

// What is wrong with the words.
#[derive(Clone, Copy, Debug, PartialEq, Eq)]
pub enum Wrong {
    NoCommand,
    UnknownCommand,
    UnknownOption,
    NoValue,
    NoTwoValues,
    NoSuchChip,
    NoSuchEngine,
    NotWithValue,
    Twice,
    WideWithOf,
    NoFile,
    OneFileMore,
    EmptyName,
    BothStandardInput,
    TooManyWords,
    TooLong,
}

// Words that are refused: what is wrong with them, the wrong word, if there is one, the command, if it was read, and how far the words were read until then.
#[derive(Clone, Copy)]
pub struct Refused {
    pub wrong: Wrong,
    pub word: Option<Span>,
    pub command: Option<Command>,
    pub reading: Reading,
}

// The two values of --of.
#[derive(Clone, Copy)]
pub struct Of {
    pub name: Span,
    pub mhz: Span,
}

// What the words ask for; `plain` is no `Engine`, as the crate engines, which has that, isn't below this one.
#[derive(Clone, Copy)]
pub struct Asked {
    pub command: Command,
    pub chip: Chip,
    pub plain: bool,
    pub hex: bool,
    pub quiet: bool,
    pub wide: bool,
    pub summary: bool,
    pub since: Option<Span>,
    pub of: Option<Of>,
    pub list: Option<Span>,
    pub file: Span,
}

// The slot that the next word is the value of, and the option that it is of.
#[derive(Clone, Copy)]
pub struct Waiting {
    pub slot: Slot,
    pub option: Span,
}

// How far the words are read: how many there were, the command, whether `--` ended the options, what waits for a value, and what fills each slot.
#[derive(Clone, Copy)]
pub struct Reading {
    pub count: usize,
    pub command: Option<Command>,
    pub ended: bool,
    pub waiting: Option<Waiting>,
    pub filled: [Option<Span>; 11],
}
