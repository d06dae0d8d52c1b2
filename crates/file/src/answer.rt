ghost use Rattle.std.specs.Prelude.{◌≡◌};
ghost use Rattle.file.specs.Answers.{code_of, value_of};

// 01's table of codes, and 02's: what an access, a reader, a writer, a plan or a restore answers.
#[derive(Clone, Copy, Debug, PartialEq, Eq)]
pub enum Answer {
    // 0, with what a read gave
    Done(u16),
    // 1: the index names no held register
    NoRegister,
    // 2
    Malformed,
    // 3: PCI04 has the space off
    SpaceOff,
    // 4: nothing is held there
    NotHeld,
    // 5: 3B?h or 3D?h, and MISC[0] has the other
    OtherHalf,
    // 6
    WrongWidth,
    // 7
    ReadOnly,
    // 8: CR11[7] locks it
    Locked,
    // 9: pixel data while the palette is down
    PaletteDown,
    // 10: a timing number
    OutOfRange,
    // 11: a plan's buffer
    ShortBuffer,
    // 12
    NotSound,
    // 13: the wanted file's pointer
    NotBeforeRed,
    // 15: a restore between different chips
    OtherChip,
    // 16: the address is held in the other direction only
    OtherDirection,
    // 17: the address falls inside a wider register
    InsideWider,
}

impl Answer {
    // The answer's number in 01's table, which has a gap at 14; `code_of` (`file/specs/Answers.antt`) is the definition with the numbers.
    pub fn code(self) -> u8
        ensures { result ≡ code_of self }
    {
        match self {
            Answer::Done(_) => 0,
            Answer::NoRegister => 1,
            Answer::Malformed => 2,
            Answer::SpaceOff => 3,
            Answer::NotHeld => 4,
            Answer::OtherHalf => 5,
            Answer::WrongWidth => 6,
            Answer::ReadOnly => 7,
            Answer::Locked => 8,
            Answer::PaletteDown => 9,
            Answer::OutOfRange => 10,
            Answer::ShortBuffer => 11,
            Answer::NotSound => 12,
            Answer::NotBeforeRed => 13,
            Answer::OtherChip => 15,
            Answer::OtherDirection => 16,
            Answer::InsideWider => 17,
        }
    }

    // What was read; 0 where nothing was.
    pub fn value(self) -> u16
        ensures { result ≡ value_of self }
    {
        if let Answer::Done(value) = self {
            value
        } else {
            0
        }
    }
}
