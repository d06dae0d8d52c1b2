ghost use Rattle.std.specs.Prelude.{◌≡◌};
ghost use Rattle.mode_file.specs.Verdicts.{number_of, position_of};

// Why a line isn't read or isn't written, in 01's and 02's codes; 0 is the code of one that is.
#[derive(Clone, Copy, Debug, PartialEq, Eq)]
pub enum Verdict {
    // 8: CR11[7] locks the timing
    Locked,
    // 10: a timing number
    OutOfRange,
    // 12
    NotSound,
    // 18: no good line, and the place of the first bad byte
    BadText(usize),
    // 19: a horizontal number is no multiple of 8
    NotMultiple,
    // 21: a timing that no modeline has
    OtherTiming,
    // 22: the name, the clock or the buffer
    OutOfForm,
}

impl Verdict {
    // The code. It is a match since a cast to a number takes no enum with a case that holds a value.
    #[tactic(auto, unfolding(crate::specs::Verdicts::number_of))]
    pub fn code(self) -> u8
        ensures { result ≡ number_of self }
    {
        match self {
            Verdict::Locked => 8,
            Verdict::OutOfRange => 10,
            Verdict::NotSound => 12,
            Verdict::BadText(_) => 18,
            Verdict::NotMultiple => 19,
            Verdict::OtherTiming => 21,
            Verdict::OutOfForm => 22,
        }
    }

    // The place of the first bad byte; 0 with every code but 18.
    #[tactic(auto, unfolding(crate::specs::Verdicts::position_of))]
    pub fn position(self) -> usize
        ensures { result ≡ position_of self }
    {
        match self {
            Verdict::BadText(place) => place,
            _ => 0,
        }
    }
}
