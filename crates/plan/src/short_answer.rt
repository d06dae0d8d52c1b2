// What refuses a short plan and a restore by it.
ghost use Rattle.std.specs.Prelude.{◌≡◌};
ghost use Rattle.plan.specs.ShortAnswers.{number_of};

// Each with 01's and 02's number of it; 0, done, is none of them.
#[derive(Clone, Copy, Debug, PartialEq, Eq)]
pub enum ShortAnswer {
    // The buffer
    ShortBuffer = 11,
    NotSound = 12,
    // The saved file's pointer
    NotBeforeRed = 13,
    // The two files are of different chips
    OtherChip = 15,
    // The two files differ outside the set
    Elsewhere = 20,
}

impl ShortAnswer {
    // 01's and 02's number of it.
    #[tactic(auto, unfolding(crate::specs::ShortAnswers::number_of))]
    pub fn code(self) -> u8
        ensures { result ≡ number_of self }
    {
        self as u8
    }
}
