// What a good line says.
ghost use Rattle.std.specs.Prelude.{◌∷◌, ◌≡◌};
ghost use Rattle.modes.specs.Form.{letter, other_axis};
ghost use Rattle.modes.specs.Scan.{flagged as flaggedMode, sync};

#[derive(Clone, Copy)]
pub struct Mode {
    // how many bytes the name has; it starts behind the first quote
    pub name: usize,
    // the clock
    pub khz: u32,
    // four horizontal numbers in pixels and four vertical ones in scanlines: display, sync start, sync end, total
    pub numbers: [u32; 8],
    // the flags
    pub h_minus: bool,
    pub v_minus: bool,
}

// What a flag is of.
#[derive(Clone, Copy)]
pub enum Axis {
    Horizontal,
    Vertical,
}

impl Axis {
    // The word of the axis in a flag.
    #[tactic(auto, unfolding(crate::specs::Form::letter, crate::specs::Scan::sync))]
    pub fn word(self) -> &'static [u8]
        ensures { result.now ≡ letter self ∷ sync }
    {
        match self {
            Axis::Horizontal => b"hsync",
            Axis::Vertical => b"vsync",
        }
    }

    // The axis that this one isn't.
    #[tactic(auto, unfolding(crate::specs::Form::other_axis))]
    pub fn other(self) -> Axis
        ensures { result ≡ other_axis self }
    {
        match self {
            Axis::Horizontal => Axis::Vertical,
            Axis::Vertical => Axis::Horizontal,
        }
    }
}

impl Mode {
    // The mode with one flag of the line.
    #[tactic(auto, unfolding(crate::specs::Scan::flagged))]
    pub fn flagged(self, axis: Axis, minus: bool) -> Mode
        ensures { result ≡ flaggedMode axis minus self }
    {
        match axis {
            Axis::Horizontal => Mode {
                h_minus: minus,
                ..self
            },
            Axis::Vertical => Mode {
                v_minus: minus,
                ..self
            },
        }
    }
}
