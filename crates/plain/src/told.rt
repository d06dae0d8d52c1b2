// What an access tells: its answer, and the file after it. No `Result`: a refusal leaves the file as given, and code 1 may flip the toggle.
ghost use Rattle.std.specs.Prelude.{◌≡◌};
ghost use Rattle.file.specs.File.{with_state};

use file::{Answer, File, State};

#[derive(Clone, Copy)]
pub struct Told {
    pub answer: Answer,
    pub file: File,
}

// An answer that leaves the file as it is.
pub fn leaving(whole: File, answer: Answer) -> Told
    ensures { result ≡ record { answer = answer; file = whole } }
{
    Told {
        answer,
        file: whole,
    }
}

// The file with another state: pointer, marks and toggle.
pub fn with_state(whole: File, state: State) -> File
    ensures { result ≡ with_state state whole }
{
    let mut file = whole;
    file.state = state;
    file
}
