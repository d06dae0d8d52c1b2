// What a function that stores text in a lent buffer answers, and the room that it asks for.
ghost use Rattle.std.specs.Prelude.{◌≡◌, ◌+◌, leb};
ghost use Rattle.file.specs.declared.answer.Answer.TheVariants.{Done, ShortBuffer};

use file::Answer;

// An answer of 01's list, and the place behind the text; a refusal has the place that was given. So the place counts whatever the answer is.
#[derive(Clone, Copy)]
pub struct Placed {
    pub answer: Answer,
    pub end: usize,
}

impl Placed {
    // Answers that a text was stored, which ends at `end`.
    pub fn stored(end: usize) -> Placed
        ensures { result ≡ record { answer = Done 0; end = end } }
    {
        Placed {
            answer: Answer::Done(0),
            end,
        }
    }

    // Answers that a text has no room from `at` on: code 11.
    pub fn no_room(at: usize) -> Placed
        ensures { result ≡ record { answer = ShortBuffer; end = at } }
    {
        Placed {
            answer: Answer::ShortBuffer,
            end: at,
        }
    }
}

// So many bytes have room from a place on.
pub fn has_room(room: usize, at: usize, size: usize) -> bool
    ensures { result ≡ leb (at + size) room }
{
    if room < size {
        return false;
    }
    at <= room - size
}
