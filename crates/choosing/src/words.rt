// The words that a program was started with.
ghost use Rattle.std.specs.Prelude.{◌≡◌, Some, min};
ghost use Rattle.std.specs.List.{slice_get};
ghost use Rattle.file.specs.Readers.{same};
ghost use Rattle.choosing.specs.Choosing.{text_of};

use program_input::{count_args, read_arg};
use std::rt::Env;

// A word; one that is missing, or longer than any option or name, counts as an empty one. It is made here alone: no other module can say what a word
// was. Programs run in fixed memory, so it has its own few bytes.
#[derive(Clone, Copy)]
pub struct Word {
    bytes: [u8; 8],
    size: usize,
}

// An option, and the name behind it.
#[derive(Clone, Copy)]
pub struct Asked {
    pub option: Word,
    pub name: Word,
}

// How many words there were, the program's own name among them, and the four behind it, as two options. It is made here alone too.
#[derive(Clone, Copy)]
pub struct Words {
    count: usize,
    asked: [Asked; 2],
}

impl Word {
    // Whether a word is this text.
    pub fn is(self, text: &[u8]) -> bool
        ensures { result ≡ same (text_of self) text.now }
    {
        let bytes = self.bytes;
        &bytes[..self.size.min(8)] == text
    }
}

impl Words {
    pub fn count(self) -> usize
        ensures { result ≡ self.count }
    {
        self.count
    }

    // The first option, which stands behind the program's own name and the words that are skipped.
    pub fn first(self) -> Asked
        ensures { Some result ≡ slice_get self.asked 0 }
    {
        self.asked[0]
    }

    // The second option, behind the first.
    pub fn second(self) -> Asked
        ensures { Some result ≡ slice_get self.asked 1 }
    {
        self.asked[1]
    }

    // The option of a number, from 0 on, of which there are two.
    pub fn asked(self, k: usize) -> Option<Asked>
        ensures { result ≡ slice_get self.asked k }
    {
        let asked = self.asked;
        asked.get(k).copied()
    }
}

fn read_word(rt: &impl Env, place: usize) -> Word {
    let mut bytes = [0u8; 8];
    let size = read_arg(rt, place, &mut bytes);
    Word { bytes, size }
}

// The option of the word at a place, with the name behind it.
fn read_asked(rt: &impl Env, place: usize) -> Asked {
    Asked {
        option: read_word(rt, place),
        name: read_word(rt, place.saturating_add(1)),
    }
}

// The words of this program, without so many behind its own name.
pub fn read_words(rt: &impl Env, skipped: usize) -> Words {
    Words {
        count: count_args(rt).saturating_sub(skipped),
        asked: [
            read_asked(rt, skipped.saturating_add(1)),
            read_asked(rt, skipped.saturating_add(3)),
        ],
    }
}
