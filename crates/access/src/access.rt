ghost use Rattle.std.specs.Prelude.{◌≡◌, T};
ghost use Rattle.file.specs.Sound.{sound};
ghost use Rattle.access.specs.Access.{access as accessOf, access_item, handed, read_reach, shown_in};
ghost use Rattle.access.specs.Engine.{decision};

use crate::engine;
use crate::record::{Item, Record, Reply};
use file::{Answer, File, Reach, is_sound};

// What an access hands back: the file after it, its answer, and the reply that says it. No `Result`: a refusal hands back the file as given.
#[derive(Clone, Copy)]
pub struct Accessed {
    pub file: File,
    pub answer: Answer,
    pub reply: Reply,
}

// A file handed back with an answer to a record, and the reply to it.
fn handed_back(asked: Record, file: File, answer: Answer) -> Accessed
    ensures { result ≡ handed asked file answer }
{
    let reply = Reply {
        code: answer.code(),
        kind: asked.kind,
        address: asked.address,
        value: answer.value(),
    };
    Accessed {
        file,
        answer,
        reply,
    }
}

// The component of the next colour, in the entry that the pointer names.
fn shown_in(whole: File) -> u8
    ensures { result ≡ shown_in whole }
{
    let registers = whole.registers;
    let pointer = whole.state.pointer;
    let bank = engine::is_in_bank(&registers);
    let number = engine::entry_number(bank, pointer.address);
    if bank {
        let colour = whole.bank[number];
        colour.component(pointer.next)
    } else {
        let colour = whole.palette[number];
        colour.component(pointer.next)
    }
}

// What a record's access to a sound file answers, and what it does to the file.
fn decide_in(asked: Record, whole: File) -> engine::Decision
    requires { T (sound whole) }
    ensures { result ≡ decision whole asked }
{
    let registers = whole.registers;
    let state = whole.state;
    let chip = state.chip;
    let cells = places::cells(chip);
    let stored = File::stored(chip);
    let decision = engine::decide(&cells, &stored, &registers, state, asked);
    if decision.pixel {
        let answer = Answer::Done(shown_in(whole) as u16);
        let effect = decision.effect;
        return engine::Decision {
            answer,
            effect,
            pixel: true,
        };
    }
    decision
}

impl Record {
    // One access: takes the file and hands back the new one with its reply. A refusal hands back the file as given.
    pub fn access(self, whole: File) -> Accessed
        ensures { result ≡ accessOf whole self }
    {
        if !is_sound(whole) {
            return handed_back(self, whole, Answer::NotSound);
        }
        let decision = decide_in(self, whole);
        let effect = decision.effect;
        let answer = decision.answer;
        handed_back(self, effect.apply(whole), answer)
    }

    // What this access may change in the file: nothing for a refusal and for a plain read. An unsound file has no reach: code 12.
    pub fn reach(self, whole: File) -> Result<Reach, Answer>
        ensures { result ≡ read_reach whole self }
    {
        if !is_sound(whole) {
            return Err(Answer::NotSound);
        }
        let decision = decide_in(self, whole);
        Ok(decision.effect.reach())
    }
}

impl Item {
    // The access of a whole record; a fragment is refused, and an unsound file before it.
    pub fn access(self, whole: File) -> Accessed
        ensures { result ≡ access_item whole self }
    {
        match self {
            Item::Whole(asked) => asked.access(whole),
            Item::Fragment(asked) => {
                if is_sound(whole) {
                    handed_back(asked, whole, Answer::Malformed)
                } else {
                    handed_back(asked, whole, Answer::NotSound)
                }
            }
        }
    }
}
