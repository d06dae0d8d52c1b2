// The chip and the engine that a program is started for: the words behind its name, none, or one option or both in any order.
ghost use Rattle.std.specs.Prelude.{◌≡◌};
ghost use Rattle.choosing.specs.Choosing.{by_one, by_two, chosen_by, wanted_at};

use crate::options::{Wish, wanted};
use crate::words::{Words, read_words};
use engines::Engine;
use file::Chip;
use std::rt::Env;

// A chip and an engine.
#[derive(Clone, Copy)]
pub struct Chosen {
    pub chip: Chip,
    pub engine: Engine,
}

// What was chosen, and the words that chose it; nothing, where they name none.
#[derive(Clone, Copy)]
pub struct Choice {
    pub words: Words,
    pub chosen: Option<Chosen>,
}

// By one option; what it doesn't name is the 5464, or the quick engine.
#[tactic(auto, unfolding(crate::specs::Choosing::by_one))]
fn by_one(only: Wish) -> Chosen
    ensures { result ≡ by_one only }
{
    match only {
        Wish::OnChip(chip) => Chosen {
            chip,
            engine: Engine::Quick,
        },
        Wish::ByEngine(engine) => Chosen {
            chip: Chip::Gd5464,
            engine,
        },
    }
}

// By two options, one of each.
#[tactic(auto, unfolding(crate::specs::Choosing::by_two))]
fn by_two(one: Wish, other: Wish) -> Option<Chosen>
    ensures { result ≡ by_two one other }
{
    match (one, other) {
        (Wish::OnChip(chip), Wish::ByEngine(engine)) => Some(Chosen { chip, engine }),
        (Wish::ByEngine(engine), Wish::OnChip(chip)) => Some(Chosen { chip, engine }),
        _ => None,
    }
}

// What the option of a number wants.
fn wanted_at(words: Words, k: usize) -> Option<Wish>
    ensures { result ≡ wanted_at words k }
{
    wanted(words.asked(k)?)
}

fn chosen_by(words: Words) -> Option<Chosen>
    ensures { result ≡ chosen_by words }
{
    match words.count() {
        0 | 1 => Some(Chosen {
            chip: Chip::Gd5464,
            engine: Engine::Quick,
        }),
        3 => Some(by_one(wanted_at(words, 0)?)),
        5 => by_two(wanted_at(words, 0)?, wanted_at(words, 1)?),
        _ => None,
    }
}

// By the words that the program was started with, without so many behind its own name, which are no options.
pub fn choose(rt: &impl Env, skipped: usize) -> Choice
    ensures { result.chosen ≡ chosen_by result.words }
{
    let words = read_words(rt, skipped);
    Choice {
        words,
        chosen: chosen_by(words),
    }
}
