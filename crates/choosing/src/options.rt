// What an option and the name behind it ask for.
ghost use Rattle.std.specs.Prelude.{◌≡◌};
ghost use Rattle.choosing.specs.Choosing.{chip_named, engine_named, text_of, wanted as wantedOf};

use crate::words::{Asked, Word};
use engines::Engine;
use file::Chip;

// A chip, or an engine.
#[derive(Clone, Copy)]
pub enum Wish {
    OnChip(Chip),
    ByEngine(Engine),
}

// The names of the chips, and below those of the engines: two of each, of two types, so that one table of both would be no plainer.
fn chip_named(name: Word) -> Option<Wish>
    ensures { result ≡ chip_named (text_of name) }
{
    if name.is(b"5462") {
        Some(Wish::OnChip(Chip::Gd5462))
    } else if name.is(b"5464") {
        Some(Wish::OnChip(Chip::Gd5464))
    } else {
        None
    }
}

fn engine_named(name: Word) -> Option<Wish>
    ensures { result ≡ engine_named (text_of name) }
{
    if name.is(b"quick") {
        Some(Wish::ByEngine(Engine::Quick))
    } else if name.is(b"plain") {
        Some(Wish::ByEngine(Engine::Plain))
    } else {
        None
    }
}

// Nothing, where there is no such option, or no such name behind it.
pub fn wanted(asked: Asked) -> Option<Wish>
    ensures { result ≡ wantedOf asked }
{
    let option = asked.option;
    if option.is(b"--chip") {
        chip_named(asked.name)
    } else if option.is(b"--engine") {
        engine_named(asked.name)
    } else {
        None
    }
}
