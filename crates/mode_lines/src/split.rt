// Lines cut out of an input that comes in parts.
ghost use Rattle.std.specs.Prelude.{◌≡◌, ◌≤◌, ◌<◌, eqb, length};
ghost use Rattle.std.specs.List.{position};
ghost use Rattle.io.specs.Counts.{IsPrefixLen};
ghost use Rattle.mode_lines.specs.Lines.{TookLine};

use crate::kept::keep;

// How many bytes of a part were taken, how many of the line are kept, and whether it is whole. Both numbers count either way, so this is no Option.
#[derive(Clone, Copy)]
pub struct Taken {
    pub used: usize,
    pub count: usize,
    pub ended: bool,
}

// The place of the first newline.
fn newline(part: &[u8]) -> Option<usize>
    ensures { result ≡ position (λ b. eqb b 0x0A) part.now }
{
    part.iter().position(|b| *b == b'\n')
}

// A part's first line, or what it has of it, behind so many bytes of that line that are kept already. A line that has more bytes than there is room for
// is kept by its first ones.
pub fn take_line(part: &[u8], kept: &mut [u8], count: usize) -> Taken
    ensures took_line { TookLine part.now kept.old count kept.new result }
    ensures prefix_len { IsPrefixLen result.count kept.new }
    ensures used_in_bounds { (result.used ≤ length part.now) × (0 < length part.now → 0 < result.used) }
{
    match newline(part) {
        Some(size) => Taken {
            used: size + 1,
            count: keep(kept, count, &part[..size]),
            ended: true,
        },
        None => Taken {
            used: part.len(),
            count: keep(kept, count, part),
            ended: false,
        },
    }
}
