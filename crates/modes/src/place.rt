// What stands at a place of a line.
ghost use Rattle.std.specs.Prelude.{true, ◌≡◌, ◌+◌, ◌<◌, ◌≤◌, take, length, MatchResult};
ghost use Rattle.std.specs.List.{prefix_len};
ghost use Rattle.modes.specs.Form.{name_byte};
ghost use Rattle.modes.specs.Scan.{Passes, Stops, is_at, read_letter, read_sign, read_word};

use crate::mode::Axis;

// This byte stands there.
#[tactic(auto, unfolding(crate::specs::Scan::is_at))]
pub fn is_at(line: &[u8], at: usize, byte: u8) -> bool
    ensures value { result ≡ is_at line.now at byte }
    ensures at_in_bounds { result ≡ true → at < length line.now }
{
    line.get(at) == Some(&byte)
}

// The place behind a word that stands there, or of the first byte that differs from it.
pub fn word(line: &[u8], at: usize, word: &[u8]) -> Result<usize, usize>
    requires { at ≤ length line.now }
    ensures { MatchResult result (λ end. Passes (read_word word.now) line.now at tt end) (λ place. Stops (read_word word.now) line.now at place) }
{
    for (n, byte) in word.iter().enumerate() {
        if !is_at(line, at + n, *byte) {
            return Err(at + n);
        }
    }
    Ok(at + word.len())
}

// Whether the sign that stands there is a minus, or the place if none does.
pub fn sign(line: &[u8], at: usize) -> Result<bool, usize>
    requires { at ≤ length line.now }
    ensures { MatchResult result (λ minus. Passes read_sign line.now at minus (at + 1)) (λ place. Stops read_sign line.now at place) }
{
    if is_at(line, at, b'+') {
        return Ok(false);
    }
    if is_at(line, at, b'-') {
        return Ok(true);
    }
    Err(at)
}

// The axis whose letter stands there, or the place if none does.
pub fn axis(line: &[u8], at: usize) -> Result<Axis, usize>
    requires { at ≤ length line.now }
    ensures { MatchResult result (λ found. Passes read_letter line.now at found (at + 1)) (λ place. Stops read_letter line.now at place) }
{
    if is_at(line, at, b'h') {
        return Ok(Axis::Horizontal);
    }
    if is_at(line, at, b'v') {
        return Ok(Axis::Vertical);
    }
    Err(at)
}

// A name may have this byte.
#[tactic(auto, unfolding(crate::specs::Form::name_byte))]
pub fn name_byte(b: u8) -> bool
    ensures { result ≡ name_byte b }
{
    matches!(b, 0x20..=0x7E) && b != b'"'
}

// How many bytes of a name a text begins with.
pub fn name_length(left: &[u8]) -> usize
    ensures value { result ≡ prefix_len name_byte (take 32 left.now) }
    ensures result_in_bounds { result ≤ length left.now }
{
    left.iter().take(32).take_while(|b| name_byte(**b)).count()
}
