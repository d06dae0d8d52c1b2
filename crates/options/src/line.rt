// A line as it is written.
ghost use Rattle.std.specs.Prelude.{◌≡◌, take};
ghost use Rattle.escaping.specs.Escaped.{escaped_text};
ghost use Rattle.options.specs.Lines.{shown};
ghost use Rattle.text.specs.Fixed.{behind};

use escaping::escaped;

// A line of a message: 400 bytes at most.
pub type Line = text::Line<400>;

// Adds the first 64 bytes of `word` to `line`, escaped.
fn add_escaped(line: Line, word: &[u8]) -> Line
    ensures { result ≡ behind line (escaped_text (take 64 word.now)) }
{
    let size = word.len().min(64);
    let mut text = [0u8; 256];
    let placed = escaped(&mut text, 0, &word[..size]);
    let end = placed.end;
    line.with_text(&text[..end])
}

// Adds `word` to `line`, escaped, and cut where it is long.
pub fn add_word(line: Line, word: &[u8]) -> Line
    ensures { result ≡ behind line (shown word.now) }
{
    let after = add_escaped(line, word);
    if word.len() > 64 {
        return after.with_text(b"..");
    }
    after
}
