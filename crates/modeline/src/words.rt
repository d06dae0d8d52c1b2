// The words that the program was started with.

use choosing::read_arg;
use std::rt::Env;

// The word of this number is this one. Explain asks so too, for `--summary`: `read_arg` and `same` are what the two share, and a crate for the buffer
// between them would be no plainer.
pub fn is_word(rt: &impl Env, number: usize, word: &[u8]) -> bool {
    let mut found = [0u8; 16];
    let size = read_arg(rt, number, &mut found);
    check::same(&found[..size], word)
}
