//! In which line of a script each of its calls stands.

ghost use Rattle.std.specs.Prelude.{◌≡◌, ◌∷◌, [], IfOk, map, not};
ghost use Rattle.ob_explained_traps.specs.CallLines.{call_lines, is_silent};

use ob_text_words::words::words_of;
use std::alloc::{AllocError, Global};

/// The number of the line of each call, from 1.
pub(crate) fn call_lines(alloc: Global, script: &[u8]) -> Result<Vec<usize>, AllocError>
    ensures { IfOk result (λ lines. lines.items ≡ call_lines script.now) }
{
    let mut lines = Vec::new(alloc);
    for (index, line) in script.split(|byte| *byte == b'\n').enumerate() {
        let words = words_of(alloc, line)?;
        if makes_call(&words) {
            lines.push(index + 1)?;
        }
    }
    Ok(lines)
}

/// Whether a line of these words makes a call.
fn makes_call(words: &[&[u8]]) -> bool
    ensures { result ≡ not (is_silent (map (λ w. w.now) words.now)) }
{
    match words {
        [] => false,
        [word, ..] => !begins_comment(word),
    }
}

/// Whether a word begins with `#`.
fn begins_comment(word: &[u8]) -> bool
    ensures { result ≡ is_silent (word.now ∷ []) }
{
    match word {
        [] => false,
        [first, ..] => *first == b'#',
    }
}
