//! The lines behind the order.

ghost use Rattle.std.specs.Prelude.{◌↔◌, ◌<◌, ◌^◌, All, IfSome, IsTrue, MatchOption, length};
ghost use Rattle.ob_text_words.specs.Words.{words};
ghost use Rattle.ob_text_values_reading.specs.RecordTexts.{IsFirstOther};
ghost use Rattle.ob_text_values_reading.specs.RecordTexts.{IsTail};
ghost use Rattle.ob_text_values_reading.specs.RecordTexts.{lines_behind};

use crate::line_words::next_word;
use crate::lines::split_line;

/// The place of the first line whose first byte is neither `S` nor `V`, among those behind a line feed.
pub fn first_other(behind: Option<&[u8]>) -> Option<usize>
    requires { length (lines_behind behind) < 2 ^ 64 }
    ensures below { IfSome result (λ k. k < length (lines_behind behind.entry)) }
    ensures place { MatchOption result
        (All IsTail (lines_behind behind.entry))
        (λ k. IsFirstOther (lines_behind behind.entry) k) }
{
    let mut left = behind;
    let mut place = 0;
    while let Some(text) = left {
        let (line, rest) = split_line(text);
        if !is_tail_line(line) {
            return Some(place);
        }
        place += 1;
        left = rest;
    }
    None
}

/// Whether the first byte of a line's first word is `S` or `V`. Its other words are not looked at: a schedule's are as many as its steps.
pub fn is_tail_line(line: &[u8]) -> bool
    ensures { IsTrue result ↔ IsTail (words line.now) }
{
    let Some((first, _rest)) = next_word(line) else {
        return false;
    };
    matches!(first.first(), Some(b'S' | b'V'))
}
