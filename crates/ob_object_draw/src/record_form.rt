//! Whether a text has the form of a record of a run.

ghost use Rattle.std.specs.Prelude.{◌≡◌, codes, length};
ghost use Rattle.std.specs.List.{list_any};
ghost use Rattle.ob_object_draw.specs.Forms.{begin_with, begins_with, is_record_form};
ghost use Rattle.ob_text_values_reading.specs.Comments.{said};
ghost use Rattle.ob_text_values_reading.specs.RecordTexts.{lines_behind};
ghost use Rattle.ob_text_words.specs.Words.{words};

use ob_text_values_reading::comments::is_comment;
use ob_text_values_reading::line_words::next_word;
use ob_text_values_reading::lines::{split_line, without_last_feed};

/// Whether a text has the form of a record of a run: its first line that is no remark begins with the word `obl0`, and one of its lines
/// with `O`. A text that is a record has it.
pub fn is_record_form(text: &[u8]) -> bool
    ensures { result ≡ is_record_form text.now }
{
    let text = without_last_feed(text);
    has_title(Some(text)) && has_order(Some(text))
}

/// Whether the first line that is no remark begins with `obl0`, among those behind a line feed.
fn has_title(behind: Option<&[u8]>) -> bool
    ensures { result ≡ begin_with (codes "obl0") (said (lines_behind behind.entry)) }
{
    let mut left = behind;
    while let Some(text) = left {
        let (line, rest) = split_line(text);
        if !is_comment(line) {
            return begins_with(line, b"obl0");
        }
        left = rest;
    }
    false
}

/// Whether a line begins with `O`, among those behind a line feed.
fn has_order(behind: Option<&[u8]>) -> bool
    ensures { result ≡ list_any (begins_with (codes "O")) (lines_behind behind.entry) }
{
    let mut left = behind;
    while let Some(text) = left {
        let (line, rest) = split_line(text);
        if begins_with(line, b"O") {
            return true;
        }
        left = rest;
    }
    false
}

/// Whether the first word of a line is this one.
fn begins_with(line: &[u8], word: &[u8]) -> bool
    ensures { result ≡ begins_with word.now (words line.now) }
{
    match next_word(line) {
        Some((first, _)) => *first == *word,
        None => false,
    }
}
