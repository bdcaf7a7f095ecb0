//! Calls counted in texts: each stands on a line of its own.

ghost use Rattle.std.specs.Prelude.{◌≡◌, count_by, map};
ghost use Rattle.ob_fault_lines.specs.Counts.{CountsCalls, CountsEvents, begins_with, is_begin, is_end, makes_call, script_calls};
ghost use Rattle.ob_text_words.specs.Words.{lines, words};

use ob_text_values_reading::line_words::next_word;
use ob_text_values_reading::lines::without_last_feed;

/// How many calls a script makes.
pub fn script_calls(script: &[u8]) -> usize
    ensures lines { result ≡ script_calls script.now }
    ensures calls { CountsCalls script.now result }
{
    let mut count = 0;
    for line in script.split(|byte| *byte == b'\n') {
        if makes_call(line) {
            count += 1;
        }
    }
    count
}

/// How many calls begin, as the text of a record tells.
pub fn begun_calls(text: &[u8]) -> usize
    ensures { CountsEvents is_begin text.now result }
{
    lines_with(b'B', without_last_feed(text))
}

/// How many calls end, as the text of a record tells.
pub fn ended_calls(text: &[u8]) -> usize
    ensures { CountsEvents is_end text.now result }
{
    lines_with(b'E', without_last_feed(text))
}

/// How many lines of a text begin with a letter.
fn lines_with(letter: u8, text: &[u8]) -> usize
    ensures { result ≡ count_by (begins_with letter) (map words (lines text.now)) }
{
    let mut count = 0;
    for line in text.split(|byte| *byte == b'\n') {
        if begins_with(letter, line) {
            count += 1;
        }
    }
    count
}

/// Whether a line of a script makes a call.
fn makes_call(line: &[u8]) -> bool
    ensures { result ≡ makes_call (words line.now) }
{
    match next_word(line) {
        Some((word, _rest)) => word.first() != Some(&b'#'),
        None => false,
    }
}

/// Whether the first byte of a line is a letter.
fn begins_with(letter: u8, line: &[u8]) -> bool
    ensures { result ≡ begins_with letter (words line.now) }
{
    match next_word(line) {
        Some((word, _rest)) => word.first() == Some(&letter),
        None => false,
    }
}
