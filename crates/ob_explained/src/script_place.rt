//! Where the lines of a script begin, and where their words stand.

ghost use Rattle.std.specs.Prelude.{◌≡◌, ◌≤◌, ◌+◌, ◌-◌, ℕ, suc, List, Some, length, slice_get};
ghost use Rattle.std.specs.List.{prefix_len};
ghost use Rattle.ob_text_words.specs.Words.{is_blank, lines};
ghost use Rattle.ob_explain_sentences.specs.Places.{line_from, place_in};
ghost use Rattle.ob_explained.specs.Marks.{AreInLine, BeginsWord, HasProcess};
ghost use Rattle.ob_explained.specs.ScriptPlaces.{behind_feeds, first_end, first_place, first_word, form_place, is_of_word, is_process, line_begin};
ghost use Rattle.ob_explained.specs.ScriptPlaces.{second_place, word_place};

use ob_explain_sentences::place::line_around;

/// The most digits of a process.
const PROCESS_DIGITS: usize = 9;

/// Where the line of a number begins, from 1, and the line.
pub fn script_line(text: &[u8], line: usize) -> (usize, &[u8])
    ensures begin { result.0 ≡ line_begin text.now line }
    ensures line { result.1.now ≡ line_from text.now (line_begin text.now line) }
    ensures within { result.0 ≤ length text.now }

    // It is the line of this number of those between line feeds.
    ensures counted { (bytes : List ℕ) → slice_get (lines text.now) (line - 1) ≡ Some bytes → result.1.now ≡ bytes }

    // A place in it, its end too, is behind the lines before it and behind what it begins with there.
    ensures placed { AreInLine text.now line result.0 }

    // What stands in it, its end too, is shown as of this line.
    ensures shown { (bytes : List ℕ) (at : ℕ) → 1 ≤ line → slice_get (lines text.now) (line - 1) ≡ Some bytes → at ≤ length bytes
        → (place_in text.now (result.0 + at)).line ≡ line }
{
    let begin = behind_feeds(text, line.saturating_sub(1));
    (begin, line_around(text, begin).1)
}

/// How many bytes a text has up to so many line feeds, with these.
fn behind_feeds(text: &[u8], feeds: usize) -> usize
    ensures count { result ≡ behind_feeds feeds text.now }
    ensures within { result ≤ length text.now }
{
    let mut left = feeds;
    for (index, byte) in text.iter().enumerate() {
        if left == 0 {
            return index;
        }
        if *byte == b'\n' {
            left -= 1;
        }
    }
    text.len()
}

/// Where the first word of a line begins.
pub fn first_place(line: &[u8]) -> usize
    ensures place { result ≡ first_place line.now }
    ensures word { BeginsWord line.now 0 result }
    ensures within { result ≤ length line.now }
{
    blanks(line)
}

/// Where the second word of a line begins; its end, where it has none.
pub fn second_place(line: &[u8]) -> usize
    ensures place { result ≡ second_place line.now }
    ensures word { BeginsWord line.now 1 result }
    ensures within { result ≤ length line.now }
{
    let first = blanks(line);
    let behind = first + word_length(&line[first..]);
    behind + blanks(&line[behind..])
}

/// Where the word of a number begins in a line, counted from 0; its end, where it has fewer words.
#[tactic(auto, using(crate::proofs::WordPlaces::first_word_place))]
pub fn word_place(line: &[u8], number: usize) -> usize
    ensures place { result ≡ word_place number line.now }
    ensures word { BeginsWord line.now number result }
    ensures within { result ≤ length line.now }
{
    if number == 0 {
        return blanks(line);
    }
    let end = first_end(line);
    end + word_place(&line[end..], number - 1)
}

/// Where a value begins in a line, behind the process and the name; the end, where it has fewer words.
#[tactic(auto, using(crate::proofs::WordPlaces::value_word_place))]
pub fn value_place(line: &[u8], number: usize) -> usize
    ensures place { result ≡ word_place (suc (suc number)) line.now }
    ensures word { BeginsWord line.now (suc (suc number)) result }
    ensures within { result ≤ length line.now }
{
    let first = first_end(line);
    let rest = &line[first..];
    let second = first_end(rest);
    first + (second + word_place(&rest[second..], number))
}

/// Where a value begins in a line, behind three words; the end, where it has fewer words.
#[tactic(auto, using(crate::proofs::WordPlaces::behind_word_place))]
pub fn behind_place(line: &[u8], number: usize) -> usize
    ensures place { result ≡ word_place (suc (suc (suc number))) line.now }
    ensures word { BeginsWord line.now (suc (suc (suc number))) result }
    ensures within { result ≤ length line.now }
{
    let end = first_end(line);
    end + value_place(&line[end..], number)
}

/// Where the first word of a line ends.
fn first_end(line: &[u8]) -> usize
    ensures place { result ≡ first_end line.now }
    ensures within { result ≤ length line.now }
{
    let first = blanks(line);
    first + word_length(&line[first..])
}

/// The word by which a line is no call: the second one, where the first is a process.
pub fn form_place(line: &[u8]) -> usize
    ensures place { result ≡ form_place line.now }
    ensures name { HasProcess line.now → BeginsWord line.now 1 result }
    ensures process { (HasProcess line.now → ⊥) → BeginsWord line.now 0 result }
    ensures within { result ≤ length line.now }
{
    if is_process(first_word(line)) {
        second_place(line)
    } else {
        first_place(line)
    }
}

/// The first word of a line; empty where it has none.
pub(crate) fn first_word(line: &[u8]) -> &[u8]
    ensures { result.now ≡ first_word line.now }
{
    let rest = &line[blanks(line)..];
    &rest[..word_length(rest)]
}

/// Whether a word is a process: one to nine digits.
pub(crate) fn is_process(word: &[u8]) -> bool
    ensures { result ≡ is_process word.now }
{
    (1 <= word.len() && word.len() <= PROCESS_DIGITS)
        && word.iter().all(|byte| byte.is_ascii_digit())
}

/// How many blanks a line begins with.
fn blanks(line: &[u8]) -> usize
    ensures count { result ≡ prefix_len is_blank line.now }
    ensures within { result ≤ length line.now }
{
    line.iter().take_while(|byte| is_blank(**byte)).count()
}

/// How many bytes of a word a line begins with.
fn word_length(line: &[u8]) -> usize
    ensures count { result ≡ prefix_len is_of_word line.now }
    ensures within { result ≤ length line.now }
{
    line.iter().take_while(|byte| !is_blank(**byte)).count()
}

fn is_blank(byte: u8) -> bool
    ensures { result ≡ is_blank byte }
{
    matches!(byte, b' ' | b'\t' | b'\r')
}
