//! The lines of a text, taken off one at a time.

ghost use Rattle.std.specs.Prelude.{◌≡◌, ◌∷◌, ◌==◌, [], map};
ghost use Rattle.std.specs.List.{position};
ghost use Rattle.std.specs.Io.BufRead.{strip_last};
ghost use Rattle.ob_text_words.specs.Words.{lines, words};
ghost use Rattle.ob_text_values_reading.specs.RecordTexts.{lines_behind};

use memchr::memchr;

/// A text without the line feed at its end, if it has one.
pub fn without_last_feed(text: &[u8]) -> &[u8]
    ensures { result.now ≡ strip_last 10 text.now }
{
    match text.split_last() {
        Some((b'\n', before)) => before,
        _ => text,
    }
}

/// The first line of a text, and the text behind its line feed, if it has one.
pub fn split_line(text: &[u8]) -> (&[u8], Option<&[u8]>)
    ensures { map words (lines text.now) ≡ words result.0.now ∷ lines_behind result.1 }
{
    first_line(text)
}

/// The same, with what the line has by itself: it is one line.
pub(crate) fn first_line(text: &[u8]) -> (&[u8], Option<&[u8]>)
    ensures lines { map words (lines text.now) ≡ words result.0.now ∷ lines_behind result.1 }
    ensures alone { map words (lines result.0.now) ≡ words result.0.now ∷ [] }
{
    match feed_in(text) {
        Some(place) => (&text[..place], Some(&text[place + 1..])),
        None => (text, None),
    }
}

/// The place of the first line feed.
fn feed_in(text: &[u8]) -> Option<usize>
    ensures { result ≡ position (λ b. b == 10) text.now }
{
    memchr(b'\n', text)
}
