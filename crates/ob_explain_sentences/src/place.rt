//! Lines and columns of a text.

ghost use Rattle.std.specs.Prelude.{◌≡◌, ◌+◌, ◌≤◌, ◌<◌, ◌^◌, drop, length, take};
ghost use Rattle.ob_explain_sentences.specs.Places.{behind_byte, line_before, line_from, place_in, shown_place, up_to_line_feed};

/// A place as people count: its line from 1, and its column, which is one more than the bytes before it in its line.
#[derive(Clone, Copy)]
pub struct Place {
    pub line: usize,
    pub column: usize,
}

/// Where the byte at an offset stands; at the text's end for an offset behind it.
pub fn place_in(text: &[u8], at: usize) -> Place
    ensures place { result ≡ place_in text.now at }
    ensures column { (1 ≤ result.column) × (result.column ≤ length (take at text.now) + 1) }
{
    let mut place = Place { line: 1, column: 1 };
    for byte in &text[..at.min(text.len())] {
        place = place_behind(place, *byte);
    }
    place
}

/// The place behind a byte.
fn place_behind(place: Place, byte: u8) -> Place
    requires { (place.line < 2 ^ 63) × (place.column < 2 ^ 63) }
    ensures { result ≡ behind_byte place byte }
{
    if byte == b'\n' {
        Place {
            line: place.line + 1,
            column: 1,
        }
    } else {
        Place {
            line: place.line,
            column: place.column + 1,
        }
    }
}

/// The line in which an offset stands, without its line feed: what it has before that place, and what from there on.
pub fn line_around(text: &[u8], at: usize) -> (&[u8], &[u8])
    ensures before { result.0.now ≡ line_before text.now at }
    ensures behind { result.1.now ≡ line_from text.now at }
{
    let (before, behind) = text.split_at(at.min(text.len()));
    let begin = before.len() + 1 - place_in(text, at).column;
    (&before[begin..], up_to_line_feed(behind))
}

/// The bytes before the first line feed, or all.
fn up_to_line_feed(text: &[u8]) -> &[u8]
    ensures { result.now ≡ up_to_line_feed text.now }
{
    let length = text.iter().take_while(|byte| **byte != b'\n').count();
    &text[..length]
}

/// Where a place of a text is shown: its end behind the last byte that is no blank.
pub fn shown_place(text: &[u8], at: usize) -> usize
    ensures { result ≡ shown_place text.now at }
{
    if at < text.len() {
        at
    } else {
        text.trim_ascii_end().len()
    }
}

/// What stands before a place of a text, and what from there on.
pub fn halves(text: &[u8], place: usize) -> (&[u8], &[u8])
    ensures before { result.0.now ≡ take place text.now }
    ensures behind { result.1.now ≡ drop place text.now }
{
    text.split_at(place.min(text.len()))
}
