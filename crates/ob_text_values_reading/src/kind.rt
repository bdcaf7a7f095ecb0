//! The kinds of lines, and how far they have come.

ghost use Rattle.std.specs.Prelude.{◌≡◌};
ghost use Rattle.ob_text_values_reading.specs.LineKinds.{kind_of, kind_of_byte, place};
ghost use Rattle.ob_text_words.specs.Words.{words};

use crate::line_words::next_word;

/// What a line may be, as its first byte tells.
#[derive(Clone, Copy)]
pub enum LineKind {
    Comment,
    Title,
    Count,
    Budget,
    Opening,
    Event,
    Applied,
    Order,
    Tail,
    Other,
}

/// The kind of line that was read last.
#[derive(Clone, Copy)]
pub enum Stage {
    Start,
    Title,
    Count,
    Budget,
    Openings,
    Events,
    Order,
}

impl Stage {
    /// Its place in the order in which they come.
    pub fn place(self) -> u8
        ensures { result ≡ place self }
    {
        match self {
            Stage::Start => 0,
            Stage::Title => 1,
            Stage::Count => 2,
            Stage::Budget => 3,
            Stage::Openings => 4,
            Stage::Events => 5,
            Stage::Order => 6,
        }
    }
}

/// What a line may be. One without words is a comment.
pub fn kind_of(line: &[u8]) -> LineKind
    ensures { result ≡ kind_of (words line.now) }
{
    let Some((word, _rest)) = next_word(line) else {
        return LineKind::Comment;
    };
    match word.split_first() {
        Some((first, _more)) => kind_of_byte(*first),
        None => LineKind::Other,
    }
}

fn kind_of_byte(byte: u8) -> LineKind
    ensures { result ≡ kind_of_byte byte }
{
    match byte {
        b'#' => LineKind::Comment,
        b'o' => LineKind::Title,
        b'n' => LineKind::Count,
        b'b' => LineKind::Budget,
        b'I' => LineKind::Opening,
        b'B' | b'E' => LineKind::Event,
        b'A' => LineKind::Applied,
        b'O' => LineKind::Order,
        b'S' | b'V' => LineKind::Tail,
        _ => LineKind::Other,
    }
}
