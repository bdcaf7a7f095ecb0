//! The first of some tokens that are of these kinds, how long one is, and whether a line ends before it.

use ob_explain_sentences::place::{halves, shown_place};
use ob_scan::{Kind, Token};

/// The first of these tokens of one of these kinds.
pub fn first_of(tokens: &[Token], kinds: &[Kind]) -> Option<Token> {
    for token in tokens {
        if kinds.contains(&token.kind) {
            return Some(*token);
        }
    }
    None
}

/// The first one behind a place.
pub fn first_behind(tokens: &[Token], place: usize, kinds: &[Kind]) -> Option<Token> {
    for token in tokens {
        if place < token.start && kinds.contains(&token.kind) {
            return Some(*token);
        }
    }
    None
}

/// The first of these tokens, which go back from a place, that begins before another one.
pub fn last_before(tokens: &[Token], place: usize) -> Option<Token> {
    for token in tokens {
        if token.start < place {
            return Some(*token);
        }
    }
    None
}

/// The bytes from one place up to another, without blanks at both ends.
pub fn between(text: &[u8], from: usize, to: usize) -> &[u8] {
    let (_, rest) = halves(text, from);
    halves(rest, to.saturating_sub(from)).0.trim_ascii()
}

/// How many bytes a token has.
pub fn length_of(token: Option<Token>) -> usize {
    match token {
        Some(token) => token.end.saturating_sub(token.start),
        None => 0,
    }
}

/// Whether a line feed stands among the blanks at the end.
pub fn ends_line(bytes: &[u8]) -> bool {
    let (_, blanks) = halves(bytes, shown_place(bytes, bytes.len()));
    blanks.contains(&b'\n')
}
