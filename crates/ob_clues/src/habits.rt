//! What shows a habit of another language: a `:` behind a keyword, a part of a procedure, and a line that ends with an operator.

use crate::foreign::begins_part;
use crate::further::is_type;
use crate::procedure_names::{is_procedure, lists, stands_before};
use ob_evidence::text_site::{Site, is_kind};
use ob_explain_sentences::place::halves;
use ob_explain_words::declaring::declares;
use ob_scan::{Kind, Token};

/// Whether a keyword in small letters stands there, before it, or before the `:` and the name before it, with a `:` behind it and no
/// type behind that: `begin: x := 1`.
pub fn has_small_before_colon(site: &Site<'_, '_>) -> bool {
    let behind = match site.behind {
        [first, second, ..] if first.kind == Kind::Colon => Some(*second),
        _ => None,
    };
    is_small_at(site, site.here(), behind)
        || is_kind(site.here(), Kind::Colon) && is_small_at(site, site.last(), site.next())
        || is_begun_before(site)
}

/// Whether a token is a keyword in small letters that stands nowhere before, and behind its `:` stands this token, and no type.
fn is_small_at(site: &Site<'_, '_>, name: Option<Token>, behind: Option<Token>) -> bool {
    let Some(name) = name else {
        return false;
    };
    let Some(behind) = behind else {
        return false;
    };
    is_small(site, name)
        && !matches!(behind.kind, Kind::Array | Kind::Record)
        && !is_type(site, site.word_of(Some(behind)))
}

/// Whether `begin`, a `:` and the name of what is no type stand before a `:=`.
fn is_begun_before(site: &Site<'_, '_>) -> bool {
    match site.before {
        [name, colon, begin, ..] => {
            is_kind(site.here(), Kind::Assign)
                && colon.kind == Kind::Colon
                && site.word_of(Some(*begin)).eq_ignore_ascii_case(b"BEGIN")
                && is_small_at(site, Some(*begin), Some(*name))
        }
        _ => false,
    }
}

/// Whether a token is a name that is a keyword but for small letters, and that stands nowhere before.
fn is_small(site: &Site<'_, '_>, name: Token) -> bool {
    name.kind == Kind::Ident && begins_part(site.word_of(Some(name))) && !stands_before(site, name)
}

/// Whether the name of a procedure, and of nothing else, a `.` and a name stand before the place.
pub fn is_behind_part_of_procedure(site: &Site<'_, '_>) -> bool {
    match site.before {
        [part, dot, name, ..] => {
            let word = site.word_of(Some(*name));
            part.kind == Kind::Ident
                && dot.kind == Kind::Dot
                && !word.is_empty()
                && is_procedure(site, site.tokens, word)
                && !lists(site, word)
        }
        _ => false,
    }
}

/// Whether a word stands there behind a `#` and another word in its line, and the text does not declare both: so begins a comment of other
/// languages.
pub fn is_in_comment(site: &Site<'_, '_>) -> bool {
    is_kind(site.second(), Kind::NotEqual)
        && !line_of_place(site).is_empty()
        && is_kind(site.last(), Kind::Ident)
        && is_kind(site.here(), Kind::Ident)
        && !(declares(site.text, site.tokens, site.word_of(site.last()))
            && declares(site.text, site.tokens, site.word()))
}

/// Whether the line before ends with an operator, and the token there begins its own line, or is a `:=` behind what may be assigned.
pub fn is_unfinished(site: &Site<'_, '_>) -> bool {
    let line = line_of_place(site);
    match line_end(site, line) {
        Some(last) => is_operator(last.kind) && (line.is_empty() || is_assigned_to(site, line)),
        None => false,
    }
}

/// Whether the line before ends with a `:=`, and the token there begins its own line, or stands behind what may be assigned or called.
pub fn is_unassigned(site: &Site<'_, '_>) -> bool {
    let line = line_of_place(site);
    is_kind(line_end(site, line), Kind::Assign)
        && (line.is_empty() || is_assigned_to(site, line) || is_call_of(site, line))
}

/// The tokens before the place that begin in its line, the last one first.
fn line_of_place<'a>(site: &Site<'_, 'a>) -> &'a [Token] {
    let (before, _) = halves(site.text, site.place);
    let inside = begun_from(site.before, line_begin(before));
    let (line, _) = site.before.split_at(inside.min(site.before.len()));
    line
}

/// The token with which the line before ends, where these stand in the line of the place.
fn line_end(site: &Site<'_, '_>, line: &[Token]) -> Option<Token> {
    let (before, _) = halves(site.text, site.place);
    let (_, rest) = site.before.split_at(line.len().min(site.before.len()));
    match rest {
        [last, ..] if is_line_end(halves(before, last.end).1) => Some(*last),
        _ => None,
    }
}

/// Whether a `(` stands there, and this token before it is a name.
fn is_call_of(site: &Site<'_, '_>, line: &[Token]) -> bool {
    is_kind(site.here(), Kind::LeftParen)
        && match line {
            [only] => only.kind == Kind::Ident,
            _ => false,
        }
}

/// Where the last line of some bytes begins.
pub(crate) fn line_begin(bytes: &[u8]) -> usize {
    let mut begin = 0;
    for (at, byte) in bytes.iter().enumerate() {
        if *byte == b'\n' {
            begin = at.saturating_add(1);
        }
    }
    begin
}

/// How many of these tokens, the last one first, begin from a place on.
pub fn begun_from(tokens: &[Token], begin: usize) -> usize {
    let mut count: usize = 0;
    for token in tokens {
        if token.start < begin {
            return count;
        }
        count = count.saturating_add(1);
    }
    count
}

/// Whether bytes are blanks, a line feed, and what stands behind it, which has no line feed.
fn is_line_end(bytes: &[u8]) -> bool {
    let mut is_ended = false;
    for byte in bytes {
        if *byte == b'\n' && is_ended {
            return false;
        }
        if !is_ended && !byte.is_ascii_whitespace() {
            return false;
        }
        is_ended = is_ended || *byte == b'\n';
    }
    is_ended
}

/// Whether a `:=` stands there, and these tokens before it, the last one first, are what may be assigned: a name, an element or a field.
fn is_assigned_to(site: &Site<'_, '_>, line: &[Token]) -> bool {
    is_kind(site.here(), Kind::Assign)
        && match line {
            [only] => only.kind == Kind::Ident,
            [last, .., second, first] => {
                first.kind == Kind::Ident
                    && matches!(second.kind, Kind::Dot | Kind::LeftBracket)
                    && matches!(last.kind, Kind::Ident | Kind::RightBracket)
            }
            _ => false,
        }
}

/// Whether a token is an operator behind which an operand stands.
fn is_operator(kind: Kind) -> bool {
    matches!(
        kind,
        Kind::Plus
            | Kind::Minus
            | Kind::Times
            | Kind::Div
            | Kind::Mod
            | Kind::And
            | Kind::Or
            | Kind::Not
            | Kind::Equal
            | Kind::NotEqual
            | Kind::Less
            | Kind::LessOrEqual
            | Kind::Greater
            | Kind::GreaterOrEqual
    )
}
