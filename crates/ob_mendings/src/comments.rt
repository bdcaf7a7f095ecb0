//! Comments as other languages have them, and one that is open at the end.

use crate::fix::{COMMENT, COMMENT_END, fixed, left_out};
use crate::mending::Mending;
use crate::part::{CONDITIONS, is_in_body, part_at};
use crate::tokens::ends_line;
use ob_evidence::nearest_names::leads_to_statement;
use ob_evidence::text_site::{Site, is_kind, kind_or_name};
use ob_explain_sentences::place::halves;
use ob_explain_words::declaring::declares;
use ob_scan::Kind;
use std::alloc::{AllocError, Global};

/// The mending of a comment that is open at the end: it ends where the line of its begin does.
pub fn comment_mending(
    alloc: Global,
    text: &[u8],
    place: usize,
) -> Result<Option<Mending>, AllocError> {
    let (_, from) = halves(text, place);
    let end = place.saturating_add(line_of(from).len());
    fixed(alloc, end, 0, COMMENT_END)
}

/// The mending of words behind a `#` with which a line or a statement would begin, or which stands behind an END or among declarations, or behind
/// `--`, as comments of other languages do.
pub fn line_mending(alloc: Global, site: &Site<'_, '_>) -> Result<Option<Mending>, AllocError> {
    let (before, from) = halves(site.text, site.place);
    let last = kind_or_name(site.last());
    let is_first = ends_line(before)
        || leads_to_statement(last)
        || last == Kind::End
        || site.last().is_some() && !is_in_body(site.before);
    match from {
        [b'#', ..] if is_first => line_left_out(alloc, site.text, site.place),
        [b'-', b'-', b' ', ..] => line_left_out(alloc, site.text, site.place),
        [b'-', b' ', ..] if before.ends_with(b"-") => {
            line_left_out(alloc, site.text, site.place.saturating_sub(1))
        }
        _ => Ok(None),
    }
}

/// The mending of two words behind a `#` of which one is a name of nothing, as `# so much` in `x := 1 # so much`.
pub fn words_mending(alloc: Global, site: &Site<'_, '_>) -> Result<Option<Mending>, AllocError> {
    match (site.second(), site.last()) {
        (Some(sign), Some(word))
            if sign.kind == Kind::NotEqual
                && word.kind == Kind::Ident
                && is_kind(site.here(), Kind::Ident)
                && !(declares(site.text, site.tokens, site.word_of(Some(word)))
                    && declares(site.text, site.tokens, site.word())) => {
            line_left_out(alloc, site.text, sign.start)
        }
        _ => Ok(None),
    }
}

/// The same of one word, of which none is visible, at the end of the line of an assignment or a call.
pub fn word_mending(alloc: Global, site: &Site<'_, '_>) -> Result<Option<Mending>, AllocError> {
    let (_, behind) = halves(site.text, site.place.saturating_add(site.word().len()));
    match (part_at(site), site.last()) {
        (Some(part), Some(sign))
            if sign.kind == Kind::NotEqual
                && !CONDITIONS.contains(&part.leader.kind)
                && line_of(behind).trim_ascii().is_empty() => {
            line_left_out(alloc, site.text, sign.start)
        }
        _ => Ok(None),
    }
}

/// The mending that leaves out what stands from a place to the end of its line.
fn line_left_out(alloc: Global, text: &[u8], place: usize) -> Result<Option<Mending>, AllocError> {
    let (_, from) = halves(text, place);
    left_out(alloc, place, line_of(from), COMMENT)
}

/// What stands before a place in its line.
pub(crate) fn line_before(text: &[u8], place: usize) -> &[u8] {
    let (before, _) = halves(text, place);
    let mut begin = 0;
    for (at, byte) in before.iter().enumerate() {
        if *byte == b'\n' {
            begin = at.saturating_add(1);
        }
    }
    halves(before, begin).1
}

/// Bytes that stand in a row.
#[derive(Clone, Copy)]
pub(crate) enum Run {
    Digits,
    /// Letters and digits.
    Word,
    /// Those that no letter of ASCII is.
    Foreign,
    /// Those up to this one.
    UpTo(u8),
}

/// How many such bytes these begin with.
pub(crate) fn length_of_run(from: &[u8], run: Run) -> usize {
    for (at, byte) in from.iter().enumerate() {
        if !is_in_run(run, *byte) {
            return at;
        }
    }
    from.len()
}

/// Whether a byte is one of them.
fn is_in_run(run: Run, byte: u8) -> bool {
    match run {
        Run::Digits => byte.is_ascii_digit(),
        Run::Word => byte.is_ascii_alphanumeric(),
        Run::Foreign => !byte.is_ascii(),
        Run::UpTo(end) => byte != end,
    }
}

/// The bytes up to the end of the line.
pub fn line_of(from: &[u8]) -> &[u8] {
    halves(from, length_of_run(from, Run::UpTo(b'\n'))).0
}

/// A comment of C, up to its end, or to that of the text.
pub(crate) fn comment_of(from: &[u8]) -> &[u8] {
    for (at, byte) in from.iter().enumerate() {
        if *byte == b'/' && at > 2 && halves(from, at).0.ends_with(b"*") {
            return halves(from, at.saturating_add(1)).0;
        }
    }
    from
}

/// A comment of Pascal with which these bytes begin, where it ends in its line and no statement stands in it.
pub(crate) fn braced(from: &[u8]) -> Option<&[u8]> {
    let line = line_of(from);
    let length = length_of_run(line, Run::UpTo(b'}'));
    let (inside, behind) = halves(line, length);
    if behind.is_empty()
        || inside.contains(&b';')
        || inside.contains(&b'=')
        || inside.contains(&b'(')
    {
        None
    } else {
        Some(halves(line, length.saturating_add(1)).0)
    }
}

/// How many bytes a text between quotation marks has, with them; one where none stands behind it in its line.
pub(crate) fn quoted(from: &[u8]) -> usize {
    match line_of(from) {
        [mark, rest @ ..] => {
            let inside = length_of_run(rest, Run::UpTo(*mark));
            if inside < rest.len() { inside + 2 } else { 1 }
        }
        [] => 1,
    }
}
