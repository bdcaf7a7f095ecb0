//! Statements that have others in them, as other languages have them, and whole bodies: what is left out of them, or put in their place.

use ob_evidence::nearest_names::leads_to_statement;
use ob_evidence::small_keywords::{first_of_statement, next_behind};
use ob_evidence::text_site::{Site, is_kind, kind_or_name, look_around};
use ob_explain_sentences::first_word::is_same_in_any_case;
use ob_explain_sentences::place::halves;
use ob_explain_words::declaring::declares;
use ob_mendings::comments::line_of;
use ob_mendings::fix::{BODY, LOOP_HEADING, STATEMENT, fixed, left_out};
use ob_mendings::mending::{Elsewhere, Mending, Told};
use ob_mendings::part::{is_in_body, part_at, part_mending};
use ob_mendings::tokens::{between, ends_line, first_behind, last_before, length_of};
use ob_scan::{Kind, Token};
use std::alloc::{AllocError, Global};

/// Words with which other languages begin a statement that has others in it, and an END of its own.
const WHOLES: &[&[u8]] = &[b"CASE", b"SWITCH", b"MATCH", b"SELECT", b"WITH", b"TRY"];

/// Words with which they begin a loop that has an END of its own.
const LOOPS: &[&[u8]] = &[b"FOR", b"FOREACH", b"LOOP"];

/// These begin what stands in no body.
const SECTIONS: &[Kind] = &[
    Kind::Module,
    Kind::Procedure,
    Kind::Const,
    Kind::Type,
    Kind::Var,
];

/// How many such statements are looked at, so that a text takes time in proportion to its length.
const MOST_TRIED: usize = 8;

/// A statement that has others in it: its first word and its END.
#[derive(Clone, Copy)]
struct Whole {
    first: Token,
    end: Token,
}

/// The mending of a CASE, or what else other languages have, in which the place stands: it is left out up to its END.
pub fn whole_mending(alloc: Global, site: &Site<'_, '_>) -> Result<Option<Mending>, AllocError> {
    match whole_around(site) {
        Some(whole) => {
            let (_, from) = halves(site.text, whole.first.start);
            let length = whole.end.end.saturating_sub(whole.first.start);
            left_out(alloc, whole.first.start, halves(from, length).0, STATEMENT)
        }
        None => Ok(None),
    }
}

/// The same at a `|`, with which no token begins: a CASE is looked for as if a blank stood for each of them.
pub fn bar_mending(
    alloc: Global,
    text: &[u8],
    place: usize,
) -> Result<Option<Mending>, AllocError> {
    match halves(text, place).1 {
        [b'|', ..] => {
            let clean = cleared_of(alloc, text, b'|')?;
            let found = look_around(alloc, &clean, place)?;
            whole_mending(alloc, &found.site(&clean, place))
        }
        _ => Ok(None),
    }
}

/// The mending of `c ? a : b`: what it stands in is left out, since nothing stands for it in one statement.
pub fn choice_mending(
    alloc: Global,
    text: &[u8],
    place: usize,
) -> Result<Option<Mending>, AllocError> {
    match halves(text, place).1 {
        [b'?', ..] => {
            let clean = cleared_of(alloc, text, b'?')?;
            let found = look_around(alloc, &clean, place)?;
            part_mending(alloc, &found.site(&clean, place))
        }
        _ => Ok(None),
    }
}

/// Bytes with a blank for each one that is this.
fn cleared_of(alloc: Global, text: &[u8], sign: u8) -> Result<Vec<u8>, AllocError> {
    let mut clean = Vec::new(alloc);
    for byte in text {
        clean.push(if *byte == sign { b' ' } else { *byte })?;
    }
    Ok(clean)
}

/// The nearest such statement that begins before the place and ends behind it.
fn whole_around(site: &Site<'_, '_>) -> Option<Whole> {
    let mut tried: usize = 0;
    for token in site.before {
        if SECTIONS.contains(&token.kind) || tried == MOST_TRIED {
            return None;
        }
        if begins_with(site, *token, WHOLES) {
            tried = tried.saturating_add(1);
            if let Some(end) = end_behind(site, *token)
                && site.place < end.end
            {
                return Some(Whole { first: *token, end });
            }
        }
    }
    None
}

/// Whether a statement begins with this token, which is one of these words, and no name of the text.
pub(crate) fn begins_with(site: &Site<'_, '_>, token: Token, words: &[&[u8]]) -> bool {
    token.kind == Kind::Ident
        && is_one_of(words, site.word_of(Some(token)))
        && !declares(site.text, site.tokens, site.word_of(Some(token)))
        && leads_to_statement(kind_or_name(last_before(site.before, token.start)))
}

/// Whether a word is one of these, in capitals or not.
pub(crate) fn is_one_of(words: &[&[u8]], word: &[u8]) -> bool {
    for other in words {
        if is_same_in_any_case(word, other) {
            return true;
        }
    }
    false
}

/// The END of the statement that begins with this token.
fn end_behind(site: &Site<'_, '_>, first: Token) -> Option<Token> {
    let mut inside: usize = 0;
    for token in site.tokens {
        if token.start <= first.start {
            continue;
        }
        if SECTIONS.contains(&token.kind) {
            return None;
        }
        if matches!(token.kind, Kind::End | Kind::Until) {
            if inside == 0 {
                return Some(*token);
            }
            inside = inside.saturating_sub(1);
        } else if opens(site, *token) {
            inside = inside.saturating_add(1);
        }
    }
    None
}

/// Whether an END or an UNTIL closes what begins with this token.
fn opens(site: &Site<'_, '_>, token: Token) -> bool {
    let word = site.word_of(Some(token));
    matches!(
        token.kind,
        Kind::If | Kind::While | Kind::Repeat | Kind::Begin
    ) || is_one_of(WHOLES, word)
        || is_one_of(LOOPS, word)
}

/// The mending of `THEN BEGIN .. END ELSE`: a block that ends before an ELSE or an ELSIF has neither BEGIN nor END.
pub fn block_mending(alloc: Global, site: &Site<'_, '_>) -> Result<Option<Mending>, AllocError> {
    let Some(begin) = site.here() else {
        return Ok(None);
    };
    match end_behind(site, begin) {
        Some(end) if begin.kind == Kind::Begin && goes_on(site, end) => Ok(Some(Mending {
            place: begin.start,
            taken: length_of(Some(begin)),
            put: Vec::new(alloc),
            elsewhere: Elsewhere::Moved(end.start, length_of(Some(end))),
            told: Told::Words("with this BEGIN and its END left out"),
        })),
        _ => Ok(None),
    }
}

/// Whether an ELSE or an ELSIF follows an END, or a `;` and then one of these.
fn goes_on(site: &Site<'_, '_>, end: Token) -> bool {
    match next_behind(site.tokens, end.start) {
        Some(next) if next.kind == Kind::Semicolon => {
            is_case(next_behind(site.tokens, next.start))
        }
        next => is_case(next),
    }
}

fn is_case(token: Option<Token>) -> bool {
    matches!(kind_or_name(token), Kind::Else | Kind::Elsif)
}

/// The mending of a FOR of another form than `FOR i := 1 TO n DO`: a WHILE for its heading, up to its DO or the end of its line.
pub fn loop_mending(alloc: Global, site: &Site<'_, '_>) -> Result<Option<Mending>, AllocError> {
    match first_of_statement(site) {
        Some(first) if begins_loop(site, first) => {
            let end = heading_end(site, first);
            fixed(
                alloc,
                first.start,
                end.saturating_sub(first.start),
                LOOP_HEADING,
            )
        }
        _ => Ok(None),
    }
}

/// Whether a token is a FOR in a body.
fn begins_loop(site: &Site<'_, '_>, first: Token) -> bool {
    let word = site.word_of(Some(first));
    is_in_body(site.before)
        && (is_same_in_any_case(word, b"FOR") || is_same_in_any_case(word, b"FOREACH"))
        && !declares(site.text, site.tokens, word)
}

/// Where the heading of a loop ends that begins with this token: behind its DO, or where its line does.
fn heading_end(site: &Site<'_, '_>, first: Token) -> usize {
    let (_, from) = halves(site.text, first.start);
    let line = first
        .start
        .saturating_add(line_of(from).trim_ascii_end().len());
    match first_behind(site.tokens, first.start, &[Kind::Do]) {
        Some(end) if end.end <= line => end.end,
        _ => line,
    }
}

/// The mending of an assignment whose line ends behind its `:=`, before an IF, a WHILE or a REPEAT: it is left out.
pub fn empty_mending(alloc: Global, site: &Site<'_, '_>) -> Result<Option<Mending>, AllocError> {
    let is_before = matches!(
        kind_or_name(site.here()),
        Kind::If | Kind::While | Kind::Repeat
    );
    match (site.last(), part_at(site)) {
        (Some(assign), Some(part))
            if is_before
                && assign.kind == Kind::Assign
                && ends_line(halves(site.text, site.place).0) => {
            let whole = between(site.text, part.first.start, assign.end);
            left_out(alloc, part.first.start, whole, STATEMENT)
        }
        _ => Ok(None),
    }
}

/// The mending that leaves out all statements of the body in which the place stands, up to the END with the name of what ends there.
pub fn body_mending(alloc: Global, site: &Site<'_, '_>) -> Result<Option<Mending>, AllocError> {
    match (begin_before(site), named_end(site)) {
        (Some(begin), Some(end)) => {
            let (_, from) = halves(site.text, begin.end);
            let length = end.start.saturating_sub(begin.end);
            left_out(alloc, begin.end, halves(from, length).0, BODY)
        }
        _ => Ok(None),
    }
}

/// The mending of a name of another level: without the statements of its body, where it stands there more than once.
pub fn level_mending(alloc: Global, site: &Site<'_, '_>) -> Result<Option<Mending>, AllocError> {
    if stands_behind(site) {
        body_mending(alloc, site)
    } else {
        Ok(None)
    }
}

/// Whether the name at the place stands once more behind it, with no heading and no section between.
fn stands_behind(site: &Site<'_, '_>) -> bool {
    for token in site.behind {
        if SECTIONS.contains(&token.kind) {
            return false;
        }
        if site.word_of(Some(*token)) == site.word() {
            return true;
        }
    }
    false
}

/// The BEGIN of the body in which the place stands: one behind a THEN, an ELSE, a DO or a REPEAT is a block in it.
fn begin_before(site: &Site<'_, '_>) -> Option<Token> {
    for token in site.before {
        if SECTIONS.contains(&token.kind) {
            return None;
        }
        let last = kind_or_name(last_before(site.before, token.start));
        if token.kind == Kind::Begin
            && !matches!(last, Kind::Then | Kind::Else | Kind::Do | Kind::Repeat)
        {
            return Some(*token);
        }
    }
    None
}

/// The END at or behind the place behind which the name of a procedure or of the module stands, with no heading between.
fn named_end(site: &Site<'_, '_>) -> Option<Token> {
    let mut last = site.here();
    for token in site.behind {
        if SECTIONS.contains(&token.kind) {
            return None;
        }
        if is_kind(last, Kind::End) && is_headed(site, site.word_of(Some(*token))) {
            return last;
        }
        last = Some(*token);
    }
    None
}

/// Whether a word is the name of the module or of a procedure before the place.
fn is_headed(site: &Site<'_, '_>, word: &[u8]) -> bool {
    if word.is_empty() {
        return false;
    }
    for token in site.before {
        if matches!(token.kind, Kind::Module | Kind::Procedure)
            && site.word_of(next_behind(site.tokens, token.start)) == word
        {
            return true;
        }
    }
    false
}
