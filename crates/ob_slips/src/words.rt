//! Words of other languages that are slips, keywords in small letters or misspelt, and words that stand alone as a statement, where they are
//! read as a call.

use crate::foreign_words::{RECORDS, TYPES, WORDS, first_same};
use ob_diagnosis::keywords::{keyword_before, keyword_first, keyword_there};
use ob_evidence::lone_names::lone_end;
use ob_evidence::nearest_names::leads_to_statement;
use ob_evidence::small_keywords::{capitals, first_of_statement, next_behind, small_keyword};
use ob_evidence::text_site::{Site, is_kind, kind_or_name};
use ob_explain_sentences::first_word::is_same_in_any_case;
use ob_explain_sentences::kinds::sample;
use ob_explain_tokens::open::open_construct;
use ob_explain_words::declaring::declares;
use ob_mendings::capitals::small_words;
use ob_mendings::fix::{
    AND_THEN, EQUAL, EQUAL_RECORD, POINTER, RECORD_WORD, changed, fixed, worded,
};
use ob_mendings::mending::{Elsewhere, Mending, Told};
use ob_mendings::part::{ENDS, is_in_body};
use ob_mendings::tokens::{last_before, length_of};
use ob_scan::{Kind, Token};
use std::alloc::{AllocError, Global};

/// Where one of these stands, it shows which constructs are open.
const OPEN: &[Kind] = &[
    Kind::End,
    Kind::Else,
    Kind::Elsif,
    Kind::Until,
    Kind::Const,
    Kind::Type,
    Kind::Var,
    Kind::Procedure,
    Kind::Begin,
];

/// Keywords that may stand alone, as a name that is a whole statement.
const LONE: [&[u8]; 6] = [b"END", b"ELSE", b"THEN", b"DO", b"BEGIN", b"REPEAT"];

/// How a keyword in small letters is told where it stands.
const IN_CAPITALS: Told = Told::Words("with the keyword in capitals");

/// The mending of a token, if it is a keyword in small letters or a word of another language.
pub(crate) fn keyword_mending(
    alloc: Global,
    site: &Site<'_, '_>,
    token: Option<Token>,
) -> Result<Option<Mending>, AllocError> {
    let Some(name) = token else {
        return Ok(None);
    };
    if small_keyword(alloc, site, name)?.is_some() {
        return capital_mending(alloc, site, name, IN_CAPITALS);
    }
    match first_same(WORDS, site.word_of(Some(name))) {
        Some(word) if is_new(site, name) => match next_behind(site.tokens, name.start) {
            // `a AND THEN b`
            Some(then) if then.kind == Kind::Then && is_same_in_any_case(word.word, b"AND") => {
                let taken = then.end.saturating_sub(name.start);
                fixed(alloc, name.start, taken, AND_THEN)
            }
            _ => fixed(alloc, name.start, length_of(Some(name)), word.fix),
        },
        _ => Ok(None),
    }
}

/// The mending of a keyword in small letters: of all of them, where there are several.
fn capital_mending(
    alloc: Global,
    site: &Site<'_, '_>,
    name: Token,
    told: Told,
) -> Result<Option<Mending>, AllocError> {
    let small = small_words(alloc, site.text)?;
    if small.len() > 1 && stands_among(&small, name) {
        let all = if has_truth(site, &small) {
            "with the words of the language in capitals, TRUE and FALSE among them"
        } else {
            "with the words of the language in capitals"
        };
        return Ok(Some(changed(alloc, site.place, Elsewhere::Capitals, all)));
    }
    Ok(Some(Mending {
        place: name.start,
        taken: length_of(Some(name)),
        put: capitals(alloc, site.word_of(Some(name)))?,
        elsewhere: Elsewhere::Nothing,
        told,
    }))
}

/// Whether one of these tokens is TRUE or FALSE.
fn has_truth(site: &Site<'_, '_>, tokens: &[Token]) -> bool {
    for token in tokens {
        let word = site.word_of(Some(*token));
        if is_same_in_any_case(word, b"TRUE") || is_same_in_any_case(word, b"FALSE") {
            return true;
        }
    }
    false
}

/// Whether a token is one of these.
fn stands_among(tokens: &[Token], name: Token) -> bool {
    for token in tokens {
        if token.start == name.start {
            return true;
        }
    }
    false
}

/// The mending of a name at the place that is near to a keyword.
pub(crate) fn misspelt_there(
    alloc: Global,
    site: &Site<'_, '_>,
) -> Result<Option<Mending>, AllocError> {
    keyword_put(
        alloc,
        site.here(),
        keyword_there(alloc, site)?,
        " in its place",
    )
}

/// The same of the name before it.
pub(crate) fn misspelt_before(
    alloc: Global,
    site: &Site<'_, '_>,
) -> Result<Option<Mending>, AllocError> {
    let told = " for the word before it";
    keyword_put(alloc, site.last(), keyword_before(alloc, site)?, told)
}

/// The same of the name with which the statement begins.
pub(crate) fn misspelt_first(
    alloc: Global,
    site: &Site<'_, '_>,
) -> Result<Option<Mending>, AllocError> {
    let told = " for the word with which this statement begins";
    keyword_put(
        alloc,
        first_of_statement(site),
        keyword_first(alloc, site)?,
        told,
    )
}

/// The mending that puts a keyword in place of a name.
fn keyword_put(
    alloc: Global,
    name: Option<Token>,
    keyword: Option<Kind>,
    told: &'static str,
) -> Result<Option<Mending>, AllocError> {
    let (Some(name), Some(keyword)) = (name, keyword) else {
        return Ok(None);
    };
    let length = length_of(Some(name));
    worded(alloc, name.start, length, sample(keyword).as_bytes(), told)
}

/// The mending of the token before a `:`, if it is a keyword in small letters that may stand alone, in a body.
pub(crate) fn colon_mending(
    alloc: Global,
    site: &Site<'_, '_>,
) -> Result<Option<Mending>, AllocError> {
    match site.last() {
        Some(name)
            if is_kind(site.here(), Kind::Colon)
                && is_in_body(site.before)
                && is_lone(site, name) => { capital_mending(alloc, site, name, IN_CAPITALS) }
        _ => Ok(None),
    }
}

/// The mending of the nearest word before the place that stands alone, where what stands there tells which constructs are open; or of one that
/// is meant to be END.
pub(crate) fn alone_before(
    alloc: Global,
    site: &Site<'_, '_>,
) -> Result<Option<Mending>, AllocError> {
    if !is_kind(site.last(), Kind::End) && !OPEN.contains(&kind_or_name(site.here())) {
        return Ok(None);
    }
    for token in site.before {
        if is_alone(site, *token) {
            let told = Told::Line("with the keyword of line ", " in capitals");
            return capital_mending(alloc, site, *token, told);
        }
    }
    match lone_end(site, open_construct(site.before)) {
        Some(name) => Ok(Some(Mending {
            place: name.start,
            taken: length_of(Some(name)),
            put: Vec::from_slice(alloc, b"END")?,
            elsewhere: Elsewhere::Nothing,
            told: Told::Line("with END in line ", ""),
        })),
        None => Ok(None),
    }
}

/// The mending of the token at the place, if it stands alone.
pub(crate) fn alone_there(
    alloc: Global,
    site: &Site<'_, '_>,
) -> Result<Option<Mending>, AllocError> {
    match site.here() {
        Some(token) if is_alone(site, token) => keyword_mending(alloc, site, Some(token)),
        _ => Ok(None),
    }
}

/// The mending of `POINTER TO` before a type.
pub(crate) fn pointer_mending(
    alloc: Global,
    site: &Site<'_, '_>,
) -> Result<Option<Mending>, AllocError> {
    match (site.last(), site.here()) {
        (Some(pointer), Some(to))
            if is_same_in_any_case(site.word_of(Some(pointer)), b"POINTER")
                && is_same_in_any_case(site.word(), b"TO") => {
            let taken = to.end.saturating_sub(pointer.start);
            fixed(alloc, pointer.start, taken, POINTER)
        }
        _ => Ok(None),
    }
}

/// The mending of a type of another language.
pub(crate) fn type_mending(
    alloc: Global,
    site: &Site<'_, '_>,
) -> Result<Option<Mending>, AllocError> {
    match first_same(TYPES, site.word()) {
        Some(word) if matches!(kind_or_name(site.last()), Kind::Colon | Kind::Of) => {
            fixed(alloc, site.place, length_of(site.here()), word.fix)
        }
        _ => Ok(None),
    }
}

/// The mending of a word for RECORD, behind the `=` of a type or behind its name alone, and of IS for that `=`.
pub(crate) fn record_mending(
    alloc: Global,
    site: &Site<'_, '_>,
) -> Result<Option<Mending>, AllocError> {
    let (Some(last), Some(here)) = (site.last(), site.here()) else {
        return Ok(None);
    };
    let leader = kind_or_name(site.second());
    let is_behind_name = matches!(leader, Kind::Type | Kind::Semicolon);
    if is_in_body(site.before) {
        return Ok(None);
    }
    let begins_declared = is_behind_name || leader == Kind::Const;
    if begins_declared
        && last.kind == Kind::Ident
        && is_new(site, here)
        && is_same_in_any_case(site.word(), b"IS")
    {
        fixed(alloc, here.start, length_of(Some(here)), EQUAL)
    } else if is_behind_name && last.kind == Kind::Ident && is_record_word(site, here) {
        fixed(alloc, here.start, length_of(Some(here)), EQUAL_RECORD)
    } else if leads_to_type(leader) && here.kind == Kind::Ident && is_record_word(site, last) {
        fixed(alloc, last.start, length_of(Some(last)), RECORD_WORD)
    } else {
        Ok(None)
    }
}

/// Whether a token is a word for RECORD that the text does not declare.
fn is_record_word(site: &Site<'_, '_>, token: Token) -> bool {
    is_new(site, token) && first_same(RECORDS, site.word_of(Some(token))).is_some()
}

/// Whether a type stands behind a token.
fn leads_to_type(kind: Kind) -> bool {
    matches!(kind, Kind::Equal | Kind::Colon | Kind::Of)
}

/// Whether a token is a name that the text does not declare.
pub(crate) fn is_new(site: &Site<'_, '_>, name: Token) -> bool {
    is_kind(Some(name), Kind::Ident) && !declares(site.text, site.tokens, site.word_of(Some(name)))
}

/// Whether a token is a name, and but for small letters a keyword that may stand alone.
fn is_lone(site: &Site<'_, '_>, token: Token) -> bool {
    let word = site.word_of(Some(token));
    for lone in &LONE {
        if is_same_in_any_case(word, lone) {
            return is_kind(Some(token), Kind::Ident);
        }
    }
    false
}

/// Whether a token up to the place is such a name, and a whole statement.
fn is_alone(site: &Site<'_, '_>, token: Token) -> bool {
    is_lone(site, token)
        && is_new(site, token)
        && ends_part(kind_or_name(next_behind(site.tokens, token.start)))
        && leads_to_statement(kind_or_name(last_before(site.before, token.start)))
}

/// Whether a part of a body ends before a token.
fn ends_part(kind: Kind) -> bool {
    ENDS.contains(&kind) || matches!(kind, Kind::Then | Kind::Do)
}
