//! Values of constants, lengths of arrays and types of variables that are none.

use itoa::Buffer;
use ob_evidence::small_keywords::next_behind;
use ob_evidence::text_site::{Site, is_kind, kind_or_name, rest_of};
use ob_explain_names::declarations::first_of as first_token;
use ob_explain_sentences::first_word::{is_same, is_same_in_any_case};
use ob_explain_sentences::place::halves;
use ob_explain_tokens::operand_tokens::is_relation;
use ob_explain_tokens::parens::is_in_parens;
use ob_mendings::fix::{
    BEGIN_COLON, EQUAL_TYPED, FALSE, Fix, INITIAL, LENGTH, RESULT, TRUE, TYPE, VALUE, WORD_BEFORE,
    fixed, left_out, worded,
};
use ob_mendings::mending::Mending;
use ob_mendings::part::is_in_body;
use ob_mendings::rewritten::are_known;
use ob_mendings::tokens::{between, first_behind, first_of, length_of};
use ob_scan::{Kind, Token};
use std::alloc::{AllocError, Global};

/// What stands between two tokens, and what is put in its place.
#[derive(Clone, Copy)]
struct Gap {
    leader: Token,
    end: Token,
    fix: Fix,
}

/// Behind these a value, a length, a type or a declaration begins.
const LEADERS: &[Kind] = &[
    Kind::Equal,
    Kind::Array,
    Kind::Colon,
    Kind::Semicolon,
    Kind::Const,
    Kind::Type,
    Kind::Var,
];

/// Before these it ends.
const ENDS: &[Kind] = &[
    Kind::Semicolon,
    Kind::Of,
    Kind::RightParen,
    Kind::Record,
    Kind::End,
    Kind::Begin,
    Kind::Procedure,
];

/// The mending of the value, the length or the type in which the place stands, in a declaration.
pub fn value_mending(alloc: Global, site: &Site<'_, '_>) -> Result<Option<Mending>, AllocError> {
    // A type of which none is visible may have parts, so no other one is put in its place.
    let is_type_named = is_kind(site.last(), Kind::Colon) && is_kind(site.here(), Kind::Ident);
    if is_in_body(site.before) || is_type_named || is_assigned(site) {
        return Ok(None);
    }
    let Some(gap) = gap_at(site) else {
        return Ok(None);
    };
    let Some(first) = next_behind(site.tokens, gap.leader.start) else {
        return Ok(None);
    };
    let (_, from) = halves(site.text, first.start);
    let length = gap.end.start.saturating_sub(first.start);
    left_out(alloc, first.start, halves(from, length).0, gap.fix)
}

/// Whether a `:=` stands behind a name that is no type of the language: then it is a statement that is not declared.
fn is_assigned(site: &Site<'_, '_>) -> bool {
    let word = site.word_of(site.last());
    is_kind(site.here(), Kind::Assign) && !is_language_type(word)
}

/// The mending that leaves out the type of a result, which stands behind the parameters of a heading, or the value of a variable, which stands
/// behind its type.
pub fn result_mending(alloc: Global, site: &Site<'_, '_>) -> Result<Option<Mending>, AllocError> {
    let ends: &[Kind] = if is_in_parens(site.before) {
        &[Kind::Semicolon, Kind::RightParen]
    } else {
        &[Kind::Semicolon]
    };
    match (first_of(site.behind, ends), too_much(site)) {
        (Some(end), Some(fix)) if !is_in_body(site.before) => {
            let whole = between(site.text, site.place, end.start);
            if !whole.contains(&b'\n') {
                left_out(alloc, site.place, whole, fix)
            } else if let Some(end) = result_end(site) {
                left_out(alloc, site.place, between(site.text, site.place, end), fix)
            } else {
                begun(alloc, site)
            }
        }
        _ => Ok(None),
    }
}

/// Where the type of a result ends at the place that stands behind a `)` without a `:`: `-> T`, `RETURN T`, or `T` alone.
fn result_end(site: &Site<'_, '_>) -> Option<usize> {
    let next = site.next()?;
    let end = match kind_or_name(site.here()) {
        Kind::Minus => next_behind(site.tokens, next.start)?.end,
        Kind::Ident if is_same_in_any_case(site.word(), b"RETURN") => next.end,
        Kind::Ident => site.here()?.end,
        _ => return None,
    };
    Some(end)
}

/// The mending of a `:` behind a heading, where a body begins without a BEGIN.
fn begun(alloc: Global, site: &Site<'_, '_>) -> Result<Option<Mending>, AllocError> {
    match kind_or_name(site.here()) {
        Kind::Colon => fixed(alloc, site.place, 1, BEGIN_COLON),
        _ => Ok(None),
    }
}

/// What is told of a type or a value that is too much.
fn too_much(site: &Site<'_, '_>) -> Option<Fix> {
    match (kind_or_name(site.here()), kind_or_name(site.last())) {
        (Kind::Colon, Kind::RightParen) => Some(RESULT),
        (Kind::Minus, Kind::RightParen) if is_kind(site.next(), Kind::Greater) => Some(RESULT),
        (Kind::Ident, Kind::RightParen) if is_result(site) => Some(RESULT),
        (Kind::Colon, Kind::Ident | Kind::Times) if is_kind(heading_of(site), Kind::Procedure) => {
            Some(RESULT)
        }
        (Kind::Equal | Kind::Assign, Kind::Ident) if is_kind(site.second(), Kind::Colon) => {
            Some(INITIAL)
        }
        _ => None,
    }
}

/// Whether a type of a result, or RETURN before one, stands at the place behind the parameters of a heading.
fn is_result(site: &Site<'_, '_>) -> bool {
    let section = first_of(
        site.before,
        &[Kind::Procedure, Kind::Begin, Kind::Const, Kind::Type],
    );
    is_kind(section, Kind::Procedure)
        && !is_same_in_any_case(site.word(), b"IS")
        && !is_same_in_any_case(site.word(), b"AS")
}

/// The token before the name behind which the place stands, or behind whose `*`.
fn heading_of(site: &Site<'_, '_>) -> Option<Token> {
    if is_kind(site.last(), Kind::Times) {
        first_token(rest_of(rest_of(site.before)))
    } else {
        site.second()
    }
}

/// The mending of the type of a constant, as in `CONST n: INTEGER = 5` and `CONST n: constant INTEGER := 5`: without it.
pub fn typed_mending(alloc: Global, site: &Site<'_, '_>) -> Result<Option<Mending>, AllocError> {
    let third = first_token(rest_of(site.behind));
    let (named, value) = if is_kind(third, Kind::Ident) {
        (third, first_token(rest_of(rest_of(site.behind))))
    } else {
        (site.next(), third)
    };
    let (Some(colon), Some(named), Some(value)) = (site.here(), named, value) else {
        return Ok(None);
    };
    if colon.kind != Kind::Colon || named.kind != Kind::Ident || !is_constant(site) {
        return Ok(None);
    }
    match value.kind {
        Kind::Equal => {
            let (_, from) = halves(site.text, colon.start);
            let length = named.end.saturating_sub(colon.start);
            left_out(alloc, colon.start, halves(from, length).0, RESULT)
        }
        Kind::Assign if !between(site.text, colon.start, value.end).contains(&b'\n') => {
            let taken = value.end.saturating_sub(colon.start);
            fixed(alloc, colon.start, taken, EQUAL_TYPED)
        }
        _ => Ok(None),
    }
}

/// The mending of `x: OUT INTEGER` in a heading, where VAR stands before the name, and of `x: IN INTEGER`.
pub fn out_mending(alloc: Global, site: &Site<'_, '_>) -> Result<Option<Mending>, AllocError> {
    match (site.last(), first_token(rest_of(rest_of(site.before)))) {
        (Some(out), Some(name))
            if is_out(site.word_of(Some(out)))
                && name.kind == Kind::Ident
                && is_kind(site.second(), Kind::Colon)
                && is_kind(site.here(), Kind::Ident) => { var_before(alloc, site, name, out.end) }
        (Some(word), _)
            if is_same_in_any_case(site.word_of(Some(word)), b"IN")
                && is_kind(site.second(), Kind::Colon)
                && is_kind(site.here(), Kind::Ident)
                && !is_out(site.word()) => {
            fixed(alloc, word.start, length_of(Some(word)), WORD_BEFORE)
        }
        _ => Ok(None),
    }
}

/// Whether a word says in other languages that a parameter gives a value.
fn is_out(word: &[u8]) -> bool {
    is_same_in_any_case(word, b"OUT")
        || is_same_in_any_case(word, b"INOUT")
        || is_same_in_any_case(word, b"REF")
        || is_same_in_any_case(word, b"BYREF")
}

/// What stands around a length in brackets, in place of the type of an array: from where on, up to where, what is put before ARRAY, and the
/// type of the elements, where that stands before the brackets.
#[derive(Clone, Copy)]
struct Bracketed<'t> {
    begin: usize,
    end: usize,
    front: &'static [u8],
    element: &'t [u8],
    told: &'static str,
}

/// The mending of `a: INTEGER[4]`, `a: [4]INTEGER`, `a [4]INTEGER` or `a[4]: INTEGER`: the type of an array.
pub fn length_mending(alloc: Global, site: &Site<'_, '_>) -> Result<Option<Mending>, AllocError> {
    let ends = &[Kind::RightBracket, Kind::Semicolon];
    let (Some(open), Some(close)) = (site.here(), first_of(site.behind, ends)) else {
        return Ok(None);
    };
    if open.kind != Kind::LeftBracket
        || close.kind != Kind::RightBracket
        || is_in_body(site.before)
    {
        return Ok(None);
    }
    let Some(bracketed) = bracketed_at(site, open, close) else {
        return Ok(None);
    };
    let mut put = Vec::from_slice(alloc, bracketed.front)?;
    put.extend_from_slice(b"ARRAY ")?;
    put_length(&mut put, site, open, close)?;
    put.extend_from_slice(b" OF ")?;
    put.extend_from_slice(bracketed.element)?;
    let taken = bracketed.end.saturating_sub(bracketed.begin);
    worded(alloc, bracketed.begin, taken, &put, bracketed.told)
}

/// What stands around a length between these brackets.
fn bracketed_at<'t>(site: &Site<'t, '_>, open: Token, close: Token) -> Option<Bracketed<'t>> {
    let last = site.last()?;
    let behind = next_behind(site.tokens, close.start)?;
    let is_name = last.kind == Kind::Ident && !is_language_type(site.word_of(Some(last)));
    let end = match behind.kind {
        Kind::Of => behind.end,
        Kind::Colon if is_name => behind.end,
        _ => close.end,
    };
    let plain = Bracketed {
        begin: open.start,
        end,
        front: b"",
        element: b"",
        told: "in its place",
    };
    match (last.kind, kind_or_name(site.second())) {
        (Kind::Ident, Kind::Colon) => Some(Bracketed {
            begin: last.start,
            element: site.word_of(Some(last)),
            told: " in its place",
            ..plain
        }),
        (Kind::Ident, Kind::Var | Kind::Semicolon | Kind::Comma | Kind::Record)
            if is_name && begins_element(behind) => {
            Some(Bracketed {
                front: b": ",
                ..plain
            })
        }
        (Kind::Colon | Kind::Equal | Kind::Of, _) => Some(plain),
        _ => None,
    }
}

/// Whether the type of an element, or what leads to it, begins with a token.
fn begins_element(token: Token) -> bool {
    matches!(
        token.kind,
        Kind::Ident | Kind::Array | Kind::Record | Kind::Of | Kind::Colon | Kind::LeftBracket
    )
}

/// Whether a word is a type of the language.
fn is_language_type(word: &[u8]) -> bool {
    is_same(word, b"INTEGER") || is_same(word, b"BOOLEAN")
}

/// Puts the length that stands between these brackets; 1 for none, and of `0..7` the number of the indices.
fn put_length(
    put: &mut Vec<u8>,
    site: &Site<'_, '_>,
    open: Token,
    close: Token,
) -> Result<(), AllocError> {
    let length = between(site.text, open.end, close.start);
    let mut buffer = Buffer::new();
    if length.is_empty() {
        put.extend_from_slice(b"1")
    } else {
        match indices_behind(site, open, close.start) {
            Some(count) => put.extend_from_slice(buffer.format(count).as_bytes()),
            None => put.extend_from_slice(length),
        }
    }
}

/// How many indices `0..7` has, as it stands behind a token and ends up to a place.
fn indices_behind(site: &Site<'_, '_>, leader: Token, end: usize) -> Option<usize> {
    let first = first_behind(site.tokens, leader.start, &[Kind::Number])?;
    let last = first_behind(site.tokens, first.start, &[Kind::Number])?;
    if end < last.end || between(site.text, first.end, last.start) != b"..".as_slice() {
        return None;
    }
    let most = number_at(site, last).saturating_add(1);
    Some(most.saturating_sub(number_at(site, first)))
}

/// The mending of `x: VAR INTEGER` in a heading: VAR stands before the name.
pub fn var_mending(alloc: Global, site: &Site<'_, '_>) -> Result<Option<Mending>, AllocError> {
    match (site.here(), site.second()) {
        (Some(var), Some(name))
            if var.kind == Kind::Var
                && name.kind == Kind::Ident
                && is_kind(site.last(), Kind::Colon) => { var_before(alloc, site, name, var.end) }
        _ => Ok(None),
    }
}

/// The mending that puts VAR before the name of a parameter: `VAR x:` for what stands from there up to a place.
fn var_before(
    alloc: Global,
    site: &Site<'_, '_>,
    name: Token,
    end: usize,
) -> Result<Option<Mending>, AllocError> {
    let mut put = Vec::from_slice(alloc, b"VAR ")?;
    put.extend_from_slice(site.word_of(Some(name)))?;
    put.push(b':')?;
    let taken = end.saturating_sub(name.start);
    worded(alloc, name.start, taken, &put, " in its place")
}

/// The mending of a 0 or a 1 that is meant to be FALSE or TRUE.
pub fn truth_mending(alloc: Global, site: &Site<'_, '_>) -> Result<Option<Mending>, AllocError> {
    match site.here() {
        Some(number) if number.kind == Kind::Number => match number_at(site, number) {
            0 => fixed(alloc, site.place, length_of(Some(number)), FALSE),
            1 => fixed(alloc, site.place, length_of(Some(number)), TRUE),
            _ => Ok(None),
        },
        _ => Ok(None),
    }
}

/// The mending of `~a = b` where a is no BOOLEAN: `~(a = b)`.
pub fn not_mending(alloc: Global, site: &Site<'_, '_>) -> Result<Option<Mending>, AllocError> {
    let (Some(not), Some(first), Some(end)) = (
        site.here(),
        site.next(),
        comparison_end(site.behind),
    ) else {
        return Ok(None);
    };
    let whole = between(site.text, first.start, end);
    if not.kind != Kind::Not || whole.contains(&b'\n') || !are_known(site, first.start, end) {
        return Ok(None);
    }
    let mut put = Vec::from_slice(alloc, b"~(")?;
    put.extend_from_slice(whole)?;
    put.push(b')')?;
    let taken = end.saturating_sub(not.start);
    worded(alloc, not.start, taken, &put, " in its place")
}

/// Where the one comparison ends that begins with these tokens: before what is joined to it, or closes what it stands in.
fn comparison_end(tokens: &[Token]) -> Option<usize> {
    let mut inside: usize = 0;
    let mut end = None;
    let mut relations: usize = 0;
    for token in tokens {
        if inside == 0 && !goes_on(token.kind) {
            return if relations == 1 { end } else { None };
        }
        match token.kind {
            Kind::LeftParen | Kind::LeftBracket => inside = inside.saturating_add(1),
            Kind::RightParen | Kind::RightBracket => inside = inside.saturating_sub(1),
            kind if inside == 0 && is_relation(kind) => relations = relations.saturating_add(1),
            _ => {}
        }
        end = Some(token.end);
    }
    None
}

/// Whether a comparison goes on with a token.
fn goes_on(kind: Kind) -> bool {
    is_relation(kind)
        || matches!(
            kind,
            Kind::Ident
                | Kind::Number
                | Kind::Dot
                | Kind::LeftParen
                | Kind::LeftBracket
                | Kind::Plus
                | Kind::Minus
                | Kind::Times
                | Kind::Div
                | Kind::Mod
        )
}

/// The bracket that closes this one, if no `..` stands between them.
fn bracket_around(site: &Site<'_, '_>, open: Token) -> Option<Token> {
    let ends = &[Kind::RightBracket, Kind::Dot, Kind::Semicolon];
    let close = first_behind(site.tokens, open.start, ends)?;
    let is_pair = open.kind == Kind::LeftBracket && close.kind == Kind::RightBracket;
    if is_pair && open.end < close.start {
        Some(close)
    } else {
        None
    }
}

/// The mending of a length that is written as the first and the last index, as `[0..9]` or `(1 .. n)`: their number.
pub fn range_mending(alloc: Global, site: &Site<'_, '_>) -> Result<Option<Mending>, AllocError> {
    let Some(leader) = first_of(site.before, LEADERS) else {
        return Ok(None);
    };
    let (Some(open), Kind::Array) = (next_behind(site.tokens, leader.start), leader.kind) else {
        return Ok(None);
    };
    let mut put = Vec::new(alloc);
    let end = if let Some(range) = range_from(site, open) {
        put_indices(&mut put, site, range)?;
        Some(range.end)
    } else if let Some(close) = bracket_around(site, open) {
        put.extend_from_slice(between(site.text, open.end, close.start))?;
        Some(close.end)
    } else {
        gap_length(&mut put, site)?
    };
    match end {
        Some(end) if !put.is_empty() => {
            // Behind `ARRAY[` a blank is lacking.
            if leader.end < open.start {
                let taken = end.saturating_sub(open.start);
                return worded(alloc, open.start, taken, &put, " in its place");
            }
            let mut whole = Vec::from_slice(alloc, b"ARRAY ")?;
            whole.extend_from_slice(&put)?;
            let taken = end.saturating_sub(leader.start);
            worded(alloc, leader.start, taken, &whole, " in its place")
        }
        _ => Ok(None),
    }
}

/// Puts how many indices `0..9` has without brackets around it, and tells where it ends.
fn gap_length(put: &mut Vec<u8>, site: &Site<'_, '_>) -> Result<Option<usize>, AllocError> {
    let Some(gap) = gap_at(site) else {
        return Ok(None);
    };
    let Some(count) = indices_behind(site, gap.leader, gap.end.start) else {
        return Ok(None);
    };
    let mut buffer = Buffer::new();
    put.extend_from_slice(buffer.format(count).as_bytes())?;
    Ok(Some(gap.end.start))
}

/// The first and the last index of an array, around a `..`, whether the last one has a `- 1` behind it, and where what stands around them ends.
#[derive(Clone, Copy)]
struct Range {
    first: usize,
    last: Token,
    is_less: bool,
    end: usize,
}

/// The range `1 .. n`, `0 .. n - 1` or `0 .. 9`, with the parentheses or the brackets that begin here.
fn range_from(site: &Site<'_, '_>, open: Token) -> Option<Range> {
    let first = next_behind(site.tokens, open.start)?;
    let dot = next_behind(site.tokens, first.start)?;
    let other = next_behind(site.tokens, dot.start)?;
    let last = next_behind(site.tokens, other.start)?;
    let behind = next_behind(site.tokens, last.start)?;
    let (is_less, close) = if behind.kind == Kind::Minus {
        let one = next_behind(site.tokens, behind.start)?;
        (
            between(site.text, one.start, one.end) == b"1".as_slice(),
            next_behind(site.tokens, one.start)?,
        )
    } else {
        (false, behind)
    };
    let is_closed = matches!(
        (open.kind, close.kind),
        (Kind::LeftParen, Kind::RightParen) | (Kind::LeftBracket, Kind::RightBracket)
    );
    let is_range = first.kind == Kind::Number
        && dot.kind == Kind::Dot
        && other.kind == Kind::Dot
        && matches!(last.kind, Kind::Ident | Kind::Number);
    if is_closed && is_range {
        Some(Range {
            first: number_at(site, first),
            last,
            is_less,
            end: close.end,
        })
    } else {
        None
    }
}

/// How many indices a range has, as it is put for the length; nothing where no number tells it.
fn put_indices(put: &mut Vec<u8>, site: &Site<'_, '_>, range: Range) -> Result<(), AllocError> {
    let mut buffer = Buffer::new();
    match (range.last.kind, range.first, range.is_less) {
        (Kind::Number, first, false) => {
            let count = number_at(site, range.last)
                .saturating_add(1)
                .saturating_sub(first);
            put.extend_from_slice(buffer.format(count).as_bytes())
        }
        (Kind::Ident, 0, false) => {
            put.extend_from_slice(site.word_of(Some(range.last)))?;
            put.extend_from_slice(b" + 1")
        }
        (Kind::Ident, 0, true) | (Kind::Ident, 1, false) => {
            put.extend_from_slice(site.word_of(Some(range.last)))
        }
        _ => Ok(()),
    }
}

/// The number that a token is.
fn number_at(site: &Site<'_, '_>, token: Token) -> usize {
    let (_, from) = halves(site.text, token.start);
    let (digits, _) = halves(from, token.end.saturating_sub(token.start));
    let mut number: usize = 0;
    for digit in digits {
        number = number
            .saturating_mul(10)
            .saturating_add(usize::from(digit.saturating_sub(b'0')));
    }
    number
}

/// What stands around the place between tokens of a declaration.
fn gap_at(site: &Site<'_, '_>) -> Option<Gap> {
    let leader = first_of(site.before, LEADERS)?;
    let end = first_behind(site.tokens, leader.start, ENDS)?;
    let fix = put_behind(site, leader, end)?;
    Some(Gap { leader, end, fix })
}

/// What is put between these tokens: a value of a constant, a length of an array, a type.
fn put_behind(site: &Site<'_, '_>, leader: Token, end: Token) -> Option<Fix> {
    match (leader.kind, end.kind) {
        (Kind::Equal, Kind::Semicolon) if is_constant(site) => Some(VALUE),
        (Kind::Equal, Kind::Semicolon) => Some(TYPE),
        (Kind::Array, Kind::Of) => Some(LENGTH),
        (Kind::Colon, Kind::Semicolon | Kind::RightParen | Kind::End) => Some(TYPE),
        _ => None,
    }
}

/// Whether the section in which the place stands declares constants.
fn is_constant(site: &Site<'_, '_>) -> bool {
    let section = first_of(site.before, &[Kind::Const, Kind::Type, Kind::Var]);
    is_kind(section, Kind::Const)
}
