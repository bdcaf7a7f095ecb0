//! Statements and conditions that are written as in other languages, in the module's own names: a variable that is counted up, a FOR, and
//! comparisons that are joined without parentheses. They are written anew only where all names in them are known: a fault of one would be shown
//! where what is written anew begins, and a name that stands there twice would be told twice.

use crate::comments::{Run, length_of_run, line_of};
use crate::fix::worded;
use crate::mending::Mending;
use crate::part::{CONDITIONS, Part, part_at};
use crate::tokens::{between, first_behind};
use ob_evidence::small_keywords::next_behind;
use ob_evidence::text_site::Site;
use ob_explain_names::lookup::sort_of;
use ob_explain_sentences::first_word::{is_same_in_any_case, word_at};
use ob_explain_sentences::place::halves;
use ob_explain_tokens::operand_tokens::is_relation;
use ob_explain_words::declaring::declares;
use ob_scan::{Kind, Token};
use std::alloc::{AllocError, Global};

/// A variable that is counted up or down: the sign, and by how much.
#[derive(Clone, Copy)]
struct Count<'t> {
    variable: &'t [u8],
    sign: &'static [u8],
    amount: &'t [u8],
}

/// The mending of `i++`, `i += 2` or `INC(i)`: `i := i + 1` in its place.
pub fn count_mending(alloc: Global, site: &Site<'_, '_>) -> Result<Option<Mending>, AllocError> {
    let Some(part) = part_at(site) else {
        return Ok(None);
    };
    let (_, rest) = halves(site.text, part.first.start);
    let line = part.first.start.saturating_add(line_of(rest).len());
    let end = part.end.start.min(line);
    let whole = between(site.text, part.first.start, end);
    let word = word_at(whole);
    let is_call = is_same_in_any_case(word, b"INC") || is_same_in_any_case(word, b"DEC");
    let begin = if is_call {
        part.first.end
    } else {
        part.first.start
    };
    match count_in(site, part.first.start, end, whole) {
        Some(count) if !count.variable.is_empty() && are_known(site, begin, end) => {
            let put = statement_of(alloc, count)?;
            worded(alloc, part.first.start, whole.len(), &put, " in its place")
        }
        _ => Ok(None),
    }
}

/// Whether each name between two places is one that the text declares, or one of the language's own, but those of fields.
pub fn are_known(site: &Site<'_, '_>, begin: usize, end: usize) -> bool {
    let mut last = Kind::Semicolon;
    for token in site.tokens {
        let is_inside = begin <= token.start && token.start < end;
        if is_inside && last != Kind::Dot && is_unknown(site, *token) {
            return false;
        }
        last = token.kind;
    }
    true
}

/// Whether a token is a name that nothing has.
fn is_unknown(site: &Site<'_, '_>, token: Token) -> bool {
    let word = site.word_of(Some(token));
    token.kind == Kind::Ident
        && sort_of(site.text, site.known, word).is_none()
        && !declares(site.text, site.tokens, word)
}

/// The variable that a statement between two places counts, if it does that.
fn count_in<'t>(
    site: &Site<'t, '_>,
    begin: usize,
    end: usize,
    whole: &'t [u8],
) -> Option<Count<'t>> {
    if is_same_in_any_case(word_at(whole), b"INC") {
        return called(whole, b" + ");
    }
    if is_same_in_any_case(word_at(whole), b"DEC") {
        return called(whole, b" - ");
    }
    let (here, next) = (site.here()?, site.next()?);
    let sign = sign_of(here.kind)?;
    let variable = between(site.text, begin, here.start);
    let behind = between(site.text, next.end, end);
    if next.kind == Kind::Equal {
        Some(Count {
            variable,
            sign,
            amount: behind,
        })
    } else if next.kind != here.kind {
        None
    } else if behind.is_empty() {
        Some(Count {
            variable,
            sign,
            amount: b"1",
        })
    } else if variable.is_empty() {
        Some(Count {
            variable: behind,
            sign,
            amount: b"1",
        })
    } else {
        None
    }
}

/// The sign by which a variable is counted.
fn sign_of(kind: Kind) -> Option<&'static [u8]> {
    match kind {
        Kind::Plus => Some(b" + "),
        Kind::Minus => Some(b" - "),
        _ => None,
    }
}

/// The variable that a call such as `INC(i)` or `INC(i, 2)` counts.
fn called<'t>(whole: &'t [u8], sign: &'static [u8]) -> Option<Count<'t>> {
    let (_, behind) = halves(whole, word_at(whole).len());
    let [b'(', inside @ .., b')'] = behind.trim_ascii() else {
        return None;
    };
    let (variable, rest) = halves(inside, comma_in(inside));
    let amount: &[u8] = match rest {
        [_, amount @ ..] => amount.trim_ascii(),
        [] => b"1",
    };
    Some(Count {
        variable: variable.trim_ascii(),
        sign,
        amount,
    })
}

/// Where a comma stands in bytes; their end where none does.
fn comma_in(bytes: &[u8]) -> usize {
    for (at, byte) in bytes.iter().enumerate() {
        if *byte == b',' {
            return at;
        }
    }
    bytes.len()
}

/// The assignment that counts a variable.
fn statement_of(alloc: Global, count: Count<'_>) -> Result<Vec<u8>, AllocError> {
    let is_word = length_of_run(count.amount, Run::Word) == count.amount.len();
    let (left, right): (&[u8], &[u8]) = if is_word { (b"", b"") } else { (b"(", b")") };
    let mut put = Vec::from_slice(alloc, count.variable)?;
    put.extend_from_slice(b" := ")?;
    put.extend_from_slice(count.variable)?;
    put.extend_from_slice(count.sign)?;
    put.extend_from_slice(left)?;
    put.extend_from_slice(count.amount)?;
    put.extend_from_slice(right)?;
    Ok(put)
}

/// The mending of `FOR i := 1 TO n DO`: a WHILE for it.
pub fn for_mending(alloc: Global, site: &Site<'_, '_>) -> Result<Option<Mending>, AllocError> {
    let Some(part) = part_at(site) else {
        return Ok(None);
    };
    let first = part.first;
    if !is_same_in_any_case(site.word_of(Some(first)), b"FOR") {
        return Ok(None);
    }
    let end = heading_end(site, first);
    let assign = first_behind(site.tokens, first.start, &[Kind::Assign]);
    match (assign, named_behind(site, first, b"TO")) {
        (Some(assign), Some(to))
            if assign.end < to.start
                && to.end < end.0
                && are_known(site, first.end, to.start)
                && are_known(site, to.end, most_end(site, first, end.0)) => {
            let name = between(site.text, first.end, assign.start);
            let mut put = Vec::from_slice(alloc, name)?;
            put.extend_from_slice(b" := ")?;
            put.extend_from_slice(between(site.text, assign.end, to.start))?;
            put.extend_from_slice(b"; WHILE ")?;
            put.extend_from_slice(name)?;
            put.extend_from_slice(b" <= ")?;
            put.extend_from_slice(between(site.text, to.end, most_end(site, first, end.0)))?;
            put.extend_from_slice(b" DO")?;
            let taken = end.1.saturating_sub(first.start);
            worded(alloc, first.start, taken, &put, STEP)
        }
        _ => Ok(None),
    }
}

/// Where the DO of a FOR begins and ends; both the end of its line where that has none.
fn heading_end(site: &Site<'_, '_>, first: Token) -> (usize, usize) {
    let (_, rest) = halves(site.text, first.start);
    let line = first.start.saturating_add(line_of(rest).len());
    match named_behind(site, first, b"DO") {
        Some(end) if end.end <= line => (end.start, end.end),
        _ => (line, line),
    }
}

/// Where the most of a FOR ends: at its step, if it has one, or where its heading does.
fn most_end(site: &Site<'_, '_>, first: Token, end: usize) -> usize {
    match named_behind(site, first, b"BY") {
        Some(step) => step.start.min(end),
        None => end,
    }
}

/// What is told of a WHILE for a FOR.
const STEP: &str = " for the FOR (and a step of it before its END)";

/// The first token behind another one that is this word, in small letters or not.
fn named_behind(site: &Site<'_, '_>, first: Token, word: &[u8]) -> Option<Token> {
    for token in site.tokens {
        let bytes = between(site.text, token.start, token.end);
        if first.start < token.start && is_same_in_any_case(bytes, word) {
            return Some(*token);
        }
    }
    None
}

/// What is put in place of a condition: what was put of it, where the rest begins, where the last relation in it ends, and whether anything has
/// parentheses now.
#[derive(Drop)]
struct Joined {
    put: Vec<u8>,
    from: usize,
    relation: Option<usize>,
    is_changed: bool,
}

/// The mending of `a > 1 & b > 2`, which compares a with `1 & b`: `(a > 1) & (b > 2)`; and of `a < b < c`: `(a < b) & (b < c)`.
pub fn paren_mending(alloc: Global, site: &Site<'_, '_>) -> Result<Option<Mending>, AllocError> {
    let Some(part) = part_at(site) else {
        return Ok(None);
    };
    let Some(first) = value_begin(site, part) else {
        return Ok(None);
    };
    let (begin, end) = condition_around(site, first, part.end.start);
    let whole = between(site.text, begin, end);
    let joined = joined_in(alloc, site, begin, end)?;
    if whole.contains(&b'\n') || !joined.is_changed || !are_known(site, begin, end) {
        return Ok(None);
    }
    worded(alloc, begin, whole.len(), &joined.put, " in its place")
}

/// Where the condition around the place begins and ends, between these two places: in the parentheses that are open there, if any are.
fn condition_around(site: &Site<'_, '_>, first: usize, end: usize) -> (usize, usize) {
    let mut inside: usize = 0;
    for token in site.before {
        if token.start < first {
            return (first, end);
        }
        match token.kind {
            Kind::RightParen | Kind::RightBracket => inside = inside.saturating_add(1),
            Kind::LeftParen if inside == 0 => return (token.end, closed_at(site, end)),
            Kind::LeftParen | Kind::LeftBracket => inside = inside.saturating_sub(1),
            _ => {}
        }
    }
    (first, end)
}

/// Where the parentheses around the place are closed, or this end.
fn closed_at(site: &Site<'_, '_>, end: usize) -> usize {
    let mut inside: usize = 0;
    for token in site.behind {
        if end <= token.start {
            return end;
        }
        match token.kind {
            Kind::LeftParen => inside = inside.saturating_add(1),
            Kind::RightParen if inside == 0 => return token.start,
            Kind::RightParen => inside = inside.saturating_sub(1),
            _ => {}
        }
    }
    end
}

/// Where the condition of a part begins, or the value of an assignment.
fn value_begin(site: &Site<'_, '_>, part: Part) -> Option<usize> {
    if CONDITIONS.contains(&part.leader.kind) {
        return Some(part.first.start);
    }
    let assign = first_behind(site.tokens, part.first.start, &[Kind::Assign])?;
    let value = next_behind(site.tokens, assign.start)?;
    if assign.start < part.end.start {
        Some(value.start)
    } else {
        None
    }
}

/// The condition between two places, with each comparison that is joined to something between parentheses.
fn joined_in(
    alloc: Global,
    site: &Site<'_, '_>,
    begin: usize,
    end: usize,
) -> Result<Joined, AllocError> {
    let mut joined = Joined {
        put: Vec::new(alloc),
        from: begin,
        relation: None,
        is_changed: false,
    };
    let mut inside: usize = 0;
    let mut is_joined = false;
    for token in site.tokens {
        if token.start < begin || end <= token.start {
            continue;
        }
        match token.kind {
            Kind::LeftParen | Kind::LeftBracket => inside = inside.saturating_add(1),
            Kind::RightParen | Kind::RightBracket => inside = inside.saturating_sub(1),
            Kind::And | Kind::Or if inside == 0 => {
                is_joined = true;
                joined.push(site.text, token.start)?;
                joined.join(site.text, *token)?;
            }
            kind if inside == 0 && is_relation(kind) => {
                is_joined = joined.compare(site.text, *token)? || is_joined;
            }
            _ => {}
        }
    }
    if is_joined {
        joined.push(site.text, end)?;
    }
    Ok(joined)
}

impl Joined {
    /// Puts what stands up to a place.
    fn push(&mut self, text: &[u8], to: usize) -> Result<(), AllocError> {
        let piece = between(text, self.from, to);
        if self.relation.is_some() {
            self.put.push(b'(')?;
            self.push_compared(piece)?;
            self.put.push(b')')?;
            self.is_changed = true;
        } else {
            self.put.extend_from_slice(piece)?;
        }
        self.relation = None;
        Ok(())
    }

    /// Takes a relation, and tells whether another one stands before it: then what stands between them is compared twice. A sign that touches
    /// the one before is a part of that.
    fn compare(&mut self, text: &[u8], sign: Token) -> Result<bool, AllocError> {
        let last = self.relation;
        let is_second = match last {
            Some(end) if end < sign.start => {
                self.push(text, sign.start)?;
                self.put.extend_from_slice(b" & ")?;
                self.from = end;
                true
            }
            _ => false,
        };
        self.relation = Some(sign.end);
        Ok(is_second)
    }

    /// Puts a comparison, with one `=` for two.
    fn push_compared(&mut self, piece: &[u8]) -> Result<(), AllocError> {
        let mut last = b' ';
        for byte in piece {
            if last != b'=' || *byte != b'=' {
                self.put.push(*byte)?;
            }
            last = *byte;
        }
        Ok(())
    }

    /// Puts the sign that joins it to the next.
    fn join(&mut self, text: &[u8], sign: Token) -> Result<(), AllocError> {
        self.put.push(b' ')?;
        self.put
            .extend_from_slice(between(text, sign.start, sign.end))?;
        self.put.push(b' ')?;
        self.from = sign.end;
        Ok(())
    }
}
