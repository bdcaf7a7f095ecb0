//! Declarations: one that is there twice, one that is missing, a variable that is declared with a value, and a parameter that lacks its VAR.

use crate::constructs::{begins_with, is_one_of};
use crate::headings::{count_of, heading_name};
use itoa::Buffer;
use ob_evidence::nearest_names::leads_to_statement;
use ob_evidence::small_keywords::next_behind;
use ob_evidence::text_site::{Site, is_kind, kind_or_name};
use ob_explain_sentences::first_word::{is_same, is_same_in_any_case};
use ob_explain_sentences::place::halves;
use ob_explain_tokens::open::is_in_record;
use ob_explain_tokens::operand_tokens::is_relation;
use ob_explain_tokens::parens::is_in_parens;
use ob_explain_words::declaring::declares;
use ob_mendings::fix::{
    DECLARATION, Fix, INTEGER, PROCEDURE, VAR_PARAMETER, WORD_BEFORE, fixed, left_out, worded,
};
use ob_mendings::mending::{Elsewhere, Mending, Told};
use ob_mendings::part::is_in_body;
use ob_mendings::sections::{in_one_line, opened};
use ob_mendings::tokens::{between, first_behind, first_of, last_before, length_of};
use ob_scan::{Kind, Token};
use std::alloc::{AllocError, Global};

/// Words that stand before a variable which is declared where it is assigned first; a type may stand there too.
const LOCALS: &[&[u8]] = &[
    b"LET", b"VAR", b"CONST", b"AUTO", b"DIM", b"LOCAL", b"MY", b"SET",
];

/// Types that stand before such a variable.
const LOCAL_TYPES: &[&[u8]] = &[b"INT", b"BOOL", b"INTEGER", b"BOOLEAN"];

/// Where a declaration begins.
const LEADERS: &[Kind] = &[Kind::Semicolon, Kind::Var, Kind::Const, Kind::Type];

/// The mending of a name at the place that is declared twice: without the second declaration, or, where others stand in that too, with a name
/// that the text has nowhere.
pub fn twice_mending(alloc: Global, site: &Site<'_, '_>) -> Result<Option<Mending>, AllocError> {
    match site.last() {
        Some(procedure) if procedure.kind == Kind::Procedure => match procedure_end(site) {
            Some(end) => without(alloc, site, procedure.start, end.end, PROCEDURE),
            None => Ok(None),
        },
        Some(leader) if LEADERS.contains(&leader.kind) && is_declared_alone(site) => {
            match declaration_end(site.behind) {
                Some(end) => without(alloc, site, site.place, end.end, DECLARATION),
                None => Ok(None),
            }
        }
        _ => renamed(alloc, site),
    }
}

/// The mending that leaves out what stands between two places.
fn without(
    alloc: Global,
    site: &Site<'_, '_>,
    begin: usize,
    end: usize,
    fix: Fix,
) -> Result<Option<Mending>, AllocError> {
    let (_, from) = halves(site.text, begin);
    left_out(alloc, begin, halves(from, end.saturating_sub(begin)).0, fix)
}

/// Whether the name at the place is the only one of its declaration, in no record and no list of parameters.
fn is_declared_alone(site: &Site<'_, '_>) -> bool {
    matches!(
        kind_or_name(site.next()),
        Kind::Colon | Kind::Equal | Kind::Times
    ) && !is_in_parens(site.before)
        && !is_in_record(site.before)
}

/// The `;` that ends a declaration, among the tokens behind its name.
fn declaration_end(tokens: &[Token]) -> Option<Token> {
    let mut inside: usize = 0;
    for token in tokens {
        match token.kind {
            Kind::Record => inside = inside.saturating_add(1),
            Kind::End => inside = inside.saturating_sub(1),
            Kind::Semicolon if inside == 0 => return Some(*token),
            _ => {}
        }
    }
    None
}

/// The `;` behind the END of the procedure whose name stands at the place.
fn procedure_end(site: &Site<'_, '_>) -> Option<Token> {
    let mut last = None;
    for token in site.behind {
        if is_kind(last, Kind::End) && site.word_of(Some(*token)) == site.word() {
            return first_behind(site.tokens, token.start, &[Kind::Semicolon]);
        }
        last = Some(*token);
    }
    None
}

/// The mending of the name of a procedure that is declared further down: that is put before the procedure in which the place stands.
pub fn moved_mending(alloc: Global, site: &Site<'_, '_>) -> Result<Option<Mending>, AllocError> {
    match heading_below(site) {
        Some(heading) => moved(alloc, site, heading, None),
        None => Ok(None),
    }
}

/// The same with its heading alone, where what stands in it needs what it would stand before.
pub fn headed_mending(alloc: Global, site: &Site<'_, '_>) -> Result<Option<Mending>, AllocError> {
    match heading_below(site) {
        Some(heading) => moved(alloc, site, heading, heading_end(site, heading)),
        None => Ok(None),
    }
}

/// The mending that puts the procedure of this heading before the one in which the place stands: the whole, or up to the `;` of its heading.
fn moved(
    alloc: Global,
    site: &Site<'_, '_>,
    heading: Token,
    last: Option<Token>,
) -> Result<Option<Mending>, AllocError> {
    let (Some(around), Some(end)) = (outermost(site.before), procedure_end(site)) else {
        return Ok(None);
    };
    let mut put = Vec::new(alloc);
    let told = match last {
        Some(last) => {
            let begin = between(site.text, heading.start, last.end);
            put.extend_from_slice(&in_one_line(alloc, begin)?)?;
            put.extend_from_slice(b" END ")?;
            put.extend_from_slice(site.word())?;
            put.extend_from_slice(b"; ")?;
            Told::Line(
                "with the heading of this procedure put before line ",
                ", and the rest of it left out, whatever else is wrong in it",
            )
        }
        None => {
            let whole = between(site.text, heading.start, end.end);
            put.extend_from_slice(&in_one_line(alloc, whole)?)?;
            put.push(b' ')?;
            Told::Line("with this procedure put before line ", "")
        }
    };
    Ok(Some(Mending {
        place: around.start,
        taken: 0,
        put,
        elsewhere: Elsewhere::Moved(heading.start, end.end.saturating_sub(heading.start)),
        told,
    }))
}

/// The `;` that ends the heading which begins with this token.
fn heading_end(site: &Site<'_, '_>, heading: Token) -> Option<Token> {
    let mut inside: usize = 0;
    for token in site.tokens {
        match token.kind {
            _ if token.start <= heading.start => {}
            Kind::LeftParen => inside = inside.saturating_add(1),
            Kind::RightParen => inside = inside.saturating_sub(1),
            Kind::Semicolon if inside == 0 => return Some(*token),
            _ => {}
        }
    }
    None
}

/// The PROCEDURE behind the place behind which the name stands that stands at the place too.
fn heading_below(site: &Site<'_, '_>) -> Option<Token> {
    let mut last: Option<Token> = None;
    for token in site.behind {
        if is_kind(last, Kind::Procedure)
            && token.kind == Kind::Ident
            && site.word_of(Some(*token)) == site.word()
        {
            return last;
        }
        last = Some(*token);
    }
    None
}

/// The PROCEDURE of the module itself in which a place stands, before which these tokens stand, the last one first.
fn outermost(tokens: &[Token]) -> Option<Token> {
    let mut inside: usize = 0;
    let mut found = None;
    for token in tokens {
        let kind = token.kind;
        if matches!(kind, Kind::End | Kind::RightParen) {
            inside = inside.saturating_add(1);
        } else if inside > 0 {
            inside = inside.saturating_sub(opened(kind));
        } else if kind == Kind::Procedure {
            found = Some(*token);
        }
    }
    found
}

/// The mending that puts a name in place of that at the place which the text has nowhere.
fn renamed(alloc: Global, site: &Site<'_, '_>) -> Result<Option<Mending>, AllocError> {
    let mut name = Vec::from_slice(alloc, site.word())?;
    name.push(b'2')?;
    if site.word().is_empty() || count_of(site, &name, false) > 0 {
        return Ok(None);
    }
    let length = length_of(site.here());
    worded(alloc, site.place, length, &name, " in its place")
}

/// Where variables are declared: the VAR of their section, or what a VAR is to stand before.
#[derive(Clone, Copy)]
struct Declaring {
    token: Token,
    is_var: bool,
}

/// The mending of a name of which none is visible, where a variable is meant: it is declared.
pub fn declared_mending(alloc: Global, site: &Site<'_, '_>) -> Result<Option<Mending>, AllocError> {
    match declaring_at(site.before) {
        Some(declaring) if is_variable_meant(site) => {
            let told = " among the declarations";
            declared_there(alloc, site, declaring, Elsewhere::Nothing, told)
        }
        _ => Ok(None),
    }
}

/// The mending that declares the variable at the place.
fn declared_there(
    alloc: Global,
    site: &Site<'_, '_>,
    declaring: Declaring,
    elsewhere: Elsewhere,
    told: &'static str,
) -> Result<Option<Mending>, AllocError> {
    let mut put = Vec::from_slice(alloc, b"VAR ")?;
    put.extend_from_slice(site.word())?;
    put.extend_from_slice(b": ")?;
    put.extend_from_slice(type_of(site))?;
    put.push(b';')?;
    let taken = if declaring.is_var {
        length_of(Some(declaring.token))
    } else {
        0
    };
    Ok(Some(Mending {
        place: declaring.token.start,
        taken,
        put,
        elsewhere,
        told: Told::Put(told),
    }))
}

/// The type of the variable at the place, by the word before it, or by how it stands in the text.
fn type_of(site: &Site<'_, '_>) -> &'static [u8] {
    let word = site.word_of(site.last());
    let is_boolean = is_same_in_any_case(word, b"BOOL") || is_same_in_any_case(word, b"BOOLEAN");
    if is_boolean || is_truth(site) {
        b"BOOLEAN"
    } else {
        b"INTEGER"
    }
}

/// The mending of `let x := 1`, of `int x;`, and of what else declares a variable in a body: without the word, or the whole where no value
/// stands in it, and with a declaration, where there is none.
pub fn local_mending(alloc: Global, site: &Site<'_, '_>) -> Result<Option<Mending>, AllocError> {
    let (Some(word), Some(place), Some(next)) = (
        site.last(),
        declaring_at(site.before),
        site.next(),
    ) else {
        return Ok(None);
    };
    let is_typed = begins_with(site, word, LOCAL_TYPES);
    let is_alone = next.kind == Kind::Semicolon && is_typed;
    let is_value = begins_value_of(site, word, next.kind)
        && (is_typed || begins_with(site, word, LOCALS));
    if !is_in_body(site.before) || !is_kind(site.here(), Kind::Ident) || !is_alone && !is_value {
        return Ok(None);
    }
    let end = if is_alone { next.start } else { word.end };
    if declares(site.text, site.tokens, site.word()) {
        let fix = if is_alone { DECLARATION } else { WORD_BEFORE };
        return without(alloc, site, word.start, end, fix);
    }
    let left = Elsewhere::Moved(word.start, end.saturating_sub(word.start));
    let told = if is_alone {
        " among the declarations, and this one left out"
    } else {
        " among the declarations, and the word before it left out"
    };
    declared_there(alloc, site, place, left, told)
}

/// Whether a value of a variable stands behind this token; behind a `=` it may be that of a constant, if CONST stands before the name.
fn begins_value_of(site: &Site<'_, '_>, word: Token, kind: Kind) -> bool {
    match kind {
        Kind::Assign => true,
        Kind::Equal => !is_same_in_any_case(site.word_of(Some(word)), b"CONST"),
        _ => false,
    }
}

/// The mending of VAR in a body, with the variables behind it: they stand among the declarations.
pub fn late_mending(alloc: Global, site: &Site<'_, '_>) -> Result<Option<Mending>, AllocError> {
    let (Some(var), Some(declaring), Some(end)) = (
        site.here(),
        declaring_at(site.before),
        declared_end(site.behind),
    ) else {
        return Ok(None);
    };
    if var.kind != Kind::Var || !is_in_body(site.before) {
        return Ok(None);
    }
    let begin = if declaring.is_var { var.end } else { var.start };
    let mut put = Vec::from_slice(alloc, b" ")?;
    put.extend_from_slice(&in_one_line(alloc, between(site.text, begin, end))?)?;
    put.push(b' ')?;
    let (place, told) = if declaring.is_var {
        (
            declaring.token.end,
            "with what it declares put behind the VAR of line ",
        )
    } else {
        (declaring.token.start, "with this section put before line ")
    };
    Ok(Some(Mending {
        place,
        taken: 0,
        put,
        elsewhere: Elsewhere::Moved(var.start, end.saturating_sub(var.start)),
        told: Told::Line(told, ""),
    }))
}

/// Where the last declaration of variables ends that begins with these tokens.
fn declared_end(tokens: &[Token]) -> Option<usize> {
    let mut end = None;
    let mut inside: usize = 0;
    let mut is_name = false;
    let mut is_open = false;
    for token in tokens {
        match token.kind {
            Kind::Record if is_open => inside = inside.saturating_add(1),
            Kind::End if inside > 0 => inside = inside.saturating_sub(1),
            Kind::Semicolon if is_open && inside == 0 => {
                is_open = false;
                end = Some(token.end);
            }
            _ if is_open => {}
            Kind::Colon | Kind::Comma if is_name => {
                is_name = false;
                is_open = true;
            }
            Kind::Ident if !is_name => is_name = true,
            _ => return end,
        }
    }
    end
}

/// Words of other languages for values that are none.
const VALUES: &[&[u8]] = &[b"NONE", b"NULL", b"NIL", b"TRUE", b"FALSE", b"UNDEFINED"];

/// Whether the name at the place is one of a variable without parts, by what stands around it.
fn is_variable_meant(site: &Site<'_, '_>) -> bool {
    let next = kind_or_name(site.next());
    let last = kind_or_name(site.last());
    is_in_body(site.before)
        && !site.word().is_empty()
        && !is_one_of(VALUES, site.word())
        && !matches!(next, Kind::LeftParen | Kind::LeftBracket | Kind::Dot)
        && last != Kind::Dot
        && !is_field(site)
        && (next == Kind::Assign || !leads_to_statement(last))
}

/// Whether a record has a field of the name at the place: then that may be meant.
fn is_field(site: &Site<'_, '_>) -> bool {
    let mut inside: usize = 0;
    for token in site.tokens {
        match token.kind {
            Kind::Record => inside = inside.saturating_add(1),
            Kind::End => inside = inside.saturating_sub(1),
            _ if inside > 0 && site.word_of(Some(*token)) == site.word() => return true,
            _ => {}
        }
    }
    false
}

/// Where variables of the body are declared at whose end these tokens stand, which go back from there.
fn declaring_at(tokens: &[Token]) -> Option<Declaring> {
    let mut inside: usize = 0;
    let mut before = None;
    for token in tokens {
        let kind = token.kind;
        if matches!(kind, Kind::End | Kind::RightParen) {
            inside = inside.saturating_add(1);
        } else if inside > 0 {
            inside = inside.saturating_sub(opened(kind));
            if inside == 0 && kind == Kind::Procedure {
                before = Some(*token);
            }
        } else if kind == Kind::Begin {
            before = Some(*token);
        } else if kind == Kind::Var {
            return Some(Declaring {
                token: *token,
                is_var: true,
            });
        } else if matches!(kind, Kind::Procedure | Kind::Module) {
            return Some(Declaring {
                token: before?,
                is_var: false,
            });
        }
    }
    None
}

/// Where the body around the place begins, and the next procedure behind it.
fn body_around(site: &Site<'_, '_>) -> (usize, usize) {
    let begin = match first_of(site.before, &[Kind::Begin]) {
        Some(begin) => begin.start,
        None => 0,
    };
    let end = match first_of(site.behind, &[Kind::Procedure]) {
        Some(procedure) => procedure.start,
        None => site.text.len(),
    };
    (begin, end)
}

/// Whether the name at the place stands somewhere in the body as a condition, or is assigned one.
fn is_truth(site: &Site<'_, '_>) -> bool {
    let mut passed = Passed {
        before: Kind::Module,
        last: Kind::Module,
        is_name: false,
        is_assigned: false,
    };
    let (begin, end) = body_around(site);
    for token in site.tokens {
        if token.start < begin || end <= token.start {
            continue;
        }
        if passed.tells_condition(site, *token) {
            return true;
        }
        passed = passed.behind(site, *token);
    }
    false
}

/// What was passed of a text: the last two tokens, whether the last one is the name at the place, and whether a value is assigned to that name.
#[derive(Clone, Copy)]
struct Passed {
    before: Kind,
    last: Kind,
    is_name: bool,
    is_assigned: bool,
}

impl Passed {
    /// Whether the name is a condition, as the next token tells.
    fn tells_condition(&self, site: &Site<'_, '_>, token: Token) -> bool {
        if self.is_assigned && tells_truth(site, token) {
            return true;
        }
        match token.kind {
            Kind::Then | Kind::Do | Kind::And | Kind::Or => self.is_name
                && begins_condition(self.before),
            Kind::Assign => false,
            _ => self.is_name
                && matches!(self.before, Kind::Not | Kind::Until)
                && !goes_on(token.kind),
        }
    }

    /// The same behind the next token.
    fn behind(&self, site: &Site<'_, '_>, token: Token) -> Passed {
        Passed {
            before: self.last,
            last: token.kind,
            is_name: site.word_of(Some(token)) == site.word(),
            is_assigned: token.kind == Kind::Assign && self.is_name
                || self.is_assigned && !ends_statement(token.kind),
        }
    }
}

/// Whether an operand goes on with a token, or is compared.
fn goes_on(kind: Kind) -> bool {
    is_relation(kind)
        || matches!(
            kind,
            Kind::Plus
                | Kind::Minus
                | Kind::Times
                | Kind::Div
                | Kind::Mod
                | Kind::LeftBracket
                | Kind::Dot
        )
}

/// Whether a token shows that what it stands in is a condition.
fn tells_truth(site: &Site<'_, '_>, token: Token) -> bool {
    let word = site.word_of(Some(token));
    is_relation(token.kind)
        || matches!(token.kind, Kind::Not | Kind::And | Kind::Or)
        || is_same(word, b"TRUE")
        || is_same(word, b"FALSE")
}

/// Whether a condition, or a part of one, begins behind a token.
fn begins_condition(kind: Kind) -> bool {
    matches!(
        kind,
        Kind::If | Kind::Elsif | Kind::While | Kind::And | Kind::Or | Kind::Not
    )
}

/// Whether a statement ends before a token.
fn ends_statement(kind: Kind) -> bool {
    matches!(
        kind,
        Kind::Semicolon | Kind::End | Kind::Else | Kind::Elsif | Kind::Until
    )
}

/// The mending of `VAR i := 0`: a type for the value.
pub fn initial_mending(alloc: Global, site: &Site<'_, '_>) -> Result<Option<Mending>, AllocError> {
    let section = first_of(
        site.before,
        &[Kind::Const, Kind::Type, Kind::Var, Kind::Procedure],
    );
    let is_value = matches!(kind_or_name(site.here()), Kind::Assign | Kind::Equal)
        && begins_value(site)
        && is_kind(site.last(), Kind::Ident)
        && (is_kind(site.second(), Kind::Var)
            || !declares(site.text, site.tokens, site.word_of(site.last())))
        && matches!(
            kind_or_name(site.second()),
            Kind::Var | Kind::Semicolon | Kind::Comma
        );
    match first_of(site.behind, &[Kind::Semicolon]) {
        Some(end)
            if is_value
                && is_kind(section, Kind::Var)
                && !is_in_body(site.before)
                && !is_in_parens(site.before) => {
            let value = site.word_of(site.next());
            let is_truth = is_same(value, b"TRUE") || is_same(value, b"FALSE");
            let put: &[u8] = if is_truth { b": BOOLEAN" } else { b": INTEGER" };
            let taken = end.start.saturating_sub(site.place);
            if between(site.text, site.place, end.start).contains(&b'\n') {
                return Ok(None);
            }
            worded(alloc, site.place, taken, put, " in its place")
        }
        _ => Ok(None),
    }
}

/// Whether a value begins behind the place.
fn begins_value(site: &Site<'_, '_>) -> bool {
    let word = site.word_of(site.next());
    is_same(word, b"TRUE")
        || is_same(word, b"FALSE")
        || matches!(
            kind_or_name(site.next()),
            Kind::Number | Kind::Plus | Kind::Minus | Kind::Not | Kind::LeftParen
        )
}

/// The mending of `TYPE T = (a, b)`: constants for the names, where the TYPE stands right before it, and INTEGER.
pub fn listed_mending(alloc: Global, site: &Site<'_, '_>) -> Result<Option<Mending>, AllocError> {
    let (Some(open), Some(close)) = (site.here(), first_of(site.behind, &[Kind::RightParen])) else {
        return Ok(None);
    };
    let name = site.second();
    let is_type = is_kind(site.last(), Kind::Equal)
        || is_kind(site.last(), Kind::Colon) && !is_in_parens(site.before);
    if open.kind != Kind::LeftParen
        || !is_type
        || is_in_body(site.before)
        || !is_kind(name, Kind::Ident)
    {
        return Ok(None);
    }
    let section = first_of(site.before, &[Kind::Const, Kind::Type, Kind::Var]);
    let first = match section {
        Some(section) => next_behind(site.tokens, section.start),
        None => None,
    };
    match (section, name, first) {
        (Some(section), Some(name), Some(first))
            if section.kind == Kind::Type && first.start == name.start => {
            let put = listed(alloc, site, section, close)?;
            let taken = close.end.saturating_sub(section.start);
            worded(alloc, section.start, taken, &put, " in its place")
        }
        _ => {
            let taken = close.end.saturating_sub(open.start);
            fixed(alloc, open.start, taken, INTEGER)
        }
    }
}

/// The constants that are listed from the place up to the `)`, and their type as an INTEGER.
fn listed(
    alloc: Global,
    site: &Site<'_, '_>,
    section: Token,
    close: Token,
) -> Result<Vec<u8>, AllocError> {
    let mut put = Vec::new(alloc);
    if !is_kind(section_before(site, section), Kind::Const) {
        put.extend_from_slice(b"CONST ")?;
    }
    let mut number: usize = 0;
    for token in site.behind {
        if token.kind == Kind::Ident && token.start < close.start {
            let mut buffer = Buffer::new();
            put.extend_from_slice(site.word_of(Some(*token)))?;
            put.extend_from_slice(b" = ")?;
            put.extend_from_slice(buffer.format(number).as_bytes())?;
            put.extend_from_slice(b"; ")?;
            number = number.saturating_add(1);
        }
    }
    put.extend_from_slice(b"TYPE ")?;
    put.extend_from_slice(site.word_of(site.second()))?;
    put.extend_from_slice(b" = INTEGER")?;
    Ok(put)
}

/// The section, the heading or the END before a section.
fn section_before(site: &Site<'_, '_>, section: Token) -> Option<Token> {
    for token in site.before {
        if token.start < section.start
            && matches!(
                token.kind,
                Kind::Const | Kind::Type | Kind::Var | Kind::Procedure | Kind::Module | Kind::End
            )
        {
            return Some(*token);
        }
    }
    None
}

/// The mending of a parameter without VAR whose type is an array or a record: with VAR, and where its procedure is an export without the `*`,
/// since an export has none of these.
pub fn parameter_mending(
    alloc: Global,
    site: &Site<'_, '_>,
) -> Result<Option<Mending>, AllocError> {
    let Some(first) = first_parameter(site) else {
        return Ok(None);
    };
    let star = match heading_name(site) {
        Some(name) => next_behind(site.tokens, name.start),
        None => None,
    };
    match star {
        Some(star) if star.kind == Kind::Times => Ok(Some(Mending {
            place: first.start,
            taken: 0,
            put: Vec::from_slice(alloc, b"VAR ")?,
            elsewhere: Elsewhere::Moved(star.start, length_of(Some(star))),
            told: Told::Words("with VAR before the parameter and no * behind the procedure's name"),
        })),
        _ => fixed(alloc, first.start, 0, VAR_PARAMETER),
    }
}

/// The first name of the parameters whose type stands at the place.
fn first_parameter(site: &Site<'_, '_>) -> Option<Token> {
    if !is_kind(site.last(), Kind::Colon) || !is_in_parens(site.before) || is_in_body(site.before) {
        return None;
    }
    let leader = first_of(site.before, &[Kind::LeftParen, Kind::Semicolon])?;
    let first = next_behind(site.tokens, leader.start)?;
    match last_before(site.before, first.start) {
        Some(_) if first.kind == Kind::Ident => Some(first),
        _ => None,
    }
}
