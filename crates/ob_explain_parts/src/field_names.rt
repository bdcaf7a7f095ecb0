//! The fields of the record of which a place selects one.

ghost use Rattle.std.specs.Prelude.{◌≡◌, ◌++◌, IfOk, OnOk};
ghost use Rattle.ob_explain_parts.specs.FieldNames.{behind_comma, between, fields_at, fields_by, fields_from, fields_of_name, fields_of_part, further};
ghost use Rattle.ob_explain_parts.specs.FieldNames.{listed, listed_fields};

use crate::declared_types::{Standing, declared_type, fields_of, meant};
use crate::variable_parts::{operand_start, selected};
use ob_explain_names::declarations::declared_as;
use ob_explain_names::known::{Known, Sort};
use ob_explain_names::lookup::name_at;
use ob_explain_tokens::around::{tokens_before, tokens_behind};
use ob_scan::Token;
use std::alloc::{AllocError, Global};

/// The names of the fields of the record behind whose dot a place stands.
pub fn fields_at(
    alloc: Global,
    text: &[u8],
    known: &[Known],
    tokens: &[Token],
    place: usize,
) -> Result<Vec<Token>, AllocError>
    ensures { IfOk result (λ fields. fields.items ≡ fields_at text.now known.now tokens.now place) }
{
    let before = tokens_before(alloc, tokens, place)?;
    let (_, variable) = before.split_at(before.len().min(1));
    fields_from(alloc, text, known, tokens, operand_start(variable), place)
}

/// Of the record to which selectors before a place lead from a token on.
fn fields_from(
    alloc: Global,
    text: &[u8],
    known: &[Known],
    tokens: &[Token],
    first: Option<Token>,
    place: usize,
) -> Result<Vec<Token>, AllocError>
    ensures { IfOk result (λ fields. fields.items ≡ fields_from text.now known.now tokens.now first place) }
{
    match first {
        Some(first) => {
            let name = declared_as(text, known, name_at(text, first.start));
            fields_of_name(alloc, text, known, tokens, name, first.start, place)
        }
        None => Ok(Vec::new(alloc)),
    }
}

/// The same where this name is used at a place.
fn fields_of_name(
    alloc: Global,
    text: &[u8],
    known: &[Known],
    tokens: &[Token],
    name: Option<Known>,
    used: usize,
    place: usize,
) -> Result<Vec<Token>, AllocError>
    ensures { IfOk result (λ fields. fields.items ≡ fields_of_name text.now known.now tokens.now name used place) }
{
    match name {
        Some(name) => fields_by(
            alloc, name.sort, text, known, tokens, name.place, used, place,
        ),
        None => Ok(Vec::new(alloc)),
    }
}

/// The same of a name that is declared as this at a place.
fn fields_by(
    alloc: Global,
    sort: Sort,
    text: &[u8],
    known: &[Known],
    tokens: &[Token],
    declared: usize,
    used: usize,
    place: usize,
) -> Result<Vec<Token>, AllocError>
    ensures { IfOk result (λ fields. fields.items ≡ fields_by sort text.now known.now tokens.now declared used place) }
{
    match sort {
        Sort::Variable => {
            let whole = declared_type(alloc, tokens, declared)?;
            let selectors = between(alloc, tokens, used, place)?;
            let record = selected(alloc, text, known, tokens, whole, &selectors)?;
            fields_of_part(alloc, text, known, tokens, record.part)
        }
        _ => Ok(Vec::new(alloc)),
    }
}

/// The fields of a record of this type.
fn fields_of_part(
    alloc: Global,
    text: &[u8],
    known: &[Known],
    tokens: &[Token],
    part: Option<Standing>,
) -> Result<Vec<Token>, AllocError>
    ensures { IfOk result (λ fields. fields.items ≡ fields_of_part text.now known.now tokens.now part) }
{
    match part {
        Some(part) => {
            let whole = meant(alloc, text, known, tokens, part)?;
            fields_of(alloc, tokens, whole)
        }
        None => Ok(Vec::new(alloc)),
    }
}

/// The tokens behind a name, up to a place.
fn between(
    alloc: Global,
    tokens: &[Token],
    used: usize,
    place: usize,
) -> Result<Vec<Token>, AllocError>
    ensures { IfOk result (λ some. some.items ≡ between tokens.now used place) }
{
    let behind = tokens_behind(alloc, tokens, used)?;
    behind
        .iter()
        .copied()
        .filter(|token| token.start < place)
        .collect(alloc)
}

/// The names of these fields, of six of them at most, with commas between them.
pub fn listed_fields(alloc: Global, text: &[u8], fields: &[Token]) -> Result<Vec<u8>, AllocError>
    ensures { IfOk result (λ names. names.items ≡ listed_fields text.now fields.now) }
{
    let most: usize = 6;
    listed(alloc, text, fields.split_at(most.min(fields.len())).0)
}

/// The names of all of these, with commas between them.
fn listed(alloc: Global, text: &[u8], fields: &[Token]) -> Result<Vec<u8>, AllocError>
    ensures { IfOk result (λ names. names.items ≡ listed text.now fields.now) }
{
    match fields {
        [] => Ok(Vec::new(alloc)),
        [first, rest @ ..] => {
            let mut names = Vec::from_slice(alloc, name_at(text, first.start))?;
            push_further(&mut names, text, rest)?;
            Ok(names)
        }
    }
}

/// Appends the names of further fields.
fn push_further(names: &mut Vec<u8>, text: &[u8], fields: &[Token]) -> Result<(), AllocError>
    ensures { OnOk result (names.new.items ≡ names.old.items ++ further text.now fields.now) }
{
    for field in fields {
        push_behind_comma(names, text, *field)?;
    }
    Ok(())
}

/// Appends a comma and the name of a field.
fn push_behind_comma(names: &mut Vec<u8>, text: &[u8], field: Token) -> Result<(), AllocError>
    ensures { OnOk result (names.new.items ≡ names.old.items ++ behind_comma text.now field) }
{
    names.extend_from_slice(b", ")?;
    names.extend_from_slice(name_at(text, field.start))?;
    Ok(())
}
