//! Types as they stand in the declarations of a text.

ghost use Rattle.std.specs.Prelude.{◌≡◌, IfOk, find};
ghost use Rattle.std.specs.List.{fold};
ghost use Rattle.ob_explain_parts.specs.Types.{declared_type, element_of, field_of, fields_of, followed, is_name_of, is_of_token, is_type, is_word};
ghost use Rattle.ob_explain_parts.specs.Types.{meant, named_type, second_of, type_from, type_behind};

use crate::fields::fields_behind;
use ob_explain_names::declarations::{behind_token, is_named, type_token};
use ob_explain_names::known::{Known, Sort};
use ob_explain_names::lookup::name_at;
use ob_explain_sentences::first_word::is_same;
use ob_explain_tokens::around::tokens_behind;
use ob_explain_tokens::operand_tokens::{is_array, is_of, is_record};
use ob_scan::Token;
use std::alloc::{AllocError, Global};

/// A type as it stands in a declaration: the place of the name that is declared there, and the first token of the type.
#[derive(Clone, Copy)]
pub struct Standing {
    pub place: usize,
    pub first: Token,
}

/// The type of a variable or a parameter that is declared at a place.
pub fn declared_type(
    alloc: Global,
    tokens: &[Token],
    place: usize,
) -> Result<Option<Standing>, AllocError>
    ensures { IfOk result (λ type. type ≡ declared_type tokens.now place) }
{
    let first = type_token(alloc, tokens, place)?;
    Ok(type_from(place, first))
}

/// The type that begins with a token, of what is declared at a place.
fn type_from(place: usize, first: Option<Token>) -> Option<Standing>
    ensures { result ≡ type_from place first }
{
    match first {
        Some(first) => Some(Standing { place, first }),
        None => None,
    }
}

/// The type for which a type stands where these names are visible: names of types lead on to their declarations.
#[tactic(auto, unfolding(crate::specs::Types::meant))]
pub fn meant(
    alloc: Global,
    text: &[u8],
    known: &[Known],
    tokens: &[Token],
    type_there: Standing,
) -> Result<Standing, AllocError>
    ensures { IfOk result (λ type. type ≡ meant text.now known.now tokens.now type_there) }
{
    let last_first: Vec<Known> = known.iter().rev().copied().collect(alloc)?;
    followed_by(alloc, text, tokens, type_there, &last_first)
}

/// A type that leads on by the names of types among these, one after the other.
fn followed_by(
    alloc: Global,
    text: &[u8],
    tokens: &[Token],
    type_there: Standing,
    names: &[Known],
) -> Result<Standing, AllocError>
    ensures { IfOk result (λ type. type ≡ fold (followed text.now tokens.now) type_there names.now) }
{
    let mut found = type_there;
    for name in names {
        found = followed(alloc, text, tokens, found, *name)?;
    }
    Ok(found)
}

/// A type, or where it is this name of one, what that stands for.
fn followed(
    alloc: Global,
    text: &[u8],
    tokens: &[Token],
    type_there: Standing,
    name: Known,
) -> Result<Standing, AllocError>
    ensures { IfOk result (λ type. type ≡ followed text.now tokens.now type_there name) }
{
    if is_name_of(text, type_there, name) {
        let declared = named_type(alloc, tokens, name.place)?;
        Ok(declared.unwrap_or(type_there))
    } else {
        Ok(type_there)
    }
}

/// Whether a type is this name of one, which is declared before what has the type.
fn is_name_of(text: &[u8], type_there: Standing, name: Known) -> bool
    ensures { result ≡ is_name_of text.now type_there name }
{
    (is_type(name.sort) && name.place < type_there.place)
        && is_named(text, name_at(text, type_there.first.start), name)
}

fn is_type(sort: Sort) -> bool
    ensures { result ≡ is_type sort }
{
    matches!(sort, Sort::TypeName)
}

/// What the name of a type that is declared at a place stands for.
fn named_type(alloc: Global, tokens: &[Token], place: usize) -> Result<Option<Standing>, AllocError>
    ensures { IfOk result (λ type. type ≡ named_type tokens.now place) }
{
    let behind = tokens_behind(alloc, tokens, place)?;
    Ok(type_from(place, second_of(&behind)))
}

fn second_of(tokens: &[Token]) -> Option<Token>
    ensures { result ≡ second_of tokens.now }
{
    match tokens {
        [_, second, ..] => Some(*second),
        _ => None,
    }
}

/// The type of the elements of an array.
pub fn element_of(
    alloc: Global,
    tokens: &[Token],
    array: Standing,
) -> Result<Option<Standing>, AllocError>
    ensures { IfOk result (λ type. type ≡ element_of tokens.now array) }
{
    if !is_array(array.first.kind) {
        return Ok(None);
    }
    let behind = tokens_behind(alloc, tokens, array.first.start)?;
    let first = behind_token(alloc, tokens, first_of_token(&behind))?;
    Ok(type_from(array.place, first))
}

/// The first OF of tokens.
fn first_of_token(tokens: &[Token]) -> Option<Token>
    ensures { result ≡ find is_of_token tokens.now }
{
    tokens.iter().copied().find(|token| is_of(token.kind))
}

/// The type of the field of a record that a word is.
pub fn field_of(
    alloc: Global,
    text: &[u8],
    tokens: &[Token],
    whole: Standing,
    word: &[u8],
) -> Result<Option<Standing>, AllocError>
    ensures { IfOk result (λ type. type ≡ field_of text.now tokens.now whole word.now) }
{
    let fields = fields_of(alloc, tokens, whole)?;
    let first = type_behind(alloc, tokens, first_named(text, word, &fields))?;
    Ok(type_from(whole.place, first))
}

/// The names of the fields of a record.
pub fn fields_of(alloc: Global, tokens: &[Token], whole: Standing) -> Result<Vec<Token>, AllocError>
    ensures { IfOk result (λ fields. fields.items ≡ fields_of tokens.now whole) }
{
    if is_record(whole.first.kind) {
        let behind = tokens_behind(alloc, tokens, whole.first.start)?;
        fields_behind(alloc, &behind)
    } else {
        Ok(Vec::new(alloc))
    }
}

/// The first of tokens that a word is.
fn first_named(text: &[u8], word: &[u8], tokens: &[Token]) -> Option<Token>
    ensures { result ≡ find (is_word text.now word.now) tokens.now }
{
    tokens
        .iter()
        .copied()
        .find(|token| is_word(text, word, *token))
}

fn is_word(text: &[u8], word: &[u8], token: Token) -> bool
    ensures { result ≡ is_word text.now word.now token }
{
    is_same(name_at(text, token.start), word)
}

/// The token with which the type of a field begins.
fn type_behind(
    alloc: Global,
    tokens: &[Token],
    name: Option<Token>,
) -> Result<Option<Token>, AllocError>
    ensures { IfOk result (λ t. t ≡ type_behind tokens.now name) }
{
    match name {
        Some(token) => type_token(alloc, tokens, token.start),
        None => Ok(None),
    }
}
