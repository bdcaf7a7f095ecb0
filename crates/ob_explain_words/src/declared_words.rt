//! The words of the type at a place, and those of the variables of a scope up to one.

ghost use Rattle.std.specs.Prelude.{◌≡◌, IfOk, OnOk, find, reverse};
ghost use Rattle.ob_explain_words.specs.Words.{behind_one, earlier, is_procedure, is_procedure_name, is_type, is_var_token, named_type};
ghost use Rattle.ob_explain_words.specs.Words.{parameters_by, parameters_of, types_of, variables_before, with_type, words_of_type, words_with};

use crate::list_tokens::is_var;
use crate::named_types::NamedType;
use crate::scope::Scope;
use crate::type_lists::{DEEPEST, list_words, type_words};
use crate::word_counts::sum_of;
use ob_explain_names::known::{Known, Sort};
use ob_explain_tokens::around::{tokens_before, tokens_behind};
use ob_scan::Token;
use std::alloc::{AllocError, Global};

/// The words of the type that begins at a place of a text with these tokens, before which these names are visible.
#[tactic(auto, unfolding(crate::specs::Words::words_of_type))]
pub fn words_of_type(
    alloc: Global,
    text: &[u8],
    tokens: &[Token],
    known: &[Known],
    place: usize,
) -> Result<Option<usize>, AllocError>
    ensures { IfOk result (λ words. words ≡ words_of_type text.now tokens.now known.now place) }
{
    let types = types_of(alloc, text, tokens, known)?;
    let from = tokens_behind(alloc, tokens, place.saturating_sub(1))?;
    let scope = Scope {
        text,
        tokens,
        known,
        types: &types,
    };
    type_words(alloc, scope, DEEPEST, &from)
}

/// The words of the variables of a scope up to the one at a place and with it, and of its parameters.
#[tactic(auto, unfolding(crate::specs::Words::words_with))]
pub fn words_with(
    alloc: Global,
    text: &[u8],
    tokens: &[Token],
    known: &[Known],
    place: usize,
) -> Result<Option<usize>, AllocError>
    ensures { IfOk result (λ words. words ≡ words_with text.now tokens.now known.now place) }
{
    let types = types_of(alloc, text, tokens, known)?;
    let listed = variables_before(alloc, tokens, place)?;
    let scope = Scope {
        text,
        tokens,
        known,
        types: &types,
    };
    let words = list_words(alloc, scope, DEEPEST, place, &listed)?;
    Ok(sum_of(Some(parameters_of(known)), words))
}

/// The types of names, in the order in which they are declared.
#[tactic(auto, unfolding(crate::specs::Words::types_of))]
fn types_of(
    alloc: Global,
    text: &[u8],
    tokens: &[Token],
    known: &[Known],
) -> Result<Vec<NamedType>, AllocError>
    ensures { IfOk result (λ types. types.items ≡ types_of text.now tokens.now known.now) }
{
    let mut types = Vec::new(alloc);
    for name in known {
        push_type(&mut types, alloc, text, tokens, known, *name)?;
    }
    Ok(types)
}

/// Appends a name, where it is a type.
#[tactic(auto, unfolding(crate::specs::Words::with_type))]
fn push_type(
    types: &mut Vec<NamedType>,
    alloc: Global,
    text: &[u8],
    tokens: &[Token],
    known: &[Known],
    name: Known,
) -> Result<(), AllocError>
    ensures { OnOk result (types.new.items ≡ with_type text.now tokens.now known.now types.old.items name) }
{
    if is_type(name.sort) {
        let named = named_type(alloc, text, tokens, known, types, name.place)?;
        types.push(named)?;
    }
    Ok(())
}

/// The type that is declared at a place, where these types stand before it.
fn named_type(
    alloc: Global,
    text: &[u8],
    tokens: &[Token],
    known: &[Known],
    types: &[NamedType],
    place: usize,
) -> Result<NamedType, AllocError>
    ensures { IfOk result (λ named. named ≡ named_type text.now tokens.now known.now types.now place) }
{
    let known = earlier(alloc, known, place)?;
    let behind = tokens_behind(alloc, tokens, place)?;
    let scope = Scope {
        text,
        tokens,
        known: &known,
        types,
    };
    let (_, of_type) = behind.split_at(behind.len().min(1));
    let words = type_words(alloc, scope, DEEPEST, of_type)?;
    Ok(NamedType { place, words })
}

/// The names that are declared before a place.
fn earlier(alloc: Global, known: &[Known], place: usize) -> Result<Vec<Known>, AllocError>
    ensures { IfOk result (λ some. some.items ≡ earlier place known.now) }
{
    known
        .iter()
        .copied()
        .filter(|name| name.place < place)
        .collect(alloc)
}

fn is_type(sort: Sort) -> bool
    ensures { result ≡ is_type sort }
{
    matches!(sort, Sort::TypeName)
}

/// The tokens that list the variables of the scope in whose variables a place stands.
fn variables_before(alloc: Global, tokens: &[Token], place: usize) -> Result<Vec<Token>, AllocError>
    ensures { IfOk result (λ some. some.items ≡ variables_before tokens.now place) }
{
    let before = tokens_before(alloc, tokens, place)?;
    behind_one(alloc, tokens, first_var(&before))
}

/// The first VAR of tokens.
fn first_var(tokens: &[Token]) -> Option<Token>
    ensures { result ≡ find is_var_token tokens.now }
{
    tokens.iter().copied().find(|token| is_var(token.kind))
}

/// The tokens behind one, where it is there.
fn behind_one(
    alloc: Global,
    tokens: &[Token],
    token: Option<Token>,
) -> Result<Vec<Token>, AllocError>
    ensures { IfOk result (λ some. some.items ≡ behind_one tokens.now token) }
{
    match token {
        Some(token) => tokens_behind(alloc, tokens, token.start),
        None => Ok(Vec::new(alloc)),
    }
}

/// The parameters of the last procedure of names.
fn parameters_of(known: &[Known]) -> usize
    ensures { result ≡ parameters_of known.now }
{
    match last_procedure(known) {
        Some(name) => parameters_by(name.sort),
        None => 0,
    }
}

/// The last procedure of names.
fn last_procedure(known: &[Known]) -> Option<Known>
    ensures { result ≡ find is_procedure_name (reverse known.now) }
{
    known
        .iter()
        .rev()
        .copied()
        .find(|name| is_procedure(name.sort))
}

fn is_procedure(sort: Sort) -> bool
    ensures { result ≡ is_procedure sort }
{
    matches!(sort, Sort::Procedure(_))
}

/// The parameters of a procedure.
fn parameters_by(sort: Sort) -> usize
    ensures { result ≡ parameters_by sort }
{
    match sort {
        Sort::Procedure(parameters) => parameters,
        _ => 0,
    }
}
