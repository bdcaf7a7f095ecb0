//! The declarations of names, by the tokens of a text and the names that are visible at a place.

ghost use Rattle.std.specs.Prelude.{◌≡◌, IfOk, find};
ghost use Rattle.ob_explain_names.specs.Declarations.{behind_token, declared_as, first_of, is_colon_token, is_named, is_there, token_bytes};
ghost use Rattle.ob_explain_names.specs.Declarations.{type_token};

use crate::known::Known;
use crate::lookup::name_at;
use ob_explain_sentences::first_word::is_same;
use ob_explain_tokens::around::tokens_behind;
use ob_explain_tokens::operand_tokens::is_colon;
use ob_scan::Token;
use std::alloc::{AllocError, Global};

/// The bytes of a token of a text.
pub fn token_bytes(text: &[u8], token: Token) -> &[u8]
    ensures { result.now ≡ token_bytes text.now token }
{
    let (_, from) = text.split_at(token.start.min(text.len()));
    let length = token.end.saturating_sub(token.start);
    from.split_at(length.min(from.len())).0
}

/// The last of the names of a text that are visible which a word is.
#[tactic(auto, unfolding(crate::specs::Declarations::declared_as))]
pub fn declared_as(text: &[u8], known: &[Known], word: &[u8]) -> Option<Known>
    ensures { result ≡ declared_as text.now known.now word.now }
{
    known
        .iter()
        .rev()
        .copied()
        .find(|name| is_named(text, word, *name))
}

/// Whether a word is this one of the names of a text.
pub fn is_named(text: &[u8], word: &[u8], name: Known) -> bool
    ensures { result ≡ is_named text.now word.now name }
{
    is_same(name_at(text, name.place), word)
}

/// Whether one of the names that are visible is a word.
pub fn is_declared(text: &[u8], known: &[Known], word: &[u8]) -> bool
    ensures { result ≡ is_there (declared_as text.now known.now word.now) }
{
    match declared_as(text, known, word) {
        Some(_) => true,
        None => false,
    }
}

/// The token with which the type of a variable or a parameter begins that is declared at a place.
#[tactic(auto, unfolding(crate::specs::Declarations::type_token))]
pub fn type_token(
    alloc: Global,
    tokens: &[Token],
    place: usize,
) -> Result<Option<Token>, AllocError>
    ensures { IfOk result (λ t. t ≡ type_token tokens.now place) }
{
    let behind = tokens_behind(alloc, tokens, place)?;
    behind_token(alloc, tokens, first_colon(&behind))
}

/// The first `:` of tokens.
fn first_colon(tokens: &[Token]) -> Option<Token>
    ensures { result ≡ find is_colon_token tokens.now }
{
    tokens.iter().copied().find(|token| is_colon(token.kind))
}

/// The token behind one.
pub fn behind_token(
    alloc: Global,
    tokens: &[Token],
    token: Option<Token>,
) -> Result<Option<Token>, AllocError>
    ensures { IfOk result (λ t. t ≡ behind_token tokens.now token) }
{
    match token {
        Some(token) => {
            let behind = tokens_behind(alloc, tokens, token.start)?;
            Ok(first_of(&behind))
        }
        None => Ok(None),
    }
}

/// The first of tokens.
pub fn first_of(tokens: &[Token]) -> Option<Token>
    ensures { result ≡ first_of tokens.now }
{
    tokens.first().copied()
}
