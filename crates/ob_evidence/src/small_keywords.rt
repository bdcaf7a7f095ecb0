//! Keywords in small letters, and the first token of a statement.

ghost use Rattle.std.specs.Prelude.{◌≡◌, ◌↔◌, find, map, IfNone, IfOk, IfSome, IsTrue};
ghost use Rattle.std.specs.Char.{to_ascii_uppercase};
ghost use Rattle.ob_evidence.specs.Keywords.{IsKeyword, IsNew, TellsSmallKeyword, first_of_statement, leads_there, next_behind};
ghost use Rattle.ob_evidence.specs.Sites.{scene_of};

use crate::nearest_names::leads_to_statement;
use crate::text_site::{Site, is_kind};
use ob_explain_words::declaring::declares;
use ob_scan::keyword::keyword;
use ob_scan::{Kind, Token};
use std::alloc::{AllocError, Global};

/// The keyword that a token is in capitals, if it is a name that the text does not declare.
pub fn small_keyword(
    alloc: Global,
    site: &Site<'_, '_>,
    name: Token,
) -> Result<Option<Kind>, AllocError>
    ensures { IfOk result (TellsSmallKeyword (scene_of site.now) name) }
{
    if !is_new(site, name) {
        return Ok(None);
    }
    let capitals = capitals(alloc, site.word_of(Some(name)))?;
    Ok(keyword_of(&capitals))
}

/// Whether a token is a name that the text does not declare.
pub(crate) fn is_new(site: &Site<'_, '_>, name: Token) -> bool
    ensures { IsTrue result ↔ IsNew (scene_of site.now) name }
{
    is_kind(Some(name), Kind::Ident) && !declares(site.text, site.tokens, site.word_of(Some(name)))
}

/// The keyword that a word is.
fn keyword_of(word: &[u8]) -> Option<Kind>
    ensures is { IfSome result (IsKeyword word.now) }
    ensures none { IfNone result ((kind : Kind) → IsKeyword word.now kind → ⊥) }
{
    match word.first() {
        Some(first) if first.is_ascii_alphabetic() => keyword(word),
        _ => None,
    }
}

/// A word in capitals.
pub fn capitals(alloc: Global, word: &[u8]) -> Result<Vec<u8>, AllocError>
    ensures { IfOk result (λ whole. whole.items ≡ map to_ascii_uppercase word.now) }
{
    let mut whole = Vec::new(alloc);
    for byte in word {
        whole.push(byte.to_ascii_uppercase())?;
    }
    Ok(whole)
}

/// The first token of the statement in which the place stands.
pub fn first_of_statement(site: &Site<'_, '_>) -> Option<Token>
    ensures { result ≡ first_of_statement (scene_of site.now) }
{
    match leader(site.before) {
        Some(leader) => next_behind(site.tokens, leader.start),
        None => None,
    }
}

/// The first of these tokens behind which a statement may begin.
fn leader(tokens: &[Token]) -> Option<Token>
    ensures { result ≡ find leads_there tokens.now }
{
    tokens
        .iter()
        .copied()
        .find(|token| leads_to_statement(token.kind))
}

/// The first token behind a place.
pub fn next_behind(tokens: &[Token], place: usize) -> Option<Token>
    ensures { result ≡ next_behind tokens.now place }
{
    tokens.iter().copied().find(|token| place < token.start)
}
