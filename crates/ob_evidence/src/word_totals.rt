//! Words of types and of variables, where they are more than there may be.

ghost use Rattle.std.specs.Prelude.{◌≡◌, IfOk};
ghost use Rattle.ob_evidence.specs.Sites.{scene_of};
ghost use Rattle.ob_evidence.specs.Words.{are_told, beyond, is_counted, is_in_procedure, is_procedure_kind, is_type_there, most_words, told_words, words_there};

use crate::text_site::{Site, is_kind};
use ob_explain_tokens::parens::is_in_parens;
use ob_explain_words::declared_words::{words_of_type, words_with};
use ob_scan::Kind;
use std::alloc::{AllocError, Global};

/// The most words of a type.
const LARGEST_TYPE: usize = 4096;

/// The words of the type at the place, or of the variables of its scope up to the one at the place, where they are too many.
pub fn words_there(alloc: Global, site: &Site<'_, '_>) -> Result<Option<usize>, AllocError>
    ensures { IfOk result (λ words. words ≡ words_there (scene_of site.now)) }
{
    if is_type_there(site) {
        let words = words_of_type(alloc, site.text, site.tokens, site.known, site.place)?;
        Ok(beyond(LARGEST_TYPE, words))
    } else if is_counted(site) {
        let words = words_with(alloc, site.text, site.tokens, site.known, site.place)?;
        Ok(beyond(most_words(is_in_procedure(site)), words))
    } else {
        Ok(None)
    }
}

/// Whether a type stands at the place.
fn is_type_there(site: &Site<'_, '_>) -> bool
    ensures { result ≡ is_type_there (scene_of site.now) }
{
    is_kind(site.here(), Kind::Array) || is_kind(site.here(), Kind::Record)
}

/// Whether the words of variables are counted there: no type stands there, no name of a procedure and no parameter.
pub fn is_counted(site: &Site<'_, '_>) -> bool
    ensures { result ≡ is_counted (scene_of site.now) }
{
    !is_type_there(site) && (!is_kind(site.last(), Kind::Procedure) && !is_in_parens(site.before))
}

/// Whether a PROCEDURE stands before the place.
pub fn is_in_procedure(site: &Site<'_, '_>) -> bool
    ensures { result ≡ is_in_procedure (scene_of site.now) }
{
    site.before
        .iter()
        .any(|token| is_procedure_kind(token.kind))
}

fn is_procedure_kind(kind: Kind) -> bool
    ensures { result ≡ is_procedure_kind kind }
{
    matches!(kind, Kind::Procedure)
}

/// The most words of the variables of a procedure or of the module.
fn most_words(in_procedure: bool) -> usize
    ensures { result ≡ most_words in_procedure }
{
    if in_procedure { 1024 } else { 4096 }
}

/// A count, where it is more than there may be.
fn beyond(most: usize, words: Option<usize>) -> Option<usize>
    ensures { result ≡ beyond most words }
{
    match words {
        Some(words) if most < words => Some(words),
        _ => None,
    }
}

/// Whether a count is told.
pub fn are_told(words: Option<usize>) -> bool
    ensures { result ≡ are_told words }
{
    match words {
        Some(_) => true,
        None => false,
    }
}

/// A count; 0 where none is told.
pub fn told_words(words: Option<usize>) -> usize
    ensures { result ≡ told_words words }
{
    match words {
        Some(words) => words,
        None => 0,
    }
}
