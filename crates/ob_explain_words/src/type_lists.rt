//! The words of types, and of lists of names with their types.

ghost use Rattle.std.specs.Prelude.{◌≡◌, ◌≤◌, ◌<◌, ◌+◌, ◌^◌, IfOk, drop, length};
ghost use Rattle.ob_explain_words.specs.Counts.{at_least_one, product_of};
ghost use Rattle.ob_explain_words.specs.Lengths.{length_behind};
ghost use Rattle.ob_explain_words.specs.Scopes.{scope_of};
ghost use Rattle.ob_explain_words.specs.Types.{begins_type, behind_name, behind_part, counted, ends_lists, list_words, names_of, reading_behind};
ghost use Rattle.ob_explain_words.specs.Types.{simple_words, size_of, type_words, with_list};

use crate::lengths::length_behind;
use crate::list_tokens::is_listed;
use crate::named_types::named_words;
use crate::scope::Scope;
use crate::word_counts::{at_least_one, product_of, sum_of};
use ob_explain_names::lookup::name_at;
use ob_explain_tokens::operand_tokens::{
    is_array, is_colon, is_end, is_name, is_record, is_semicolon,
};
use ob_scan::{Kind, Token};
use std::alloc::{AllocError, Global};

/// How many types may stand around a type whose words are told.
pub(crate) const DEEPEST: usize = 100;

/// Where tokens stand that list names with their types.
#[derive(Clone, Copy)]
pub(crate) enum Reading {
    /// Behind so many names of a list that are counted.
    Names(usize),
    /// Within the type of a list, in so many records of it.
    Within(usize),
}

/// The words of the type that tokens begin with, within which so many others may stand.
#[tactic(auto, using(crate::proofs::Types::no_type))]
#[cycle(types)]
pub(crate) fn type_words(
    alloc: Global,
    scope: Scope<'_>,
    deep: usize,
    tokens: &[Token],
) -> Result<Option<usize>, AllocError>
    ensures { IfOk result (λ words. words ≡ type_words (scope_of scope.entry) deep tokens.now) }
{
    let [first, rest @ ..] = tokens else {
        return Ok(None);
    };
    if deep == 0 {
        return Ok(simple_words(scope, *first));
    }
    if is_array(first.kind) {
        array_words(alloc, scope, deep - 1, rest)
    } else if is_record(first.kind) {
        let words = list_words(alloc, scope, deep - 1, scope.text.len(), rest)?;
        Ok(at_least_one(words))
    } else {
        Ok(simple_words(scope, *first))
    }
}

/// The words of an array, of the tokens behind ARRAY.
#[cycle(types)]
fn array_words(
    alloc: Global,
    scope: Scope<'_>,
    deep: usize,
    behind: &[Token],
) -> Result<Option<usize>, AllocError>
    ensures { IfOk result (λ words. words ≡ product_of (length_behind (scope_of scope.entry) behind.now) (type_words (scope_of scope.entry) deep (drop 2 behind.now))) }
{
    let length = length_behind(alloc, scope, behind)?;
    let (_, element) = behind.split_at(behind.len().min(2));
    let words = type_words(alloc, scope, deep, element)?;
    Ok(product_of(length, words))
}

/// The words of the names of lists up to a place, of the tokens that list them.
#[tactic(auto, using(crate::proofs::Lists::ends_there, crate::proofs::Lists::goes_on, crate::proofs::Lists::not_told, crate::proofs::Lists::none_left))]
#[cycle(types)]
pub(crate) fn list_words(
    alloc: Global,
    scope: Scope<'_>,
    deep: usize,
    last: usize,
    tokens: &[Token],
) -> Result<Option<usize>, AllocError>
    ensures { IfOk result (λ words. words ≡ list_words (type_words (scope_of scope.entry) deep) last 0 (Reading.Names 0) tokens.now) }
{
    let mut total = 0;
    let mut reading = Reading::Names(0);
    for (i, token) in tokens.iter().enumerate() {
        if ends_lists(reading, token.kind) {
            return Ok(Some(total));
        }
        let (_, behind) = tokens.split_at(i + 1);
        let Some(more) = with_list(alloc, scope, deep, total, reading, token.kind, behind)? else {
            return Ok(None);
        };
        total = more;
        reading = reading_behind(last, reading, *token);
    }
    Ok(None)
}

/// With the words of a list whose type begins behind a token of this kind.
#[cycle(types)]
fn with_list(
    alloc: Global,
    scope: Scope<'_>,
    deep: usize,
    total: usize,
    reading: Reading,
    kind: Kind,
    behind: &[Token],
) -> Result<Option<usize>, AllocError>
    ensures { IfOk result (λ words. words ≡ with_list (type_words (scope_of scope.entry) deep) total reading kind behind.now) }
{
    if !begins_type(reading, kind) {
        return Ok(Some(total));
    }
    let words = type_words(alloc, scope, deep, behind)?;
    Ok(sum_of(Some(total), product_of(Some(names_of(reading)), words)))
}

/// The words of a type that is a name.
fn simple_words(scope: Scope<'_>, token: Token) -> Option<usize>
    ensures { result ≡ simple_words (scope_of scope.entry) token }
{
    if is_name(token.kind) {
        named_words(scope.text, scope.types, name_at(scope.text, token.start))
    } else {
        None
    }
}

/// Whether nothing of the lists stands at a token.
fn ends_lists(reading: Reading, kind: Kind) -> bool
    ensures { result ≡ ends_lists reading kind }
{
    match reading {
        Reading::Names(_) => !is_listed(kind),
        Reading::Within(records) => records == 0 && is_end(kind),
    }
}

/// Whether the type of a list begins behind a token, of which some names are counted.
fn begins_type(reading: Reading, kind: Kind) -> bool
    ensures { result ≡ begins_type reading kind }
{
    match reading {
        Reading::Names(names) => is_colon(kind) && names != 0,
        Reading::Within(_) => false,
    }
}

/// The names of the list that are counted so far.
fn names_of(reading: Reading) -> usize
    ensures { result ≡ names_of reading }
{
    match reading {
        Reading::Names(names) => names,
        Reading::Within(_) => 0,
    }
}

/// Where the tokens behind one stand.
fn reading_behind(last: usize, reading: Reading, token: Token) -> Reading
    requires { size_of reading < 2 ^ 63 }
    ensures value { result ≡ reading_behind last reading token }
    ensures most { size_of result ≤ size_of reading + 1 }
{
    match reading {
        Reading::Names(names) => behind_name(last, names, token),
        Reading::Within(records) => behind_part(records, token),
    }
}

/// The same behind a token of a list outside of its type.
fn behind_name(last: usize, names: usize, token: Token) -> Reading
    requires { names < 2 ^ 63 }
    ensures value { result ≡ behind_name last names token }
    ensures most { size_of result ≤ names + 1 }
{
    if is_colon(token.kind) {
        Reading::Within(0)
    } else if is_semicolon(token.kind) {
        Reading::Names(0)
    } else {
        Reading::Names(names + counted(last, token))
    }
}

/// One for a name up to a place.
fn counted(last: usize, token: Token) -> usize
    ensures one { result ≡ counted last token }
    ensures most { result ≤ 1 }
{
    if is_name(token.kind) && token.start <= last {
        1
    } else {
        0
    }
}

/// The same behind a token of a type.
fn behind_part(records: usize, token: Token) -> Reading
    requires { records < 2 ^ 63 }
    ensures value { result ≡ behind_part records token }
    ensures most { size_of result ≤ records + 1 }
{
    if is_semicolon(token.kind) && records == 0 {
        Reading::Names(0)
    } else if is_record(token.kind) {
        Reading::Within(records + 1)
    } else if is_end(token.kind) {
        Reading::Within(records.saturating_sub(1))
    } else {
        Reading::Within(records)
    }
}
