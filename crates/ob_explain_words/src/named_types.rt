//! The words of types that have a name.

ghost use Rattle.std.specs.Prelude.{◌≡◌, find, reverse};
ghost use Rattle.ob_explain_words.specs.Named.{is_named, named_words, own_words};

use ob_explain_names::lookup::name_at;
use ob_explain_sentences::first_word::is_same;

/// A type that is declared at a place, and its words, where they are told.
#[derive(Clone, Copy)]
pub(crate) struct NamedType {
    pub(crate) place: usize,
    pub(crate) words: Option<usize>,
}

/// The words of the type that a word is, where these types of a text are declared.
#[tactic(auto, unfolding(crate::specs::Named::named_words))]
pub(crate) fn named_words(text: &[u8], types: &[NamedType], word: &[u8]) -> Option<usize>
    ensures { result ≡ named_words text.now types.now word.now }
{
    match last_named(text, types, word) {
        Some(named) => named.words,
        None => own_words(word),
    }
}

/// The last of the types that a word is.
fn last_named(text: &[u8], types: &[NamedType], word: &[u8]) -> Option<NamedType>
    ensures { result ≡ find (is_named text.now word.now) (reverse types.now) }
{
    types
        .iter()
        .rev()
        .copied()
        .find(|named| is_named(text, word, *named))
}

fn is_named(text: &[u8], word: &[u8], named: NamedType) -> bool
    ensures { result ≡ is_named text.now word.now named }
{
    is_same(name_at(text, named.place), word)
}

/// The words of the language's own types.
fn own_words(word: &[u8]) -> Option<usize>
    ensures { result ≡ own_words word.now }
{
    if is_same(word, b"INTEGER") || is_same(word, b"BOOLEAN") {
        Some(1)
    } else {
        None
    }
}
