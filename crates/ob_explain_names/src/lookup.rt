//! What words are declared as.

ghost use Rattle.std.specs.Prelude.{◌≡◌};
ghost use Rattle.ob_explain_names.specs.Lookup.{name_at, own_sort, sort_behind, sort_of};

use crate::known::{Known, Sort};
use ob_explain_sentences::first_word::{is_same, word_at};

/// What a word is declared as where these names of a text are visible.
#[tactic(auto, unfolding(crate::specs::Lookup::sort_of))]
pub fn sort_of(text: &[u8], known: &[Known], word: &[u8]) -> Option<Sort>
    ensures { result ≡ sort_of text.now known.now word.now }
{
    let mut sort = own_sort(word);
    for name in known {
        sort = sort_behind(text, word, sort, *name);
    }
    sort
}

/// What a word is declared as behind a name, and before it as this.
fn sort_behind(text: &[u8], word: &[u8], sort: Option<Sort>, name: Known) -> Option<Sort>
    ensures { result ≡ sort_behind text.now word.now sort name }
{
    if is_same(name_at(text, name.place), word) {
        Some(name.sort)
    } else {
        sort
    }
}

/// What a word of the language's own names stands for.
fn own_sort(word: &[u8]) -> Option<Sort>
    ensures { result ≡ own_sort word.now }
{
    if is_same(word, b"INTEGER") || is_same(word, b"BOOLEAN") {
        Some(Sort::TypeName)
    } else if is_same(word, b"TRUE") || is_same(word, b"FALSE") {
        Some(Sort::Constant)
    } else {
        None
    }
}

/// The name that stands at a place of a text.
pub fn name_at(text: &[u8], place: usize) -> &[u8]
    ensures { result.now ≡ name_at text.now place }
{
    let (_, from) = text.split_at(place.min(text.len()));
    word_at(from)
}
