//! Words, and what is named before them.

ghost use Rattle.std.specs.Prelude.{◌≡◌, ◌++◌, OnErr, OnOk, string_bytes};
ghost use Rattle.ob_text_record.specs.StateText.{number_where, word_text, word_where, words_text, words_where};
ghost use Rattle.ob_text_words.specs.Appending.{GoesOn};

use ob_text_words::numbers::{push_count, push_number};
use std::alloc::AllocError;

/// Appends a word with a space before it.
pub(crate) fn push_word(text: &mut String, word: i64) -> Result<(), AllocError>
    ensures ok { OnOk result (string_bytes text.new ≡ string_bytes text.old ++ word_text word) }
    ensures left { OnErr result (GoesOn (string_bytes text.old) (string_bytes text.new)) }
{
    text.push_str(" ")?;
    push_number(text, word)
}

/// Appends words.
fn push_words(text: &mut String, words: &[i64]) -> Result<(), AllocError>
    ensures ok { OnOk result (string_bytes text.new ≡ string_bytes text.old ++ words_text words.now) }
    ensures left { OnErr result (GoesOn (string_bytes text.old) (string_bytes text.new)) }
{
    for word in words {
        push_word(text, *word)?;
    }
    Ok(())
}

/// Appends a name and a number, where it is used.
#[tactic(auto, unfolding(crate::specs::StateText::number_where))]
pub(crate) fn push_number_where(
    text: &mut String,
    used: bool,
    name: &str,
    number: u64,
) -> Result<(), AllocError>
    ensures ok { OnOk result (string_bytes text.new ≡ string_bytes text.old ++ number_where used name.now number) }
    ensures left { OnErr result (GoesOn (string_bytes text.old) (string_bytes text.new)) }
{
    if !used {
        return Ok(());
    }
    text.push_str(name)?;
    push_count(text, number)
}

/// Appends a name and a word, where it is used.
#[tactic(auto, unfolding(crate::specs::StateText::word_where))]
pub(crate) fn push_word_where(
    text: &mut String,
    used: bool,
    name: &str,
    word: i64,
) -> Result<(), AllocError>
    ensures ok { OnOk result (string_bytes text.new ≡ string_bytes text.old ++ word_where used name.now word) }
    ensures left { OnErr result (GoesOn (string_bytes text.old) (string_bytes text.new)) }
{
    if !used {
        return Ok(());
    }
    text.push_str(name)?;
    push_word(text, word)
}

/// Appends a name and words, where they are used.
#[tactic(auto, unfolding(crate::specs::StateText::words_where))]
pub(crate) fn push_words_where(
    text: &mut String,
    used: bool,
    name: &str,
    words: &[i64],
) -> Result<(), AllocError>
    ensures ok { OnOk result (string_bytes text.new ≡ string_bytes text.old ++ words_where used name.now words.now) }
    ensures left { OnErr result (GoesOn (string_bytes text.old) (string_bytes text.new)) }
{
    if !used {
        return Ok(());
    }
    text.push_str(name)?;
    push_words(text, words)
}
