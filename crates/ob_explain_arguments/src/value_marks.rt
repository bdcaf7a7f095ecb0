//! Marks in words that are no values.

ghost use Rattle.std.specs.Prelude.{◌≡◌};
ghost use Rattle.ob_explain_arguments.specs.Values.{mark_sentence};

/// What is said of the marks in a word that is no value, behind what is said of the value.
pub fn mark_sentence(word: &[u8]) -> &'static str
    ensures { result.now ≡ mark_sentence word.now }
{
    if word.contains(&b';') {
        "; a call ends with its line, and no semicolon stands behind it"
    } else if word.contains(&b',') {
        "; values have blanks between them, and no commas"
    } else if word.contains(&b'(') || word.contains(&b')') {
        "; values stand in no parentheses"
    } else {
        ""
    }
}
