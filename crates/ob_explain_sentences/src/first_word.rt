//! Words of a text: the one that bytes begin with, and which are the same.

ghost use Rattle.std.specs.Prelude.{◌≡◌, bytes_eq};
ghost use Rattle.ob_explain_sentences.specs.Words.{begins_with, is_same_but_for_case, is_same_in_any_case, word_at};

/// The name or keyword that a line goes on with; empty where it goes on with none.
pub fn word_at(line: &[u8]) -> &[u8]
    ensures { result.now ≡ word_at line.now }
{
    match line.first() {
        Some(first) if first.is_ascii_alphabetic() => {
            let length = line
                .iter()
                .take_while(|byte| byte.is_ascii_alphanumeric())
                .count();
            &line[..length]
        }
        _ => &line[..0],
    }
}

/// Whether two words have the same letters and digits, of which some are small and large.
pub fn is_same_but_for_case(word: &[u8], other: &[u8]) -> bool
    ensures { result ≡ is_same_but_for_case word.now other.now }
{
    is_same_in_any_case(word, other) && !is_same(word, other)
}

/// Whether two words have the same letters and digits, small or large.
pub fn is_same_in_any_case(word: &[u8], other: &[u8]) -> bool
    ensures { result ≡ is_same_in_any_case word.now other.now }
{
    word.eq_ignore_ascii_case(other)
}

/// Whether two words are the same.
pub fn is_same(word: &[u8], other: &[u8]) -> bool
    ensures { result ≡ bytes_eq word.now other.now }
{
    word == other
}

/// Whether the first of some bytes is this one.
pub fn begins_with(bytes: &[u8], byte: u8) -> bool
    ensures { result ≡ begins_with bytes.now byte }
{
    match bytes.first() {
        Some(first) => *first == byte,
        None => false,
    }
}
