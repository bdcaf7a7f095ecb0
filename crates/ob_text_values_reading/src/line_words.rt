//! The words of a line, taken off one at a time.

ghost use Rattle.std.specs.Prelude.{◌≡◌, ◌<◌, ◌∷◌, [], false, ℕ, List, length, IfSome, MatchOption};
ghost use Rattle.std.specs.List.{position};
ghost use Rattle.ob_text_words.specs.Words.{is_blank, words};

/// The first word of a line, and what stands behind the blank that ends it; `None` where there is none.
#[inline(always)]
pub fn next_word(line: &[u8]) -> Option<(&[u8], &[u8])>
    ensures words { MatchOption result (words line.now ≡ []) (λ r. words line.now ≡ r.0.now ∷ words r.1.now) }
    ensures shorter { IfSome result (λ r. length r.1.now < length line.now) }
{
    let mut left = line;
    while let Some((first, behind)) = left.split_first() {
        if !is_blank(*first) {
            return Some(split_word(left));
        }
        left = behind;
    }
    None
}

/// The word that a text begins with, and what stands behind the blank that ends it.
#[inline(always)]
fn split_word(text: &[u8]) -> (&[u8], &[u8])
    requires { (first : ℕ) × (behind : List ℕ) × (text.now ≡ first ∷ behind) × (is_blank first ≡ false) }
    ensures words { words text.now ≡ result.0.now ∷ words result.1.now }
    ensures shorter { length result.1.now < length text.now }
{
    match blank_in(text) {
        Some(place) => (&text[..place], &text[place + 1..]),
        None => (text, &text[text.len()..]),
    }
}

/// The place of the first blank.
#[inline(always)]
fn blank_in(text: &[u8]) -> Option<usize>
    ensures { result ≡ position (λ b. is_blank b) text.now }
{
    text.iter().position(|byte| is_blank(*byte))
}

/// Whether a byte stands between words.
pub fn is_blank(byte: u8) -> bool
    ensures { result ≡ is_blank byte }
{
    matches!(byte, b' ' | b'\t' | b'\r')
}
