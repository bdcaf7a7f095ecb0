//! One token: the longest that can stand at its place.

ghost use Rattle.std.specs.Prelude.{◌≡◌, ◌+◌, ◌<◌, ◌↔◌, IsTrue, [], ◌∷◌, length, slice_index, Some, IfSome, IfNone, IfOk, IfErr};
ghost use Rattle.std.specs.List.{prefix_len, list_all};
ghost use Rattle.std.specs.Char.{is_ascii_alphabetic, is_ascii_alphanumeric, is_ascii_digit};
ghost use Rattle.ob_scan.specs.Limits.{largest_number};
ghost use Rattle.ob_scan.specs.Spelling.{fixed_spelling, number_value};
ghost use Rattle.ob_scan.specs.Tokens.{IsBlank};
ghost use Rattle.ob_scan.specs.Scanning.{HasNoLongSymbol, StandsToken, StandsFault};

use crate::fault::ScanFault;
use crate::keyword::keyword;
use crate::symbol::{symbol_of, symbol_with_equals};
use crate::token::{Kind, LARGEST_NUMBER, LONGEST_NAME, Token};

/// Whether this byte separates tokens.
#[tactic(auto, using(crate::proofs::Spellings::blanks))]
pub(crate) fn is_blank(byte: u8) -> bool
    ensures { IsTrue result ↔ IsBlank byte }
{
    matches!(byte, b' ' | b'\t' | b'\r' | b'\n')
}

/// How many letters and digits stand in front.
fn count_letters_and_digits(bytes: &[u8]) -> usize
    ensures { result ≡ prefix_len is_ascii_alphanumeric bytes.now }
{
    bytes
        .iter()
        .take_while(|b| b.is_ascii_alphanumeric())
        .count()
}

/// How many digits stand in front.
fn count_digits(bytes: &[u8]) -> usize
    ensures { result ≡ prefix_len is_ascii_digit bytes.now }
{
    bytes.iter().take_while(|b| b.is_ascii_digit()).count()
}

/// Whether digits spell a number over the largest.
fn is_too_large(digits: &[u8]) -> bool
    requires { IsTrue (list_all is_ascii_digit digits.now) }
    ensures { IsTrue result ↔ (largest_number < number_value digits.now) }
{
    // counted no further than one above the largest, so that no digits are too many
    let mut value = 0;
    for digit in digits {
        value = (value * 10 + u64::from(*digit - b'0')).min(LARGEST_NUMBER + 1);
    }
    value > LARGEST_NUMBER
}

/// The name or keyword at `start`.
fn word(text: &[u8], start: usize) -> Result<Token, ScanFault>
    requires within { start < length text.now }
    requires letter { IsTrue (is_ascii_alphabetic (slice_index text.now start)) }
    ensures token { IfOk result (λ t. StandsToken text.now start t) }
    ensures fault { IfErr result (λ e. StandsFault text.now start e) }
{
    let end = start + count_letters_and_digits(&text[start..]);
    let kind = match keyword(&text[start..end]) {
        Some(kind) => kind,
        None if end - start > LONGEST_NAME => return Err(ScanFault::NameTooLong(start)),
        None => Kind::Ident,
    };
    Ok(Token { kind, start, end })
}

/// The number at `start`.
fn number(text: &[u8], start: usize) -> Result<Token, ScanFault>
    requires within { start < length text.now }
    requires digit { IsTrue (is_ascii_digit (slice_index text.now start)) }
    ensures token { IfOk result (λ t. StandsToken text.now start t) }
    ensures fault { IfErr result (λ e. StandsFault text.now start e) }
{
    let end = start + count_digits(&text[start..]);
    if is_too_large(&text[start..end]) {
        return Err(ScanFault::NumberTooLarge(start));
    }
    Ok(Token {
        kind: Kind::Number,
        start,
        end,
    })
}

/// The symbol at `start` that is a byte and `=`.
fn long_symbol(text: &[u8], start: usize) -> Option<Kind>
    requires { start < length text.now }
    ensures within { IfSome result (λ _. (start + 1 < length text.now) × (slice_index text.now (start + 1) ≡ 61)) }
    ensures is { IfSome result (λ kind. fixed_spelling kind ≡ Some (slice_index text.now start ∷ 61 ∷ [])) }
    ensures none { IfNone result (HasNoLongSymbol text.now start) }
{
    if start + 1 < text.len() && text[start + 1] == b'=' {
        symbol_with_equals(text[start])
    } else {
        None
    }
}

/// The symbol at `start`, where no name and no number begins.
fn symbol(text: &[u8], start: usize) -> Result<Token, ScanFault>
    requires within { start < length text.now }
    requires no_letter { IsTrue (is_ascii_alphabetic (slice_index text.now start)) → ⊥ }
    requires no_digit { IsTrue (is_ascii_digit (slice_index text.now start)) → ⊥ }
    requires no_blank { IsBlank (slice_index text.now start) → ⊥ }
    ensures token { IfOk result (λ t. StandsToken text.now start t) }
    ensures fault { IfErr result (λ e. StandsFault text.now start e) }
{
    if let Some(kind) = long_symbol(text, start) {
        return Ok(Token {
            kind,
            start,
            end: start + 2,
        });
    }
    match symbol_of(text[start]) {
        Some(kind) => Ok(Token {
            kind,
            start,
            end: start + 1,
        }),
        None => Err(ScanFault::StrayByte(start)),
    }
}

/// The token at `start`, where no blank and no comment stands.
pub(crate) fn lexeme(text: &[u8], start: usize) -> Result<Token, ScanFault>
    requires within { start < length text.now }
    requires no_blank { IsBlank (slice_index text.now start) → ⊥ }
    ensures token { IfOk result (λ t. StandsToken text.now start t) }
    ensures fault { IfErr result (λ e. StandsFault text.now start e) }
{
    let first = text[start];
    if first.is_ascii_alphabetic() {
        word(text, start)
    } else if first.is_ascii_digit() {
        number(text, start)
    } else {
        symbol(text, start)
    }
}
