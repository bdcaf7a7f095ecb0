//! Numbers in decimal digits.

ghost use Rattle.std.specs.Prelude.{◌≡◌, ℕ, ℤ, ◌+◌, ◌*◌, ◌≤◌, ◌<◌, ◌^◌, ◌++◌, IsTrue, MatchOption, IfSome, OnErr, OnOk, decimal, string_bytes};
ghost use Rattle.std.specs.Char.{digit_value, is_ascii_digit};
ghost use Rattle.ob_text_words.specs.Words.{IsDigits, IsNumeral, IsProcess, IsInteger, PartsBehindDigits};

use itoa::{Buffer, Integer};
use std::alloc::AllocError;

/// The most digits of a process.
const PROCESS_DIGITS: usize = 9;

/// The most digits of an INTEGER.
const INTEGER_DIGITS: usize = 10;

/// The process that a word names.
pub fn read_process(word: &[u8]) -> Option<usize>
    ensures { MatchOption result ((p : ℕ) → IsProcess word.now p → ⊥) (λ p. IsProcess word.now p) }
{
    let process = read_digits(word, PROCESS_DIGITS)?;
    Some(process as usize)
}

/// The number that one to `most` digits spell.
pub fn read_digits(word: &[u8], most: usize) -> Option<u64>
    requires { most ≤ INTEGER_DIGITS }
    ensures spelled { MatchOption result ((n : ℕ) → IsDigits most word.now n → ⊥) (λ n. IsDigits most word.now n) }
    ensures small { IfSome result (λ n. n < 10 ^ 10) }
{
    if word.is_empty() || word.len() > most {
        return None;
    }
    let mut value = 0;
    for byte in word {
        if !byte.is_ascii_digit() {
            return None;
        }
        value = value * 10 + u64::from(*byte - b'0');
    }
    Some(value)
}

/// The number that digits spell, where it is below 2^64.
pub fn read_numeral(word: &[u8]) -> Option<u64>
    ensures { MatchOption result ((n : ℕ) → IsNumeral word.now n → n < 2 ^ 64 → ⊥) (λ n. IsNumeral word.now n) }
{
    if word.is_empty() {
        return None;
    }
    let mut value: u64 = 0;
    for byte in word {
        if !byte.is_ascii_digit() {
            return None;
        }
        let Some(longer) = with_digit(value, *byte) else {
            return None;
        };
        value = longer;
    }
    Some(value)
}

/// A number with one more digit; `None` where it passes 2^64 - 1.
fn with_digit(value: u64, digit: u8) -> Option<u64>
    requires { IsTrue (is_ascii_digit digit) }
    ensures { MatchOption result (2 ^ 64 ≤ value * 10 + digit_value digit) (λ longer. longer ≡ value * 10 + digit_value digit) }
{
    value.checked_mul(10)?.checked_add(u64::from(digit - b'0'))
}

/// The digits that a word begins with, and what stands behind them.
pub fn split_digits(word: &[u8]) -> (&[u8], &[u8])
    ensures joined { result.0.now ++ result.1.now ≡ word.now }
    ensures alone { PartsBehindDigits word.now result.0.now result.1.now }
{
    let count = word.iter().take_while(|byte| byte.is_ascii_digit()).count();
    word.split_at(count)
}

/// The INTEGER that a word says.
pub fn read_integer(word: &[u8]) -> Option<i32>
    ensures { MatchOption result ((z : ℤ) → IsInteger word.now z → ⊥) (λ z. IsInteger word.now z) }
{
    match word.split_first() {
        Some((b'-', digits)) => {
            let magnitude = read_digits(digits, INTEGER_DIGITS)? as i64;
            i32::try_from(-magnitude).ok()
        }
        _ => i32::try_from(read_digits(word, INTEGER_DIGITS)?).ok(),
    }
}

/// Appends a number in decimal digits, with a `-` where it is below 0.
pub fn push_number<I: Integer>(text: &mut String, number: I) -> Result<(), AllocError>
    ensures ok { OnOk result (string_bytes text.new ≡ string_bytes text.old ++ I.text number) }
    ensures unchanged { OnErr result (string_bytes text.new ≡ string_bytes text.old) }
{
    let mut buffer = Buffer::new();
    text.push_str(buffer.format(number))
}

/// Appends a count in decimal digits. One digit, as the number of a process mostly has, needs no buffer.
#[inline]
pub fn push_count(text: &mut String, count: u64) -> Result<(), AllocError>
    ensures ok { OnOk result (string_bytes text.new ≡ string_bytes text.old ++ decimal count) }
    ensures unchanged { OnErr result (string_bytes text.new ≡ string_bytes text.old) }
{
    if count < 10 {
        return text.push(char::from(b'0' + count as u8));
    }
    push_number(text, count)
}
