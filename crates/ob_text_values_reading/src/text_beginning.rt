//! What a text begins with, where no line of it has been told apart yet.

ghost use Rattle.std.specs.Prelude.{◌≡◌, ◌<◌, ◌≤◌, ◌^◌, length, pos, take, IfSome, IsTrue};
ghost use Rattle.std.specs.Char.{is_ascii_digit};
ghost use Rattle.std.specs.List.{list_all, position};
ghost use Rattle.ob_interface.specs.declared.scalar.Scalar.TheVariants.{Int};
ghost use Rattle.ob_interface.specs.declared.scalar.ScalarType.TheVariants.{Integer};
ghost use Rattle.ob_scan.specs.Spelling.{number_value};
ghost use Rattle.ob_text_values_reading.specs.LineBeginnings.{BeginsLine, BeginsWithId, BeginsWithProcess, BeginsWithValue, BeginsWithWord, TakesIds, ends_word};

use ob_interface::scalar::{Scalar, ScalarType};
use ob_text_words::parameter_words::read_value;
use wf_history::CallId;

/// The most digits that are read without a look at whether the number grows too large.
const FEW_DIGITS: usize = 10;

/// The first byte of a text and the call that is named behind it and a space, by a process below `processes`; with what stands behind
/// the name. `None` says nothing here, and below.
#[inline(always)]
pub fn front_of(processes: usize, text: &[u8]) -> Option<(u8, CallId, &[u8])>
    ensures { IfSome result (λ r. BeginsLine processes text.now r.0 r.1 r.2.now) }
{
    let (kind, behind) = text.split_first()?;
    let (space, line) = behind.split_first()?;
    if *space != b' ' {
        return None;
    }
    let (id, rest) = front_id(processes, line)?;
    Some((*kind, id, rest))
}

/// The call that a text names first, by a process below `processes`, and what stands behind its digits.
#[inline(always)]
pub(crate) fn front_id(processes: usize, text: &[u8]) -> Option<(CallId, &[u8])>
    ensures { IfSome result (λ r. BeginsWithId processes text.now r.0 r.1.now) }
{
    let (process, digits) = front_process(text)?;
    if process >= processes {
        return None;
    }
    let (number, count) = front_number(digits);
    if count == 0 {
        return None;
    }
    Some((CallId { process, number }, &digits[count..]))
}

/// The process that a text names up to its first point, and what stands behind the point. Most have one digit.
#[inline(always)]
fn front_process(text: &[u8]) -> Option<(usize, &[u8])>
    ensures { IfSome result (λ r. BeginsWithProcess text.now r.0 r.1.now) }
{
    let (first, behind) = text.split_first()?;
    let (point, rest) = behind.split_first()?;
    if !first.is_ascii_digit() || *point != b'.' {
        return front_long_process(text);
    }
    let process = usize::from(*first - b'0');
    Some((process, rest))
}

/// The same of one that may have more digits.
#[inline(always)]
fn front_long_process(text: &[u8]) -> Option<(usize, &[u8])>
    ensures { IfSome result (λ r. BeginsWithProcess text.now r.0 r.1.now) }
{
    let (process, count) = front_number(text);
    let (point, rest) = text[count..].split_first()?;
    if count == 0 || *point != b'.' {
        return None;
    }
    Some((process as usize, rest))
}

/// The number that the first digits of a text spell, few at most, and how many they are.
#[inline(always)]
fn front_number(text: &[u8]) -> (u64, usize)
    ensures within { result.1 ≤ length text.now }
    ensures few { result.1 ≤ 10 }
    ensures digits { IsTrue (list_all is_ascii_digit (take result.1 text.now)) }
    ensures spells { number_value (take result.1 text.now) ≡ result.0 }
    ensures small { result.0 < 10 ^ 10 }
{
    let most = text.len().min(FEW_DIGITS);
    let mut value: u64 = 0;
    let mut count = 0;
    while count < most && text[count].is_ascii_digit() {
        value = value * 10 + u64::from(text[count] - b'0');
        count += 1;
    }
    (value, count)
}

/// The word that a text begins with, and what stands behind it: a blank or a line feed first.
#[inline(always)]
pub fn front_word(text: &[u8]) -> Option<(&[u8], &[u8])>
    ensures { IfSome result (λ r. BeginsWithWord text.now r.0.now r.1.now) }
{
    let place = end_in(text)?;
    if place == 0 {
        return None;
    }
    Some((&text[..place], &text[place..]))
}

/// The place of the first blank or line feed.
#[inline(always)]
fn end_in(text: &[u8]) -> Option<usize>
    ensures { result ≡ position (λ b. ends_word b) text.now }
{
    text.iter().position(|byte| ends_word(*byte))
}

/// Whether a byte ends a word. Of most bytes the first test says that they don't.
fn ends_word(byte: u8) -> bool
    ensures { result ≡ ends_word byte }
{
    byte <= b' ' && matches!(byte, b' ' | b'\t' | b'\r' | b'\n')
}

/// The value of a type that a text says behind a space, and what stands behind its word.
#[inline(always)]
pub(crate) fn front_value(scalar_type: ScalarType, text: &[u8]) -> Option<(Scalar, &[u8])>
    ensures { IfSome result (λ r. BeginsWithValue scalar_type text.now r.0 r.1.now) }
{
    let (blank, behind) = text.split_first()?;
    if *blank != b' ' {
        return None;
    }
    match (scalar_type, front_natural(behind)) {
        (ScalarType::Integer, Some(found)) => Some(found),
        _ => front_any_value(scalar_type, behind),
    }
}

/// The INTEGER that the first digits of a text say, where a blank or a line feed is behind them; it is walked once.
#[inline(always)]
fn front_natural(text: &[u8]) -> Option<(Scalar, &[u8])>
    ensures { IfSome result (λ r. BeginsWithValue Integer text.now r.0 r.1.now) }
{
    let (number, count) = front_number(text);
    if count == 0 {
        return None;
    }
    let value = integer_of(number)?;
    let behind = &text[count..];
    let (ender, _rest) = behind.split_first()?;
    if !ends_word(*ender) {
        return None;
    }
    Some((value, behind))
}

/// A number as an INTEGER, if it is small enough.
#[inline(always)]
fn integer_of(number: u64) -> Option<Scalar>
    ensures { IfSome result (λ value. (value ≡ Int (pos number)) × (number ≤ 2147483647)) }
{
    let value = i32::try_from(number).ok()?;
    Some(Scalar::Int(value))
}

/// The value that the first word of a text says. It stands apart, since few values have a sign or are no numbers.
#[inline(never)]
fn front_any_value(scalar_type: ScalarType, text: &[u8]) -> Option<(Scalar, &[u8])>
    ensures { IfSome result (λ r. BeginsWithValue scalar_type text.now r.0 r.1.now) }
{
    let (word, rest) = front_word(text)?;
    let value = read_value(scalar_type, word)?;
    Some((value, rest))
}

/// What stands behind the first line of a text, where that line names calls with a space between each two of them.
#[inline(always)]
pub fn behind_ids(processes: usize, text: &[u8]) -> Option<&[u8]>
    ensures { IfSome result (λ rest. TakesIds processes text.now rest.now) }
{
    let mut left = text;
    while let Some((_id, behind)) = front_id(processes, left) {
        let (ender, rest) = behind.split_first()?;
        match *ender {
            b' ' => left = rest,
            b'\n' => return Some(rest),
            _ => return None,
        }
    }
    None
}
