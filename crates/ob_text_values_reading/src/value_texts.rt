//! Values as texts say them: a scalar, an array as `[v,v]`, a record as `{f=v,g=v}`.

ghost use Rattle.std.specs.Prelude.{◌≡◌, ◌≢◌, ◌↔◌, ◌++◌, ◌∷◌, [], IfOk, IfSome, IsTrue, MatchOption, string_bytes, List, ℕ};
ghost use Rattle.ob_carry.specs.View.{named_in};
ghost use Rattle.ob_interface.specs.declared.scalar.Scalar.{Scalar};
ghost use Rattle.ob_interface.specs.declared.scalar.ScalarType.{ScalarType};
ghost use Rattle.ob_meaning.specs.ByNameValue.{Value};
ghost use Rattle.ob_text_words.specs.Values.{IsValue};
ghost use Rattle.ob_text_words.specs.Finding.{FindsAs};
ghost use Rattle.ob_text_words.specs.Words.{IsName};
ghost use Rattle.ob_text_values_reading.specs.Taking.{Ends, FindsElements, FindsField, FindsFields, FindsSomeFields, FindsValue, IsNoBracket, PartsAtMark, is_mark};
ghost use Rattle.ob_text_values_reading.specs.ValueTexts.{IsValueText, SaysValue};

use ob_carry::fields_by_name::{NamedField, NamedValue};
use ob_interface::NoMemory;
use ob_interface::scalar::{Scalar, ScalarType};
use ob_text_words::parameter_words;
use ob_text_words::words::is_name;
use std::alloc::{AllocError, Global};
use std::str;

/// The most arrays and records that stand within one another, as in a type.
pub const DEEPEST_VALUE: usize = 100;

/// The value that a text says; `None` where it says none, or one that is too deep.
pub fn read_value(alloc: Global, text: &[u8]) -> Result<Option<NamedValue>, NoMemory>
    ensures found { IfOk result (FindsAs named_in (SaysValue text.now)) }
    ensures alone { IfOk result (λ found. IfSome found (λ v. (w : Value) → IsValueText text.now w → w ≡ named_in v)) }
{
    let Some((value, rest)) = take_value(alloc, DEEPEST_VALUE, text)? else {
        return Ok(None);
    };
    if rest.is_empty() {
        Ok(Some(value))
    } else {
        Ok(None)
    }
}

/// The value that a text begins with, with so many arrays and records within one another at most, and what stands behind it.
#[cycle(taking)]
fn take_value(
    alloc: Global,
    limit: usize,
    text: &[u8],
) -> Result<Option<(NamedValue, &[u8])>, NoMemory>
    ensures { IfOk result (FindsValue limit text.now) }
{
    if let Some(inner) = behind_byte(b'[', text) {
        return take_array(alloc, limit, inner);
    }
    if let Some(inner) = behind_byte(b'{', text) {
        return take_record(alloc, limit, inner);
    }
    Ok(take_scalar(text))
}

/// The same of an array; the text is what stands behind its bracket.
#[cycle(taking)]
fn take_array(
    alloc: Global,
    limit: usize,
    text: &[u8],
) -> Result<Option<(NamedValue, &[u8])>, NoMemory>
    ensures { IfOk result (FindsValue limit (91 ∷ text.now)) }
{
    if limit == 0 {
        return Ok(None);
    }
    let mut elements = Vec::new(alloc);
    let Some(rest) = take_elements(alloc, limit - 1, text, &mut elements)? else {
        return Ok(None);
    };
    if is_end(rest) {
        Ok(Some((NamedValue::Elements(elements), rest)))
    } else {
        Ok(None)
    }
}

/// Puts the elements that a text begins with into an empty list; with what stands behind their bracket.
#[cycle(taking)]
fn take_elements<'a>(
    alloc: Global,
    limit: usize,
    text: &'a [u8],
    elements: &mut Vec<NamedValue>,
) -> Result<Option<&'a [u8]>, NoMemory>
    requires { elements.old.items ≡ [] }
    ensures { IfOk result (FindsElements limit text.now elements.new.items) }
{
    let mut left = text;
    loop {
        let Some((value, rest)) = take_value(alloc, limit, left)? else {
            return Ok(None);
        };
        elements.push(value)?;
        match behind_byte(b',', rest) {
            Some(behind) => left = behind,
            None => return Ok(behind_byte(b']', rest)),
        }
    }
}

/// The record that a text begins with; the text is what stands behind its brace.
#[cycle(taking)]
fn take_record(
    alloc: Global,
    limit: usize,
    text: &[u8],
) -> Result<Option<(NamedValue, &[u8])>, NoMemory>
    ensures { IfOk result (FindsValue limit (123 ∷ text.now)) }
{
    if limit == 0 {
        return Ok(None);
    }
    let mut fields = Vec::new(alloc);
    let Some(rest) = take_some_fields(alloc, limit - 1, text, &mut fields)? else {
        return Ok(None);
    };
    if is_end(rest) {
        Ok(Some((NamedValue::Fields(fields), rest)))
    } else {
        Ok(None)
    }
}

/// Puts the fields that a text begins with, if there are any, into an empty list; with what stands behind their brace.
#[cycle(taking)]
fn take_some_fields<'a>(
    alloc: Global,
    limit: usize,
    text: &'a [u8],
    fields: &mut Vec<NamedField>,
) -> Result<Option<&'a [u8]>, NoMemory>
    requires { fields.old.items ≡ [] }
    ensures { IfOk result (FindsSomeFields limit text.now fields.new.items) }
{
    match behind_byte(b'}', text) {
        Some(rest) => Ok(Some(rest)),
        None => take_fields(alloc, limit, text, fields),
    }
}

/// Puts the fields that a text begins with, one at least, into an empty list; with what stands behind their brace.
#[cycle(taking)]
fn take_fields<'a>(
    alloc: Global,
    limit: usize,
    text: &'a [u8],
    fields: &mut Vec<NamedField>,
) -> Result<Option<&'a [u8]>, NoMemory>
    requires { fields.old.items ≡ [] }
    ensures { IfOk result (FindsFields limit text.now fields.new.items) }
{
    let mut left = text;
    loop {
        let Some((field, rest)) = take_field(alloc, limit, left)? else {
            return Ok(None);
        };
        fields.push(field)?;
        match behind_byte(b',', rest) {
            Some(behind) => left = behind,
            None => return Ok(behind_byte(b'}', rest)),
        }
    }
}

/// The field that a text begins with, and what stands behind it.
#[cycle(taking)]
fn take_field(
    alloc: Global,
    limit: usize,
    text: &[u8],
) -> Result<Option<(NamedField, &[u8])>, NoMemory>
    ensures { IfOk result (FindsField limit text.now) }
{
    let (word, behind) = split_mark(text);
    let Some(inner) = behind_byte(b'=', behind) else {
        return Ok(None);
    };
    if !is_name(word) {
        return Ok(None);
    }
    let name = name_text(alloc, word)?;
    let Some((value, rest)) = take_value(alloc, limit, inner)? else {
        return Ok(None);
    };
    Ok(Some((NamedField { name, value }, rest)))
}

/// The scalar that a text begins with, and what stands behind it.
fn take_scalar(text: &[u8]) -> Option<(NamedValue, &[u8])>
    requires { IsNoBracket text.now }
    ensures { (limit : ℕ) → FindsValue limit text.now result }
{
    let (word, rest) = split_mark(text);
    let scalar = read_scalar(word)?;
    Some((NamedValue::Single(scalar), rest))
}

/// The scalar that a word says.
fn read_scalar(word: &[u8]) -> Option<Scalar>
    ensures { MatchOption result
        ((type : ScalarType) (s : Scalar) → IsValue type word.now s → ⊥)
        (λ s. (type : ScalarType) × IsValue type word.now s) }
{
    match parameter_words::read_value(ScalarType::Boolean, word) {
        Some(scalar) => Some(scalar),
        None => parameter_words::read_value(ScalarType::Integer, word),
    }
}

/// What stands behind a byte with which a text begins.
fn behind_byte(byte: u8, text: &[u8]) -> Option<&[u8]>
    ensures { MatchOption result ((rest : List ℕ) → text.now ≢ byte ∷ rest) (λ rest. text.now ≡ byte ∷ rest.now) }
{
    let (first, rest) = text.split_first()?;
    if *first == byte { Some(rest) } else { None }
}

/// What stands before the first mark of a text, and from there on.
fn split_mark(text: &[u8]) -> (&[u8], &[u8])
    ensures joined { result.0.now ++ result.1.now ≡ text.now }
    ensures ends { Ends result.1.now }
    ensures alone { PartsAtMark text.now result.0.now result.1.now }
{
    let count = text.iter().take_while(|byte| !is_mark(**byte)).count();
    text.split_at(count)
}

fn is_mark(byte: u8) -> bool
    ensures { result ≡ is_mark byte }
{
    matches!(byte, b',' | b'=' | b']' | b'}')
}

/// Whether a text ends, or begins with a mark.
fn is_end(text: &[u8]) -> bool
    ensures { IsTrue result ↔ Ends text.now }
{
    match text.first() {
        Some(byte) => is_mark(*byte),
        None => true,
    }
}

/// The text of a name.
pub(crate) fn name_text(alloc: Global, name: &[u8]) -> Result<String, AllocError>
    requires { IsName name.now }
    ensures { IfOk result (λ text. string_bytes text ≡ name.now) }
{
    match str::from_utf8(name) {
        Ok(text) => String::from_str(alloc, text),
        Err(_) => unreachable!(),
    }
}
