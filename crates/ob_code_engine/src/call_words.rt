//! Calls and replies as words.

ghost use Rattle.std.specs.Prelude.{◌≡◌, ◌<◌, ◌≤◌, ◌+◌, ◌^◌, ◌++◌, get_or, length, pos};
ghost use Rattle.ob_interface.specs.Call.{Answers};
ghost use Rattle.ob_interface.specs.View.{reply_of};
ghost use Rattle.ob_interface.specs.declared.scalar.Scalar.TheVariants.{Int};
ghost use Rattle.ob_code_scheme.specs.Layout.{word};
ghost use Rattle.ob_code_correct.specs.CodeMeaning as Words;

use ob_code_machine::Argument;
use ob_interface::call::Reply;
use ob_interface::export::Formal;
use ob_interface::scalar::{Scalar, ScalarType};
use smallvec::SmallVec;
use std::alloc::Global;

/// The word of a scalar: TRUE is 1 and FALSE is 0.
fn word_of_scalar(scalar: Scalar) -> i64
    ensures { result ≡ word scalar }
{
    match scalar {
        Scalar::Int(number) => i64::from(number),
        Scalar::Bool(truth) => i64::from(truth),
    }
}

/// The argument at a place; 0 where there is none.
fn argument_at(arguments: &[Scalar], place: usize) -> Scalar
    ensures { result ≡ get_or arguments.now place (Int (pos 0)) }
{
    match arguments.get(place) {
        Some(argument) => *argument,
        None => Scalar::Int(0),
    }
}

/// Writes the call of an export as words: its number, its arguments, and zeros. There are few, so none is cleared before it is written.
#[inline(always)]
pub fn lay(proc: usize, arguments: &[Scalar], words: &mut [i64])
    requires number { proc < 2 ^ 63 }
    requires room { 0 < length words.old }
    ensures { words.new ≡ Words.laid (length words.old) (record { export = proc; arguments = arguments.now }) }
{
    words[0] = proc as i64;
    for place in 1..words.len() {
        words[place] = word_of_scalar(argument_at(arguments, place - 1));
    }
}

/// The first word and the words behind it; 0 where there is none.
pub fn split(words: &[i64]) -> (i64, &[i64])
    ensures first { result.0 ≡ Words.first_word words.now }
    ensures others { result.1.now ≡ Words.other_words words.now }
{
    match words.split_first() {
        Some((word, others)) => (*word, others),
        None => (0, words),
    }
}

/// What words hand over for each parameter.
pub fn arguments_in(alloc: Global, parameters: &[Formal], words: &[i64]) -> SmallVec<Argument, 8>
    requires { length parameters.now ≤ 8 }
    ensures { result.items ≡ Words.arguments_in parameters.now words.now }
{
    let mut arguments = SmallVec::new(alloc);
    let mut rest = words;
    for parameter in parameters {
        if parameter.is_var {
            arguments.push_reserved(Argument::Var);
        } else {
            let (word, others) = split(rest);
            arguments.push_reserved(Argument::Value(word));
            rest = others;
        }
    }
    arguments
}

/// The value of a type that a word stands for: an INTEGER is 0 where the word is none, and each word but 0 is TRUE.
fn scalar_in(scalar_type: ScalarType, word: i64) -> Scalar
    ensures { result ≡ Words.scalar_in scalar_type word }
{
    match scalar_type {
        ScalarType::Integer if word >= -2147483648 && word <= 2147483647 => {
            Scalar::Int(word as i32)
        }
        ScalarType::Integer => Scalar::Int(0),
        ScalarType::Boolean => Scalar::Bool(word != 0),
    }
}

/// Pushes the values that words stand for, one for each VAR parameter.
fn push_values(values: &mut SmallVec<Scalar, 8>, parameters: &[Formal], words: &[i64])
    requires room { length values.old.items + length parameters.now ≤ 8 }
    requires place { values.old.capacity ≡ 8 }
    ensures { values.new.items ≡ values.old.items ++ Words.values_of parameters.now words.now }
{
    let mut rest = words;
    for parameter in parameters {
        if parameter.is_var {
            let (word, others) = split(rest);
            values.push_reserved(scalar_in(parameter.scalar_type, word));
            rest = others;
        }
    }
}

/// The values that words stand for, one for each VAR parameter.
pub fn values_of(alloc: Global, parameters: &[Formal], words: &[i64]) -> SmallVec<Scalar, 8>
    requires { length parameters.now ≤ 8 }
    ensures { result.items ≡ Words.values_of parameters.now words.now }
{
    let mut values = SmallVec::new(alloc);
    push_values(&mut values, parameters, words);
    values
}

/// The reply of a call that has ended: the values that words stand for. They are pushed where they stay, and where there is no
/// parameter nothing is, so that few words are copied.
pub fn reply_in(alloc: Global, parameters: &[Formal], words: &[i64]) -> Reply
    requires { length parameters.now ≤ 8 }
    ensures { reply_of result ≡ Answers (Words.values_of parameters.now words.now) }
{
    if parameters.is_empty() {
        return Reply::Done(SmallVec::new(alloc));
    }
    let mut values = SmallVec::new(alloc);
    push_values(&mut values, parameters, words);
    Reply::Done(values)
}

/// The trap that a status stands for; 0 where it is no byte.
pub fn trap_in(status: i64) -> u8
    ensures { result ≡ Words.trap_in status }
{
    match u8::try_from(status) {
        Ok(number) => number,
        Err(_) => 0,
    }
}
