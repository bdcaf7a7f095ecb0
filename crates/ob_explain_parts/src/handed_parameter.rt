//! The parameter to which an actual is handed, by the tokens before it.

ghost use Rattle.std.specs.Prelude.{◌≡◌, ◌≤◌, None, IfOk, false};
ghost use Rattle.ob_explain_parts.specs.Parameters.{called_by, called_name, comma, form_by_sort, form_in_call, form_in_procedure, handed_at, is_outside};
ghost use Rattle.ob_explain_parts.specs.Parameters.{is_parameter};
ghost use Rattle.ob_explain_parts.specs.Parameters.{parameter_form, parameter_named, parameter_type, still_in_type};

use crate::declared_types::{Standing, declared_type};
use crate::operand_types::{Form, form_of_type};
use ob_explain_names::declarations::declared_as;
use ob_explain_names::known::{Known, Sort};
use ob_explain_names::lookup::name_at;
use ob_explain_tokens::around::tokens_behind;
use ob_explain_tokens::operand_tokens::{is_colon, is_name, is_right, is_semicolon};
use ob_scan::{Kind, Token};
use std::alloc::{AllocError, Global};

/// The first token of a call, and how many of its actuals stand before a place.
#[derive(Clone, Copy)]
pub struct Handed {
    pub first: Option<Token>,
    pub number: usize,
}

/// The type of the parameter to which an actual is handed, by the tokens before it, the last one first.
pub fn parameter_form(
    alloc: Global,
    text: &[u8],
    known: &[Known],
    tokens: &[Token],
    before: &[Token],
) -> Result<Form, AllocError>
    ensures { IfOk result (λ form. form ≡ parameter_form text.now known.now tokens.now before.now) }
{
    let handed = handed_at(before);
    form_in_call(alloc, text, known, tokens, handed.first, handed.number)
}

/// The name that is called where an actual stands, by the tokens before it, the last one first.
pub fn called_name(text: &[u8], known: &[Known], before: &[Token]) -> Option<Known>
    ensures { result ≡ called_name text.now known.now before.now }
{
    called_by(text, known, handed_at(before).first)
}

/// The name that the first token of a call is.
fn called_by(text: &[u8], known: &[Known], first: Option<Token>) -> Option<Known>
    ensures { result ≡ called_by text.now known.now first }
{
    match first {
        Some(token) => declared_as(text, known, name_at(text, token.start)),
        None => None,
    }
}

/// The call in which these tokens stand, the last one first, and the number of the actual behind them.
#[tactic(auto, using(crate::proofs::Steps::stands_outside, crate::proofs::Steps::goes_back, crate::proofs::Steps::none_left))]
fn handed_at(before: &[Token]) -> Handed
    ensures { result ≡ handed_at None 0 before.now }
{
    let mut first = None;
    let mut commas = 0;
    for token in before {
        if is_outside(token.kind) {
            return Handed {
                first,
                number: commas,
            };
        }
        first = Some(*token);
        commas += comma(token.kind);
    }
    Handed {
        first: None,
        number: commas,
    }
}

/// Whether a token stands in no call.
fn is_outside(kind: Kind) -> bool
    ensures { result ≡ is_outside kind }
{
    matches!(
        kind,
        Kind::Semicolon
            | Kind::Begin
            | Kind::Then
            | Kind::Else
            | Kind::Do
            | Kind::Repeat
            | Kind::If
            | Kind::Elsif
            | Kind::While
            | Kind::Until
            | Kind::End
            | Kind::Assign
    )
}

/// One for a comma.
fn comma(kind: Kind) -> usize
    ensures one { result ≡ comma kind }
    ensures most { result ≤ 1 }
{
    if matches!(kind, Kind::Comma) { 1 } else { 0 }
}

/// The type of the parameter of a number of the procedure that a token names.
fn form_in_call(
    alloc: Global,
    text: &[u8],
    known: &[Known],
    tokens: &[Token],
    first: Option<Token>,
    number: usize,
) -> Result<Form, AllocError>
    ensures { IfOk result (λ form. form ≡ form_in_call text.now known.now tokens.now first number) }
{
    match first {
        Some(token) => {
            let name = declared_as(text, known, name_at(text, token.start));
            form_in_procedure(alloc, text, known, tokens, name, number)
        }
        None => Ok(Form::Unknown),
    }
}

/// The type of the parameter of a number of what has this name.
fn form_in_procedure(
    alloc: Global,
    text: &[u8],
    known: &[Known],
    tokens: &[Token],
    name: Option<Known>,
    number: usize,
) -> Result<Form, AllocError>
    ensures { IfOk result (λ form. form ≡ form_in_procedure text.now known.now tokens.now name number) }
{
    match name {
        Some(name) => form_by_sort(alloc, name.sort, text, known, tokens, name.place, number),
        None => Ok(Form::Unknown),
    }
}

/// The same of what is declared as this at a place.
fn form_by_sort(
    alloc: Global,
    sort: Sort,
    text: &[u8],
    known: &[Known],
    tokens: &[Token],
    place: usize,
    number: usize,
) -> Result<Form, AllocError>
    ensures { IfOk result (λ form. form ≡ form_by_sort sort text.now known.now tokens.now place number) }
{
    match sort {
        Sort::Procedure(_) => {
            let behind = tokens_behind(alloc, tokens, place)?;
            let declared = parameter_type(alloc, tokens, parameter_named(&behind, number))?;
            form_of_type(alloc, text, known, tokens, declared)
        }
        _ => Ok(Form::Unknown),
    }
}

/// The type of a parameter whose name is a token.
fn parameter_type(
    alloc: Global,
    tokens: &[Token],
    name: Option<Token>,
) -> Result<Option<Standing>, AllocError>
    ensures { IfOk result (λ type. type ≡ parameter_type tokens.now name) }
{
    match name {
        Some(token) => declared_type(alloc, tokens, token.start),
        None => Ok(None),
    }
}

/// The name of the parameter of a number, counted from 0, of the tokens behind the name of a procedure.
#[tactic(auto, using(crate::proofs::Steps::ends_there, crate::proofs::Steps::is_there, crate::proofs::Steps::is_behind, crate::proofs::Steps::no_name, crate::proofs::Steps::no_parameter))]
fn parameter_named(behind: &[Token], number: usize) -> Option<Token>
    ensures { result ≡ parameter_named number false behind.now }
{
    let mut left = number;
    let mut in_type = false;
    for token in behind {
        if is_right(token.kind) {
            return None;
        }
        if is_parameter(in_type, token.kind) {
            if left == 0 {
                return Some(*token);
            }
            left -= 1;
        } else {
            in_type = still_in_type(in_type, token.kind);
        }
    }
    None
}

fn is_parameter(in_type: bool, kind: Kind) -> bool
    ensures { result ≡ is_parameter in_type kind }
{
    is_name(kind) && !in_type
}

/// Whether names of types stand behind a token, where they do before it or not.
fn still_in_type(in_type: bool, kind: Kind) -> bool
    ensures { result ≡ still_in_type in_type kind }
{
    if is_colon(kind) {
        true
    } else if is_semicolon(kind) {
        false
    } else {
        in_type
    }
}
