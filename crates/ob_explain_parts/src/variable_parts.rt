//! The parts of variables to which selectors lead.

ghost use Rattle.std.specs.Prelude.{◌≡◌, ◌≤◌, ◌<◌, ◌+◌, ◌^◌, None, IfOk};
ghost use Rattle.ob_explain_parts.specs.Parts.{brackets_before, ends_index, ends_part, ends_parts, goes_back, index_behind, is_value, name_before};
ghost use Rattle.ob_explain_parts.specs.Parts.{open_brackets, operand_start, part_at, part_behind, selected, selecting_behind, stands_before};

use crate::declared_types::{Standing, element_of, field_of, meant};
use ob_explain_names::known::Known;
use ob_explain_names::lookup::name_at;
use ob_explain_tokens::operand_tokens::{
    closes_bracket, is_dot, is_name, is_number, opens_bracket, selects,
};
use ob_scan::{Kind, Token};
use std::alloc::{AllocError, Global};

/// The type of a part, where it is known, and the token behind the selectors that lead to it.
#[derive(Clone, Copy)]
pub struct Selection {
    pub part: Option<Standing>,
    pub next: Option<Token>,
}

/// Where tokens of selectors stand.
#[derive(Clone, Copy)]
pub enum Selecting {
    /// Behind a whole part.
    Part,
    /// Behind the dot before the name of a field.
    Dot,
    /// Within an index, in so many brackets of it.
    Index(usize),
}

/// The part to which selectors lead from one of this type, of the tokens behind it.
#[tactic(auto, using(crate::proofs::PartSteps::ends_there, crate::proofs::PartSteps::goes_on, crate::proofs::PartSteps::none_left))]
pub fn selected(
    alloc: Global,
    text: &[u8],
    known: &[Known],
    tokens: &[Token],
    whole: Option<Standing>,
    behind: &[Token],
) -> Result<Selection, AllocError>
    ensures { IfOk result (λ led. led ≡ selected text.now known.now tokens.now Selecting.Part whole behind.now) }
{
    let mut part = whole;
    let mut selecting = Selecting::Part;
    for token in behind {
        if ends_parts(selecting, token.kind) {
            return Ok(Selection {
                part,
                next: Some(*token),
            });
        }
        part = part_behind(alloc, text, known, tokens, selecting, part, *token)?;
        selecting = selecting_behind(selecting, token.kind);
    }
    Ok(Selection { part, next: None })
}

/// Whether no further selector stands at a token.
fn ends_parts(selecting: Selecting, kind: Kind) -> bool
    ensures { result ≡ ends_parts selecting kind }
{
    match selecting {
        Selecting::Part => !selects(kind),
        _ => false,
    }
}

/// The type of the part behind a token, where it is known before it.
fn part_behind(
    alloc: Global,
    text: &[u8],
    known: &[Known],
    tokens: &[Token],
    selecting: Selecting,
    part: Option<Standing>,
    token: Token,
) -> Result<Option<Standing>, AllocError>
    ensures { IfOk result (λ type. type ≡ part_behind text.now known.now tokens.now selecting part token) }
{
    match part {
        Some(part) => part_at(alloc, selecting, text, known, tokens, part, token),
        None => Ok(None),
    }
}

/// The same where this type is known before it.
fn part_at(
    alloc: Global,
    selecting: Selecting,
    text: &[u8],
    known: &[Known],
    tokens: &[Token],
    part: Standing,
    token: Token,
) -> Result<Option<Standing>, AllocError>
    ensures { IfOk result (λ type. type ≡ part_at selecting text.now known.now tokens.now part token) }
{
    match selecting {
        Selecting::Part => Ok(Some(part)),
        Selecting::Dot => {
            let whole = meant(alloc, text, known, tokens, part)?;
            field_of(alloc, text, tokens, whole, name_at(text, token.start))
        }
        Selecting::Index(brackets) => {
            if ends_index(brackets, token.kind) {
                let array = meant(alloc, text, known, tokens, part)?;
                element_of(alloc, tokens, array)
            } else {
                Ok(Some(part))
            }
        }
    }
}

/// Whether a token closes the index itself.
fn ends_index(brackets: usize, kind: Kind) -> bool
    ensures { result ≡ ends_index brackets kind }
{
    closes_bracket(kind) && brackets == 0
}

/// Where the tokens behind one stand.
fn selecting_behind(selecting: Selecting, kind: Kind) -> Selecting
    requires { open_brackets selecting < 2 ^ 63 }
    ensures value { result ≡ selecting_behind selecting kind }
    ensures most { open_brackets result ≤ open_brackets selecting + 1 }
{
    match selecting {
        Selecting::Part => {
            if is_dot(kind) {
                Selecting::Dot
            } else {
                Selecting::Index(0)
            }
        }
        Selecting::Dot => Selecting::Part,
        Selecting::Index(brackets) => index_behind(brackets, kind),
    }
}

/// The same within an index.
fn index_behind(brackets: usize, kind: Kind) -> Selecting
    requires { brackets < 2 ^ 63 }
    ensures value { result ≡ index_behind brackets kind }
    ensures most { open_brackets result ≤ brackets + 1 }
{
    if opens_bracket(kind) {
        Selecting::Index(brackets + 1)
    } else if !closes_bracket(kind) {
        Selecting::Index(brackets)
    } else if brackets == 0 {
        Selecting::Part
    } else {
        Selecting::Index(brackets - 1)
    }
}

/// The first token of the operand that tokens end with, the last one first.
#[tactic(auto, using(crate::proofs::OperandSteps::stops_there, crate::proofs::OperandSteps::goes_back, crate::proofs::OperandSteps::none_left))]
pub fn operand_start(before: &[Token]) -> Option<Token>
    ensures { result ≡ operand_start 0 None before.now }
{
    let mut brackets = 0;
    let mut name = None;
    for token in before {
        if stands_before(brackets, name, token.kind) {
            return name;
        }
        name = name_before(brackets, *token);
        brackets = brackets_before(brackets, token.kind);
    }
    name
}

/// Whether a token stands before the operand and is no part of it.
fn stands_before(brackets: usize, name: Option<Token>, kind: Kind) -> bool
    ensures { result ≡ stands_before brackets name kind }
{
    brackets == 0 && !goes_back(name, kind)
}

/// Whether a token is of the operand, of which this name stands behind it or a whole part ends there.
fn goes_back(name: Option<Token>, kind: Kind) -> bool
    ensures { result ≡ goes_back name kind }
{
    match name {
        Some(_) => is_dot(kind),
        None => ends_part(kind),
    }
}

fn ends_part(kind: Kind) -> bool
    ensures { result ≡ ends_part kind }
{
    is_value(kind) || closes_bracket(kind)
}

/// Whether a token is a number or a name.
pub(crate) fn is_value(kind: Kind) -> bool
    ensures { result ≡ is_value kind }
{
    is_number(kind) || is_name(kind)
}

/// The name that may be the first token of the operand.
fn name_before(brackets: usize, token: Token) -> Option<Token>
    ensures { result ≡ name_before brackets token }
{
    if brackets == 0 && is_value(token.kind) {
        Some(token)
    } else {
        None
    }
}

/// The brackets that are open before a token, where so many are behind it.
fn brackets_before(brackets: usize, kind: Kind) -> usize
    requires { brackets < 2 ^ 63 }
    ensures count { result ≡ brackets_before brackets kind }
    ensures most { result ≤ brackets + 1 }
{
    if closes_bracket(kind) {
        brackets + 1
    } else if opens_bracket(kind) {
        brackets.saturating_sub(1)
    } else {
        brackets
    }
}
