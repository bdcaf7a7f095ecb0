//! Of which type an operand is, by the tokens beside a place and the declaration of its name.

ghost use Rattle.std.specs.Prelude.{◌≡◌, IfOk, find, not};
ghost use Rattle.ob_explain_names.specs.Declarations.{declared_as};
ghost use Rattle.ob_explain_tokens.specs.Kinds.{is_left};
ghost use Rattle.ob_explain_parts.specs.Forms.{begins_actual, behind_operand, constant_form, ends_actual, form_at, form_before, form_behind, form_by};
ghost use Rattle.ob_explain_parts.specs.Forms.{form_inside, form_instead, form_of_name, form_of_type, is_own, is_relation_there, joins, joins_there};
ghost use Rattle.ob_explain_parts.specs.Forms.{operand_form, or_single, other};
ghost use Rattle.ob_explain_parts.specs.Forms.{other_of, own_form, role_between, role_of, told_form, truth_behind, truth_form, type_form};
ghost use Rattle.ob_explain_parts.specs.Forms.{variable_at};

use crate::declared_types::{Standing, declared_type, meant};
use crate::inside::has_truth;
use crate::variable_parts::{Selection, is_value, operand_start, selected};
use ob_explain_names::declarations::{declared_as, first_of, is_declared};
use ob_explain_names::known::{Known, Sort};
use ob_explain_names::lookup::name_at;
use ob_explain_names::numerals::{Numeral, numeral_behind};
use ob_explain_sentences::first_word::is_same;
use ob_explain_tokens::around::tokens_behind;
use ob_explain_tokens::operand_tokens::{
    is_array, is_comma, is_left, is_name, is_not, is_number, is_record, is_relation, is_right,
    is_semicolon, is_sign, multiplies,
};
use ob_scan::{Kind, Token};
use std::alloc::{AllocError, Global};

/// What is told of a type.
#[derive(Clone, Copy)]
pub enum Form {
    Integer,
    Boolean,
    /// An INTEGER or a BOOLEAN, and which of both is not told.
    Single,
    /// A whole array.
    Array,
    /// A whole record.
    Record,
    Unknown,
}

/// What an operand is in an expression.
#[derive(Clone, Copy)]
pub enum Role {
    /// One side of a comparison.
    Compared,
    /// A whole actual of a call.
    Actual,
    /// The first of several, with an operator behind it.
    Joined,
    Other,
}

/// Of what ends before a place, of the tokens there, the last one first.
pub fn form_before(
    alloc: Global,
    text: &[u8],
    known: &[Known],
    tokens: &[Token],
    before: &[Token],
) -> Result<Form, AllocError>
    ensures { IfOk result (λ form. form ≡ form_before text.now known.now tokens.now before.now) }
{
    match operand_start(before) {
        Some(first) => operand_form(alloc, text, known, tokens, first),
        None => Ok(Form::Unknown),
    }
}

/// Of what begins with these tokens.
pub fn form_behind(
    alloc: Global,
    text: &[u8],
    known: &[Known],
    tokens: &[Token],
    behind: &[Token],
) -> Result<Form, AllocError>
    ensures { IfOk result (λ form. form ≡ form_behind text.now known.now tokens.now behind.now) }
{
    let [first, rest @ ..] = behind else {
        return Ok(Form::Unknown);
    };
    if is_left(first.kind) {
        form_inside(alloc, text, known, tokens, rest)
    } else {
        form_at(alloc, text, known, tokens, Some(*first))
    }
}

/// Of what stands in parentheses, of the tokens behind the `(`.
fn form_inside(
    alloc: Global,
    text: &[u8],
    known: &[Known],
    tokens: &[Token],
    inside: &[Token],
) -> Result<Form, AllocError>
    ensures { IfOk result (λ form. form ≡ form_inside text.now known.now tokens.now inside.now) }
{
    if has_truth(inside) {
        Ok(Form::Boolean)
    } else {
        form_at(alloc, text, known, tokens, first_inside(inside))
    }
}

/// The first token behind all `(` with which these begin.
fn first_inside(inside: &[Token]) -> Option<Token>
    ensures { result ≡ find (λ t. not (is_left t.kind)) inside.now }
{
    inside.iter().copied().find(|token| !is_left(token.kind))
}

/// Of what begins with a token and has no parentheses around it.
fn form_at(
    alloc: Global,
    text: &[u8],
    known: &[Known],
    tokens: &[Token],
    first: Option<Token>,
) -> Result<Form, AllocError>
    ensures { IfOk result (λ form. form ≡ form_at text.now known.now tokens.now first) }
{
    let Some(first) = first else {
        return Ok(Form::Unknown);
    };
    if is_not(first.kind) {
        Ok(Form::Boolean)
    } else if is_sign(first.kind) {
        Ok(Form::Integer)
    } else {
        operand_form(alloc, text, known, tokens, first)
    }
}

/// Of an expression that is not of the wanted type and whose first operand has this role, from its first token on.
pub fn form_instead(
    alloc: Global,
    text: &[u8],
    known: &[Known],
    tokens: &[Token],
    wanted: Form,
    role: Role,
    from: &[Token],
) -> Result<Form, AllocError>
    ensures { IfOk result (λ form. form ≡ form_instead text.now known.now tokens.now wanted role from.now) }
{
    let [first, ..] = from else {
        return Ok(Form::Unknown);
    };
    if is_value(first.kind) {
        let form = operand_form(alloc, text, known, tokens, *first)?;
        Ok(told_form(role, wanted, form))
    } else {
        Ok(other(wanted))
    }
}

/// Of an expression that is not of the wanted type, by the role and the type of its first operand.
fn told_form(role: Role, wanted: Form, form: Form) -> Form
    ensures { result ≡ told_form role wanted form }
{
    match role {
        Role::Actual => match form {
            Form::Single => other(wanted),
            _ => form,
        },
        _ => other_of(wanted, form),
    }
}

/// The role of an operand that stands behind these tokens, the last one first, and begins with those.
pub fn role_of(
    alloc: Global,
    text: &[u8],
    known: &[Known],
    tokens: &[Token],
    before: &[Token],
    from: &[Token],
) -> Result<Role, AllocError>
    ensures { IfOk result (λ role. role ≡ role_of text.now known.now tokens.now before.now from.now) }
{
    let next = behind_operand(alloc, text, known, tokens, from)?;
    Ok(role_between(before, next))
}

/// The role of an operand behind these tokens, the last one first, and before that one.
fn role_between(before: &[Token], next: Option<Token>) -> Role
    ensures { result ≡ role_between before.now next }
{
    if is_relation_there(first_of(before)) || is_relation_there(next) {
        Role::Compared
    } else if begins_actual(before) && ends_actual(next) {
        Role::Actual
    } else if joins_there(next) {
        Role::Joined
    } else {
        Role::Other
    }
}

/// The token behind an operand that begins with the first of these.
fn behind_operand(
    alloc: Global,
    text: &[u8],
    known: &[Known],
    tokens: &[Token],
    from: &[Token],
) -> Result<Option<Token>, AllocError>
    ensures { IfOk result (λ t. t ≡ behind_operand text.now known.now tokens.now from.now) }
{
    let [first, ..] = from else {
        return Ok(None);
    };
    let behind = tokens_behind(alloc, tokens, first.start)?;
    let operand = selected(alloc, text, known, tokens, None, &behind)?;
    Ok(operand.next)
}

fn is_relation_there(token: Option<Token>) -> bool
    ensures { result ≡ is_relation_there token }
{
    match token {
        Some(token) => is_relation(token.kind),
        None => false,
    }
}

fn joins_there(token: Option<Token>) -> bool
    ensures { result ≡ joins_there token }
{
    match token {
        Some(token) => joins(token.kind),
        None => false,
    }
}

/// Whether an operator joins operands to another one of their type.
fn joins(kind: Kind) -> bool
    ensures { result ≡ joins kind }
{
    match kind {
        Kind::Or => true,
        _ => is_sign(kind) || multiplies(kind),
    }
}

/// Whether an actual begins behind these tokens, the last one first.
fn begins_actual(before: &[Token]) -> bool
    ensures { result ≡ begins_actual before.now }
{
    match before {
        [last, second, ..] => {
            is_comma(last.kind) || (is_left(last.kind) && is_name(second.kind))
        }
        _ => false,
    }
}

/// Whether an actual ends before a token.
fn ends_actual(next: Option<Token>) -> bool
    ensures { result ≡ ends_actual next }
{
    match next {
        Some(token) => is_comma(token.kind) || is_right(token.kind),
        None => false,
    }
}

/// The other one of the two types of single values, or both of them in place of a whole array or record.
pub fn other(form: Form) -> Form
    ensures { result ≡ other form }
{
    match form {
        Form::Integer => Form::Boolean,
        Form::Boolean => Form::Integer,
        Form::Array | Form::Record => Form::Single,
        Form::Single | Form::Unknown => Form::Unknown,
    }
}

/// The other one in place of a single value.
fn other_of(wanted: Form, form: Form) -> Form
    ensures { result ≡ other_of wanted form }
{
    match form {
        Form::Integer | Form::Boolean | Form::Single => other(wanted),
        _ => form,
    }
}

/// Of an operand that begins with a token.
#[tactic(auto, unfolding(crate::specs::Forms::operand_form))]
fn operand_form(
    alloc: Global,
    text: &[u8],
    known: &[Known],
    tokens: &[Token],
    first: Token,
) -> Result<Form, AllocError>
    ensures { IfOk result (λ form. form ≡ operand_form text.now known.now tokens.now first) }
{
    if is_number(first.kind) {
        Ok(Form::Integer)
    } else if is_name(first.kind) {
        let name = declared_as(text, known, name_at(text, first.start));
        form_of_name(alloc, text, known, tokens, first.start, name)
    } else {
        Ok(Form::Unknown)
    }
}

/// Of a name that is used at a place, and is this one or none of the visible ones.
fn form_of_name(
    alloc: Global,
    text: &[u8],
    known: &[Known],
    tokens: &[Token],
    used: usize,
    name: Option<Known>,
) -> Result<Form, AllocError>
    ensures { IfOk result (λ form. form ≡ form_of_name text.now known.now tokens.now used name) }
{
    match name {
        Some(name) => form_by(alloc, name.sort, text, known, tokens, name.place, used),
        None => Ok(truth_form(text, known, name_at(text, used))),
    }
}

/// Of a name that is declared as this at a place, and used at another one.
fn form_by(
    alloc: Global,
    sort: Sort,
    text: &[u8],
    known: &[Known],
    tokens: &[Token],
    place: usize,
    used: usize,
) -> Result<Form, AllocError>
    ensures { IfOk result (λ form. form ≡ form_by sort text.now known.now tokens.now place used) }
{
    match sort {
        Sort::Constant => {
            let behind = tokens_behind(alloc, tokens, place)?;
            Ok(constant_form(numeral_behind(&behind), truth_behind(text, known, &behind)))
        }
        Sort::Variable => {
            let variable = variable_at(alloc, text, known, tokens, place, used)?;
            form_of_type(alloc, text, known, tokens, variable.part)
        }
        _ => Ok(Form::Unknown),
    }
}

/// The variable that is declared at a place, with the selectors behind the place where it is used.
fn variable_at(
    alloc: Global,
    text: &[u8],
    known: &[Known],
    tokens: &[Token],
    place: usize,
    used: usize,
) -> Result<Selection, AllocError>
    ensures { IfOk result (λ variable. variable ≡ variable_at text.now known.now tokens.now place used) }
{
    let declared = declared_type(alloc, tokens, place)?;
    let behind = tokens_behind(alloc, tokens, used)?;
    selected(alloc, text, known, tokens, declared, &behind)
}

/// Of a constant that is declared as a number, or else as this.
fn constant_form(numeral: Option<Numeral>, truth: Form) -> Form
    ensures { result ≡ constant_form numeral truth }
{
    match numeral {
        Some(_) => Form::Integer,
        None => or_single(truth),
    }
}

/// A single value, where it is not told which one.
fn or_single(form: Form) -> Form
    ensures { result ≡ or_single form }
{
    match form {
        Form::Unknown => Form::Single,
        _ => form,
    }
}

/// Of a constant that is declared as TRUE or FALSE, by the tokens behind its name.
fn truth_behind(text: &[u8], known: &[Known], behind: &[Token]) -> Form
    ensures { result ≡ truth_behind text.now known.now behind.now }
{
    let [_equal, first, second, ..] = behind else {
        return Form::Unknown;
    };
    if is_name(first.kind) && is_semicolon(second.kind) {
        truth_form(text, known, name_at(text, first.start))
    } else {
        Form::Unknown
    }
}

/// Of TRUE and FALSE.
#[tactic(auto, unfolding(crate::specs::Forms::truth_form))]
fn truth_form(text: &[u8], known: &[Known], word: &[u8]) -> Form
    ensures { result ≡ truth_form text.now known.now word.now }
{
    if is_own(text, known, word, b"TRUE") || is_own(text, known, word, b"FALSE") {
        Form::Boolean
    } else {
        Form::Unknown
    }
}

/// Of a type.
pub(crate) fn form_of_type(
    alloc: Global,
    text: &[u8],
    known: &[Known],
    tokens: &[Token],
    declared: Option<Standing>,
) -> Result<Form, AllocError>
    ensures { IfOk result (λ form. form ≡ form_of_type text.now known.now tokens.now declared) }
{
    match declared {
        Some(declared) => {
            let whole = meant(alloc, text, known, tokens, declared)?;
            Ok(type_form(text, whole.first))
        }
        None => Ok(Form::Unknown),
    }
}

/// Of a type that begins with a token, and is no name of a declared one.
fn type_form(text: &[u8], first: Token) -> Form
    ensures { result ≡ type_form text.now first }
{
    if is_array(first.kind) {
        Form::Array
    } else if is_record(first.kind) {
        Form::Record
    } else {
        own_form(name_at(text, first.start))
    }
}

/// Of one of the language's own types.
fn own_form(word: &[u8]) -> Form
    ensures { result ≡ own_form word.now }
{
    if is_same(word, b"INTEGER") {
        Form::Integer
    } else if is_same(word, b"BOOLEAN") {
        Form::Boolean
    } else {
        Form::Unknown
    }
}

/// Whether a word is one of the language's own names, and none of the visible ones.
fn is_own(text: &[u8], known: &[Known], word: &[u8], own: &[u8]) -> bool
    ensures { result ≡ is_own text.now known.now word.now own.now }
{
    is_same(word, own) && !is_declared(text, known, word)
}
