//! Which type stands at a place, and which is needed there.

ghost use Rattle.std.specs.Prelude.{◌≡◌, IfOk, OnOk};
ghost use Rattle.ob_evidence.specs.Sites.{scene_of};
ghost use Rattle.ob_evidence.specs.Types.{form_ended, found_there, is_same, of_expression, of_sign, operator_at, operator_by, or_other};
ghost use Rattle.ob_evidence.specs.Types.{sign_behind, told, type_of, types_there, wanted_by, wanted_there, with_whole};
ghost use Rattle.ob_explain_parts.specs.Forms.{other};

use crate::facts::note;
use crate::text_site::{Site, is_kind};
use ob_explain_parts::handed_parameter::parameter_form;
use ob_explain_parts::operand_types::{
    Form, Role, form_before, form_behind, form_instead, other, role_of,
};
use ob_explain_sentences::table_rows::{Fact, Type};
use ob_explain_tokens::around::tokens_behind;
use ob_explain_tokens::operand_tokens::{ends_operand, is_relation};
use ob_scan::{Kind, Token};
use std::alloc::{AllocError, Global};

/// The type that is needed, and the one that stands there.
#[derive(Clone, Copy)]
pub struct Types {
    pub wanted: Type,
    pub found: Type,
}

/// What is known of types at a place; what may be seen goes to the facts.
pub fn types_there(
    facts: &mut Vec<Fact>,
    alloc: Global,
    site: &Site<'_, '_>,
) -> Result<Types, AllocError>
    ensures { IfOk result (λ types. types ≡ types_there (scene_of site.now)) }
{
    let first = form_before(alloc, site.text, site.known, site.tokens, site.before)?;
    let second = form_behind(alloc, site.text, site.known, site.tokens, site.behind)?;
    let is_compared = meets_relation(site.before) || meets_relation(site.behind);
    note(facts, is_compared, Fact::Compared)?;
    match operator_at(site) {
        Operator::Numbers => of_operator(facts, Form::Integer, first, second),
        Operator::Truths => of_operator(facts, Form::Boolean, first, second),
        Operator::Relation => of_relation(facts, first, second),
        Operator::Sign(taken) => of_sign(facts, alloc, site, taken, second),
        Operator::None => of_expression(facts, alloc, site),
    }
}

/// What stands at the place: an operator between operands of these types, a sign or `~` that takes this one, or none.
#[derive(Clone, Copy)]
pub enum Operator {
    Numbers,
    Truths,
    Relation,
    Sign(Form),
    None,
}

fn operator_at(site: &Site<'_, '_>) -> Operator
    ensures { result ≡ operator_at (scene_of site.now) }
{
    match site.here() {
        Some(here) => operator_by(here.kind, site.last()),
        None => Operator::None,
    }
}

/// What a token is as an operator, behind this one.
fn operator_by(here: Kind, last: Option<Token>) -> Operator
    ensures { result ≡ operator_by here last }
{
    match here {
        Kind::Times
        | Kind::Less
        | Kind::LessOrEqual
        | Kind::Greater
        | Kind::GreaterOrEqual
        | Kind::Div
        | Kind::Mod => Operator::Numbers,
        Kind::And | Kind::Or => Operator::Truths,
        Kind::Equal | Kind::NotEqual => Operator::Relation,
        Kind::Not => Operator::Sign(Form::Boolean),
        Kind::Plus | Kind::Minus => sign_behind(last),
        _ => Operator::None,
    }
}

/// A sign, or behind an operand an operator.
fn sign_behind(last: Option<Token>) -> Operator
    ensures { result ≡ sign_behind last }
{
    match last {
        Some(last) if ends_operand(last.kind) => Operator::Numbers,
        _ => Operator::Sign(Form::Integer),
    }
}

/// At an operator that takes operands of this type.
fn of_operator(
    facts: &mut Vec<Fact>,
    wanted: Form,
    first: Form,
    second: Form,
) -> Result<Types, AllocError>
    ensures { IfOk result (λ types. types ≡ told wanted (other wanted)) }
{
    let fact = if is_same(other(wanted), first) {
        Fact::WrongBefore
    } else if is_same(wanted, first) || is_same(other(wanted), second) {
        Fact::WrongBehind
    } else if is_same(wanted, second) {
        Fact::WrongBefore
    } else {
        Fact::WrongSide
    };
    facts.push(fact)?;
    Ok(told(wanted, other(wanted)))
}

/// At an operator that compares.
fn of_relation(facts: &mut Vec<Fact>, first: Form, second: Form) -> Result<Types, AllocError>
    ensures { IfOk result (λ types. types ≡ told first second) }
{
    let before = match first {
        Form::Integer | Form::Boolean => first,
        _ => other(second),
    };
    let fact = match before {
        Form::Integer => Fact::IntegerFirst,
        Form::Boolean => Fact::BooleanFirst,
        _ => Fact::NoPair,
    };
    facts.push(fact)?;
    Ok(told(first, second))
}

/// At a sign or a `~` that takes this type, before an operand of that one.
fn of_sign(
    facts: &mut Vec<Fact>,
    alloc: Global,
    site: &Site<'_, '_>,
    taken: Form,
    behind: Form,
) -> Result<Types, AllocError>
    ensures { IfOk result (λ types. types ≡ of_sign (scene_of site.now) taken behind) }
{
    if is_same(taken, behind) {
        return of_expression(facts, alloc, site);
    }
    let fact = if is_same(other(taken), behind) {
        Fact::WrongSigned
    } else {
        Fact::UnknownSigned
    };
    facts.push(fact)?;
    Ok(told(taken, behind))
}

/// At an expression of another type than is wanted there.
fn of_expression(
    facts: &mut Vec<Fact>,
    alloc: Global,
    site: &Site<'_, '_>,
) -> Result<Types, AllocError>
    ensures { IfOk result (λ types. types ≡ of_expression (scene_of site.now)) }
{
    let wanted = wanted_there(alloc, site)?;
    let found = found_there(facts, alloc, site, wanted)?;
    Ok(told(wanted, or_other(wanted, found)))
}

/// The type of an expression in place of the wanted one.
fn found_there(
    facts: &mut Vec<Fact>,
    alloc: Global,
    site: &Site<'_, '_>,
    wanted: Form,
) -> Result<Form, AllocError>
    requires { wanted ≡ wanted_there (scene_of site.now) }
    ensures { IfOk result (λ found. found ≡ found_there (scene_of site.now)) }
{
    let from = tokens_behind(alloc, site.tokens, site.place.saturating_sub(1))?;
    let role = role_of(
        alloc,
        site.text,
        site.known,
        site.tokens,
        site.before,
        &from,
    )?;
    let found = form_instead(
        alloc,
        site.text,
        site.known,
        site.tokens,
        wanted,
        role,
        &from,
    )?;
    note_expression(facts, site, role, wanted, found)?;
    Ok(found)
}

/// A type; the other one where it is not known.
fn or_other(wanted: Form, found: Form) -> Form
    ensures { result ≡ or_other wanted found }
{
    match found {
        Form::Unknown => other(wanted),
        _ => found,
    }
}

/// Which type an expression has to be of at the place.
fn wanted_there(alloc: Global, site: &Site<'_, '_>) -> Result<Form, AllocError>
    ensures { IfOk result (λ wanted. wanted ≡ wanted_there (scene_of site.now)) }
{
    match site.before {
        [last, rest @ ..] => wanted_by(alloc, site, last.kind, rest),
        [] => Ok(Form::Unknown),
    }
}

/// Which type it has to be of behind a token and those before that.
fn wanted_by(
    alloc: Global,
    site: &Site<'_, '_>,
    last: Kind,
    rest: &[Token],
) -> Result<Form, AllocError>
    ensures { IfOk result (λ wanted. wanted ≡ wanted_by (scene_of site.now) last rest.now) }
{
    match last {
        Kind::Assign => form_before(alloc, site.text, site.known, site.tokens, rest),
        Kind::LeftParen | Kind::Comma => {
            parameter_form(alloc, site.text, site.known, site.tokens, site.before)
        }
        Kind::If | Kind::Elsif | Kind::While | Kind::Until => Ok(Form::Boolean),
        Kind::Array | Kind::LeftBracket => Ok(Form::Integer),
        _ => Ok(Form::Unknown),
    }
}

/// Notes what is told of an expression whose first operand has this role, by the type that is wanted and the one that is found.
fn note_expression(
    facts: &mut Vec<Fact>,
    site: &Site<'_, '_>,
    role: Role,
    wanted: Form,
    found: Form,
) -> Result<(), AllocError> {
    if matches!(role, Role::Compared) && matches!(found, Form::Array | Form::Record) {
        facts.push(Fact::WholeCompared)?;
        return Ok(());
    }
    let is_assigned = is_kind(site.last(), Kind::Assign);
    let is_actual = matches!(role, Role::Actual);
    let fact = match wanted {
        Form::Integer | Form::Boolean if matches!(role, Role::Joined) => Some(operand_than(found)),
        Form::Integer | Form::Boolean => Some(other_than(found)),
        Form::Array => Some(match found {
            _ if is_assigned => Fact::ArrayAssigned,
            Form::Array if is_actual => Fact::TwoArrays,
            Form::Array => Fact::ArrayThere,
            _ => other_than(found),
        }),
        Form::Record => Some(match found {
            _ if is_assigned => Fact::RecordAssigned,
            Form::Record if is_actual => Fact::TwoRecords,
            Form::Record => Fact::RecordThere,
            _ => other_than(found),
        }),
        _ => match found {
            Form::Array => Some(Fact::ArrayThere),
            Form::Record => Some(Fact::RecordThere),
            _ => None,
        },
    };
    let Some(fact) = fact else {
        return Ok(());
    };
    let is_other = matches!(
        fact,
        Fact::OtherSingle | Fact::OtherWhole | Fact::OtherUnknown
    );
    note(facts, is_other, Fact::Other)?;
    note(facts, true, fact)?;
    let is_whole = matches!(fact, Fact::ArrayAssigned | Fact::RecordAssigned);
    let is_single = matches!(other_than(found), Fact::OtherSingle);
    note(facts, is_whole && is_single, Fact::OtherSingle)
}

/// What is told of an expression of this type where another one is wanted.
fn other_than(found: Form) -> Fact {
    match found {
        Form::Integer | Form::Boolean | Form::Single => Fact::OtherSingle,
        Form::Array | Form::Record => Fact::OtherWhole,
        Form::Unknown => Fact::OtherUnknown,
    }
}

/// The same of the first operand of several.
fn operand_than(found: Form) -> Fact {
    match found {
        Form::Array => Fact::ArrayThere,
        Form::Record => Fact::RecordThere,
        _ => other_than(found),
    }
}

/// Notes a whole array or a whole record that stands before the place.
pub fn note_whole(
    facts: &mut Vec<Fact>,
    alloc: Global,
    site: &Site<'_, '_>,
) -> Result<(), AllocError>
    ensures { OnOk result (facts.new.items ≡ with_whole facts.old.items (form_ended (scene_of site.now))) }
{
    match form_ended(alloc, site)? {
        Form::Array => note(facts, true, Fact::ArrayBefore),
        Form::Record => note(facts, true, Fact::RecordBefore),
        _ => Ok(()),
    }
}

/// Of which type what stands before the place is, by the tokens up to there.
fn form_ended(alloc: Global, site: &Site<'_, '_>) -> Result<Form, AllocError>
    ensures { IfOk result (λ form. form ≡ form_ended (scene_of site.now)) }
{
    let tokens: Vec<Token> = site.before.iter().rev().copied().collect(alloc)?;
    form_before(alloc, site.text, site.known, &tokens, site.before)
}

/// Whether operands and operators on them lead to a relation.
fn meets_relation(tokens: &[Token]) -> bool {
    let other = tokens
        .iter()
        .copied()
        .find(|token| !is_of_operand(token.kind));
    match other {
        Some(token) => is_relation(token.kind),
        None => false,
    }
}

fn is_of_operand(kind: Kind) -> bool {
    matches!(
        kind,
        Kind::Ident
            | Kind::Number
            | Kind::Dot
            | Kind::LeftBracket
            | Kind::RightBracket
            | Kind::Plus
            | Kind::Minus
            | Kind::Or
            | Kind::Times
            | Kind::Div
            | Kind::Mod
            | Kind::And
            | Kind::Not
    )
}

/// Whether a type is this one of single values.
fn is_same(single: Form, form: Form) -> bool
    ensures { result ≡ is_same single form }
{
    match single {
        Form::Integer => matches!(form, Form::Integer),
        Form::Boolean => matches!(form, Form::Boolean),
        _ => false,
    }
}

fn told(wanted: Form, found: Form) -> Types
    ensures { result ≡ told wanted found }
{
    Types {
        wanted: type_of(wanted),
        found: type_of(found),
    }
}

/// A type, as it is told.
fn type_of(form: Form) -> Type
    ensures { result ≡ type_of form }
{
    match form {
        Form::Integer => Type::Integer,
        Form::Boolean => Type::Boolean,
        Form::Single => Type::Single,
        Form::Array => Type::Array,
        Form::Record => Type::Record,
        Form::Unknown => Type::Unknown,
    }
}
