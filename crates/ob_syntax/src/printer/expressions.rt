//! The printed text of expressions.

ghost use Rattle.std.specs.Prelude.{◌≡◌, ◌∷◌, [], ◌++◌, string_bytes, OnOk};
ghost use Rattle.ob_grammar.specs.View.{expr_of, operands_in, selectors_in};
ghost use Rattle.ob_syntax.specs.Printing.{spaced, number, fixed, operator_kind, sign_words, expr_words, operand_words, selector_words};

use crate::printer::{push_name, push_word};
use itoa::Buffer;
use ob_grammar::tree::{Expr, Operand, Operator, Selector, Sign};
use ob_interface::NoMemory;

/// Appends an expression.
#[cycle(expr)]
pub(super) fn push_expr(text: &mut String, expr: &Expr) -> Result<(), NoMemory>
    ensures { OnOk result (string_bytes text.new ≡ string_bytes text.old ++ spaced (expr_words (expr_of expr.now))) }
{
    match expr {
        Expr::Number { value, .. } => push_number(text, *value),
        Expr::Named(designator) => {
            push_name(text, &designator.name)?;
            push_selectors(text, &designator.selectors)
        }
        Expr::Parens { inner, .. } => {
            push_word(text, "(")?;
            push_expr(text, inner)?;
            push_word(text, ")")
        }
        Expr::Not { operand, .. } => {
            push_word(text, "~")?;
            push_expr(text, operand)
        }
        Expr::Product { first, rest } => {
            push_expr(text, first)?;
            push_operands(text, rest)
        }
        Expr::Sum { sign, first, rest } => {
            push_sign(text, *sign)?;
            push_expr(text, first)?;
            push_operands(text, rest)
        }
        Expr::Comparison {
            left,
            operator,
            right,
            ..
        } => {
            push_expr(text, left)?;
            push_operator(text, *operator)?;
            push_expr(text, right)
        }
    }
}

/// Appends operators, each with its operand behind it.
#[cycle(expr)]
fn push_operands(text: &mut String, operands: &[Operand]) -> Result<(), NoMemory>
    ensures { OnOk result (string_bytes text.new ≡ string_bytes text.old ++ spaced (operand_words (operands_in operands.now))) }
{
    for operand in operands {
        push_operator(text, operand.operator)?;
        push_expr(text, &operand.value)?;
    }
    Ok(())
}

/// Appends selectors.
#[cycle(expr)]
pub(super) fn push_selectors(text: &mut String, selectors: &[Selector]) -> Result<(), NoMemory>
    ensures { OnOk result (string_bytes text.new ≡ string_bytes text.old ++ spaced (selector_words (selectors_in selectors.now))) }
{
    for selector in selectors {
        push_selector(text, selector)?;
    }
    Ok(())
}

/// Appends a selector.
#[cycle(expr)]
fn push_selector(text: &mut String, selector: &Selector) -> Result<(), NoMemory>
    ensures { OnOk result (string_bytes text.new ≡ string_bytes text.old ++ spaced (selector_words (selectors_in (selector.now ∷ [])))) }
{
    match selector {
        Selector::Field { name, .. } => {
            push_word(text, ".")?;
            push_name(text, name)
        }
        Selector::Index { index, .. } => {
            push_word(text, "[")?;
            push_expr(text, index)?;
            push_word(text, "]")
        }
    }
}

/// Appends a number in decimal digits.
fn push_number(text: &mut String, value: i32) -> Result<(), NoMemory>
    ensures { OnOk result (string_bytes text.new ≡ string_bytes text.old ++ spaced (number value ∷ [])) }
{
    let mut buffer = Buffer::new();
    push_word(text, buffer.format(value))
}

/// Appends a sign, where one stands.
fn push_sign(text: &mut String, sign: Option<Sign>) -> Result<(), NoMemory>
    ensures { OnOk result (string_bytes text.new ≡ string_bytes text.old ++ spaced (sign_words sign)) }
{
    match sign {
        None => Ok(()),
        Some(Sign { is_minus: true, .. }) => push_word(text, "-"),
        Some(_) => push_word(text, "+"),
    }
}

/// Appends an operator.
fn push_operator(text: &mut String, operator: Operator) -> Result<(), NoMemory>
    ensures { OnOk result (string_bytes text.new ≡ string_bytes text.old ++ spaced (fixed (operator_kind operator) ∷ [])) }
{
    let word = match operator {
        Operator::Equal => "=",
        Operator::NotEqual => "#",
        Operator::Less => "<",
        Operator::LessOrEqual => "<=",
        Operator::Greater => ">",
        Operator::GreaterOrEqual => ">=",
        Operator::Plus => "+",
        Operator::Minus => "-",
        Operator::Or => "OR",
        Operator::Times => "*",
        Operator::Div => "DIV",
        Operator::Mod => "MOD",
        Operator::And => "&",
    };
    push_word(text, word)
}
