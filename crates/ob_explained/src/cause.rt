//! What is said of an operation that traps.

ghost use Rattle.std.specs.Prelude.{◌≡◌, ◌++◌, IfOk, OnOk, string_bytes};
ghost use Rattle.ob_explained.specs.TrapSentences.{cause_sentence, index_sentence, negation_sentence, operation_sentence, turns_sentence};
ghost use Rattle.ob_explained.specs.TrapSentences.{index_text, indices_text, operand_text, operator_text, reason_text, runner_text, turns_of};
ghost use Rattle.ob_trap_places.specs.Reaching.{cause_of};

use ob_interface::scalar::Scalar;
use ob_mean::openings::MOST_TURNS;
use ob_text_words::numbers::push_number;
use ob_text_words::scalar_words::push_value;
use ob_trap_places::site::Cause;
use ob_typing::operator::BinaryOperator;
use std::alloc::{AllocError, Global};

/// Of a result that is no INTEGER.
const OUTSIDE: &str = " is outside the range of INTEGER, -2147483648 to 2147483647";

/// Of a divisor that is too small.
const DIVISOR: &str = " has no value, since a divisor is at least 1";

/// Who runs, and has the turns of which none is left.
#[derive(Clone, Copy)]
pub enum Runner {
    /// A call from outside, with this budget.
    Call(u64),
    /// The module's body, of which the sentence speaks.
    Body,
}

/// What could not be done, with its values.
pub fn cause_sentence(alloc: Global, runner: Runner, cause: Cause) -> Result<String, AllocError>
    ensures { IfOk result (λ sentence. string_bytes sentence ≡ cause_sentence runner (cause_of cause)) }
{
    let mut sentence = String::new(alloc);
    push_cause(&mut sentence, runner, cause)?;
    Ok(sentence)
}

/// Appends what could not be done.
pub(crate) fn push_cause(
    sentence: &mut String,
    runner: Runner,
    cause: Cause,
) -> Result<(), AllocError>
    ensures { OnOk result (string_bytes sentence.new ≡ string_bytes sentence.old ++ cause_sentence runner (cause_of cause)) }
{
    match cause {
        Cause::Operating {
            operator,
            left,
            right,
        } => push_operation(sentence, operator, left, right),
        Cause::Negating(operand) => push_negation(sentence, operand),
        Cause::Indexing { length, index } => push_index(sentence, length, index),
        Cause::Activating => {
            sentence.push_str(
                "at most 64 procedures are active within one another, and this would be the 65th",
            )
        }
        Cause::Turning => push_turns(sentence, runner),
    }
}

/// Appends an operator between its operands, and why it has no result.
fn push_operation(
    sentence: &mut String,
    operator: BinaryOperator,
    left: Scalar,
    right: Scalar,
) -> Result<(), AllocError>
    ensures { OnOk result (string_bytes sentence.new ≡ string_bytes sentence.old ++ operation_sentence operator left right) }
{
    push_value(sentence, left)?;
    sentence.push_str(operator_text(operator))?;
    push_operand(sentence, right)?;
    sentence.push_str(reason_text(operator))
}

/// How an operator is written between its operands.
fn operator_text(operator: BinaryOperator) -> &'static str
    ensures { result.now ≡ operator_text operator }
{
    match operator {
        BinaryOperator::Plus => " + ",
        BinaryOperator::Minus => " - ",
        BinaryOperator::Times => " * ",
        BinaryOperator::Div => " DIV ",
        BinaryOperator::Mod => " MOD ",
        BinaryOperator::And => " & ",
        BinaryOperator::Or => " OR ",
    }
}

/// Why an operator has no result.
fn reason_text(operator: BinaryOperator) -> &'static str
    ensures { result.now ≡ reason_text operator }
{
    match operator {
        BinaryOperator::Div | BinaryOperator::Mod => DIVISOR,
        _ => OUTSIDE,
    }
}

/// Appends a value behind a sign or an operator: a number below 0 in parentheses.
fn push_operand(sentence: &mut String, operand: Scalar) -> Result<(), AllocError>
    ensures { OnOk result (string_bytes sentence.new ≡ string_bytes sentence.old ++ operand_text operand) }
{
    match operand {
        Scalar::Int(number) => {
            if number < 0 {
                sentence.push_str("(")?;
                push_number(sentence, number)?;
                return sentence.push_str(")");
            }
            push_number(sentence, number)
        }
        Scalar::Bool(_) => push_value(sentence, operand),
    }
}

/// Appends a minus sign before its operand, and why it has no result.
fn push_negation(sentence: &mut String, operand: Scalar) -> Result<(), AllocError>
    ensures { OnOk result (string_bytes sentence.new ≡ string_bytes sentence.old ++ negation_sentence operand) }
{
    sentence.push_str("-")?;
    push_operand(sentence, operand)?;
    sentence.push_str(OUTSIDE)
}

/// Appends an index, and those that an array of so many elements has.
fn push_index(sentence: &mut String, length: usize, index: i32) -> Result<(), AllocError>
    ensures { OnOk result (string_bytes sentence.new ≡ string_bytes sentence.old ++ index_sentence length index) }
{
    push_given(sentence, index)?;
    push_indices(sentence, length)
}

/// Appends an index.
#[tactic(auto, unfolding(crate::specs::TrapSentences::index_text))]
fn push_given(sentence: &mut String, index: i32) -> Result<(), AllocError>
    ensures { OnOk result (string_bytes sentence.new ≡ string_bytes sentence.old ++ index_text index) }
{
    sentence.push_str("the index is ")?;
    push_number(sentence, index)
}

/// Appends the indices that an array of so many elements has.
#[tactic(auto, unfolding(crate::specs::TrapSentences::indices_text))]
fn push_indices(sentence: &mut String, length: usize) -> Result<(), AllocError>
    ensures { OnOk result (string_bytes sentence.new ≡ string_bytes sentence.old ++ indices_text length) }
{
    sentence.push_str(", and the array has the indices 0 to ")?;
    push_number(sentence, length.saturating_sub(1))
}

/// Appends how many turns there are, of which none is left.
fn push_turns(sentence: &mut String, runner: Runner) -> Result<(), AllocError>
    ensures { OnOk result (string_bytes sentence.new ≡ string_bytes sentence.old ++ turns_sentence runner) }
{
    sentence.push_str("no turn is left of the ")?;
    push_number(sentence, turns_of(runner))?;
    sentence.push_str(runner_text(runner))
}

/// How many turns there are.
fn turns_of(runner: Runner) -> u64
    ensures { result ≡ turns_of runner }
{
    match runner {
        Runner::Call(budget) => budget,
        Runner::Body => MOST_TURNS,
    }
}

/// Who has these turns.
fn runner_text(runner: Runner) -> &'static str
    ensures { result.now ≡ runner_text runner }
{
    match runner {
        Runner::Call(_) => " that a call has for its loops and calls",
        Runner::Body => " that it has for its loops and calls",
    }
}
