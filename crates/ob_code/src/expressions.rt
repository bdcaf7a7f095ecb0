//! The code of expressions and of addresses, behind code that stands already.

ghost use Rattle.std.specs.Prelude.{◌≡◌, [], ◌∷◌, IfOk, OnOk};
ghost use Rattle.ob_code_scheme.specs.Layout as Layout;
ghost use Rattle.ob_code_scheme.specs.Scheme as Scheme;
ghost use Rattle.ob_code_scheme.specs.Types as Sizes;
ghost use Rattle.ob_checked.specs.View.{owner_of, expression_of, operations_in, selectors_in, designator_of};
ghost use Rattle.ob_code.specs.Behind.{designator_behind, operation_behind, operations_behind, selectors_behind, value_behind, variable_behind};
ghost use Rattle.ob_code.specs.Growing.{selected};
ghost use Rattle.ob_code.specs.Limits.{IsWithinLimits};
ghost use Rattle.ob_code.specs.Scoped.{scope_in, type_in};

use crate::growth::push;
use crate::scopes::Scopes;
use ob_checked::program::{Designator, Expression, Operation, Owner, Selector, Slot};
use ob_checked::types::DataType;
use ob_code_machine::{Code, Instr};
use ob_interface::scalar::Scalar;
use ob_typing::operator::{BinaryOperator, Relation};
use std::alloc::AllocError;

/// The number of a literal: TRUE is 1 and FALSE is 0.
fn number_of(scalar: Scalar) -> i32
    ensures { result ≡ Layout.word scalar }
{
    match scalar {
        Scalar::Int(number) => number,
        Scalar::Bool(truth) => i32::from(truth),
    }
}

fn relation_instruction(relation: Relation) -> Instr
    ensures { result ≡ Scheme.relation_instruction relation }
{
    match relation {
        Relation::Equal => Instr::Equal,
        Relation::NotEqual => Instr::NotEqual,
        Relation::Less => Instr::Less,
        Relation::LessOrEqual => Instr::LessOrEqual,
        Relation::Greater => Instr::Greater,
        Relation::GreaterOrEqual => Instr::GreaterOrEqual,
    }
}

/// The address of a variable, and its type.
fn put_variable(scopes: &Scopes<'_>, code: &mut Code, slot: &Slot) -> Result<DataType, AllocError>
    requires { IsWithinLimits (variable_behind scopes.now code.old slot.now) }
    ensures code { OnOk result (code.new ≡ variable_behind scopes.now code.old slot.now) }
    ensures data_type { IfOk result (λ t. type_in scopes.now t ≡ Sizes.type_at (scope_in scopes.now (owner_of slot.now.owner)) slot.now.position) }
{
    let place = scopes.variable(slot.owner, slot.position);
    let word = place.word as u16;
    match slot.owner {
        Owner::Module => push(code, Instr::Global { word })?,
        Owner::Own => {
            push(code, Instr::Local { word })?;
            if place.is_var {
                push(code, Instr::Get)?;
            }
        }
    }
    Ok(place.data_type)
}

/// The value of an expression.
#[cycle(values)]
pub fn put_expression(
    scopes: &Scopes<'_>,
    code: &mut Code,
    expression: &Expression,
) -> Result<(), AllocError>
    requires { IsWithinLimits (value_behind scopes.now code.old (expression_of expression.now)) }
    ensures { OnOk result (code.new ≡ value_behind scopes.now code.old (expression_of expression.now)) }
{
    match expression {
        Expression::Literal(scalar) => push(
            code,
            Instr::Literal {
                value: number_of(*scalar),
            },
        ),
        Expression::ValueOf { variable, .. } => {
            put_designator(scopes, code, variable)?;
            push(code, Instr::Get)
        }
        Expression::Negated(operand) => {
            put_expression(scopes, code, operand)?;
            push(code, Instr::Negate)
        }
        Expression::Complement(operand) => {
            put_expression(scopes, code, operand)?;
            push(code, Instr::Not)
        }
        Expression::Computed { first, rest } => {
            put_expression(scopes, code, first)?;
            put_operations(scopes, code, rest.as_slice())
        }
        Expression::Compared {
            relation,
            left,
            right,
        } => {
            put_expression(scopes, code, left)?;
            put_expression(scopes, code, right)?;
            push(code, relation_instruction(*relation))
        }
    }
}

/// Operators and operands, behind the value of what stands before them.
#[cycle(values)]
fn put_operations(
    scopes: &Scopes<'_>,
    code: &mut Code,
    operations: &[Operation],
) -> Result<(), AllocError>
    requires { IsWithinLimits (operations_behind scopes.now code.old (operations_in operations.now)) }
    ensures { OnOk result (code.new ≡ operations_behind scopes.now code.old (operations_in operations.now)) }
{
    for operation in operations {
        put_operation(scopes, code, operation)?;
    }
    Ok(())
}

/// An operator and its operand: an operand with its instruction, or the jump over it.
#[cycle(values)]
fn put_operation(
    scopes: &Scopes<'_>,
    code: &mut Code,
    operation: &Operation,
) -> Result<(), AllocError>
    requires { IsWithinLimits (operation_behind scopes.now code.old operation.now) }
    ensures { OnOk result (code.new ≡ operation_behind scopes.now code.old operation.now) }
{
    let place = code.end();
    match operation.operator {
        BinaryOperator::And => {
            push(code, Instr::AndJump { target: 0 })?;
            put_expression(scopes, code, &operation.operand)?;
            let target = code.end();
            code.set(place, Instr::AndJump { target });
            Ok(())
        }
        BinaryOperator::Or => {
            push(code, Instr::OrJump { target: 0 })?;
            put_expression(scopes, code, &operation.operand)?;
            let target = code.end();
            code.set(place, Instr::OrJump { target });
            Ok(())
        }
        BinaryOperator::Plus => {
            put_expression(scopes, code, &operation.operand)?;
            push(code, Instr::Add)
        }
        BinaryOperator::Minus => {
            put_expression(scopes, code, &operation.operand)?;
            push(code, Instr::Subtract)
        }
        BinaryOperator::Times => {
            put_expression(scopes, code, &operation.operand)?;
            push(code, Instr::Multiply)
        }
        BinaryOperator::Div => {
            put_expression(scopes, code, &operation.operand)?;
            push(code, Instr::Divide)
        }
        BinaryOperator::Mod => {
            put_expression(scopes, code, &operation.operand)?;
            push(code, Instr::Modulo)
        }
    }
}

/// From the address of something to that of a part of it, and the type of the part.
#[cycle(values)]
fn put_selector(
    scopes: &Scopes<'_>,
    code: &mut Code,
    data_type: DataType,
    selector: &Selector,
) -> Result<DataType, AllocError>
    requires { IsWithinLimits (selectors_behind scopes.now code.old (type_in scopes.now data_type) (selectors_in (selector.now ∷ []))) }
    ensures code { OnOk result (code.new ≡ selectors_behind scopes.now code.old (type_in scopes.now data_type) (selectors_in (selector.now ∷ []))) }
    ensures data_type { IfOk result (λ t. type_in scopes.now t ≡ selected (type_in scopes.now data_type) selector.now) }
{
    match selector {
        Selector::Field { position, .. } => {
            let offset = scopes.layout.part_offset(data_type, *position) as u16;
            push(code, Instr::Field { offset })?;
            Ok(scopes.layout.part_type(data_type, *position))
        }
        Selector::Element { length, index } => {
            let element = scopes.layout.part_type(data_type, 0);
            let length = *length as u16;
            let element_words = scopes.layout.words(element) as u16;
            put_expression(scopes, code, index)?;
            push(
                code,
                Instr::Index {
                    length,
                    element_words,
                },
            )?;
            Ok(element)
        }
    }
}

/// The address of a variable or of a part of it.
#[cycle(values)]
pub fn put_designator(
    scopes: &Scopes<'_>,
    code: &mut Code,
    designator: &Designator,
) -> Result<(), AllocError>
    requires { IsWithinLimits (designator_behind scopes.now code.old (designator_of designator.now)) }
    ensures { OnOk result (code.new ≡ designator_behind scopes.now code.old (designator_of designator.now)) }
{
    let mut data_type = put_variable(scopes, code, &designator.slot)?;
    for selector in &designator.selectors {
        data_type = put_selector(scopes, code, data_type, selector)?;
    }
    Ok(())
}
