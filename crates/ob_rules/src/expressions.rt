//! Expressions. Their operands are taken one after another, so that a long chain is no deep recursion.

ghost use Rattle.std.specs.Prelude.{◌≡◌, IfOk, IfErr};
ghost use Rattle.ob_grammar.specs.Tree as trees;
ghost use Rattle.ob_grammar.specs.View.{expr_of, operands_in, selectors_in, name_of};
ghost use Rattle.ob_typing.specs.Program as Programs;
ghost use Rattle.ob_typing.specs.ExpressionFaults.{first_place};
ghost use Rattle.ob_typing.specs.Verdict.{Verdict, Right};
ghost use Rattle.ob_typing.specs.ExpressionVerdicts as Verdicts;
ghost use Rattle.ob_checked.specs.Types.{type_in};
ghost use Rattle.ob_scopes.specs.Usages.{use_of};
ghost use Rattle.ob_checked.specs.View.{table_of};
ghost use Rattle.ob_scopes.specs.Names.{types_in, env_of};
ghost use Rattle.ob_rules.specs.ByScopes.{named_value_by, selecting_by};
ghost use Rattle.ob_rules.specs.Checking.{Fails, chain_of, chained, compared, complemented, literal, path_of, signed, typed_of};
ghost use Rattle.ob_rules.specs.Checking.{designator_in, fielded, indexed, selector_before};
ghost use Rattle.ob_rules.specs.FirstParts.{ElementLeadsTo, FieldLeadsTo, SelectorLeadsTo};

use ob_checked::operators::type_of;
use ob_checked::program::{Designator, Expression, Operation, Selector, Slot};
use ob_checked::types::{DataType, Types};
use ob_checked::written_operators::{
    compares, operator_of, relation_of, same_scalar_type, takes_both,
};
use ob_grammar::tree;
use ob_grammar::tree::{Expr, Name, Operand, Operator, Sign};
use ob_interface::scalar::{Scalar, ScalarType};
use ob_scopes::constants::{
    Usage, behind, known, value_behind, value_compared, value_complement, value_signed,
};
use ob_scopes::fault::{CheckFault, broken};
use ob_scopes::meant::value_meant;
use ob_scopes::scopes::{Scopes, Value};
use ob_scopes::type_parts::{elements_of, field_named, fields_of, simple_type};
use ob_typing::rule::Rule;
use std::alloc::Global;

/// An expression with its type, and its value where it is known.
#[derive(Drop)]
pub struct Typed {
    pub data_type: ScalarType,
    pub code: Expression,
    pub value: Option<Scalar>,
}

/// The operators and operands behind a first operand, and the value in the end where it is known.
#[derive(Drop)]
pub struct Chain {
    pub operations: Vec<Operation>,
    pub value: Option<Scalar>,
}

/// Where selectors lead.
#[derive(Drop)]
pub struct Path {
    pub data_type: DataType,
    pub selectors: Vec<Selector>,
}

/// The checked expression of a tree.
#[cycle(expression)]
pub fn expression(
    alloc: Global,
    scopes: &Scopes,
    expr: &Expr,
    usage: Usage,
) -> Result<Typed, CheckFault>
    ensures typed { IfOk result (λ x. Verdicts.expression (env_of scopes.now) (expr_of expr.now) (use_of usage) ≡ Right (typed_of x)) }
    ensures fault { IfErr result (λ f. Fails f (Verdicts.expression (env_of scopes.now) (expr_of expr.now) (use_of usage))) }
{
    match expr {
        Expr::Number { value, .. } => Ok(literal(Scalar::Int(*value), usage)),
        Expr::Named(designator) => named(alloc, scopes, designator, usage),
        Expr::Parens { inner, .. } => expression(alloc, scopes, inner, usage),
        Expr::Not { place, operand } => {
            let operand = expression(alloc, scopes, operand, usage)?;
            complement(alloc, operand, *place)
        }
        Expr::Product { first, rest } => {
            let first = expression(alloc, scopes, first, usage)?;
            let rest = operands(alloc, scopes, rest, usage, first.data_type, first.value)?;
            joined(alloc, first, rest)
        }
        Expr::Sum { sign, first, rest } => {
            let first = expression(alloc, scopes, first, usage)?;
            let first = with_sign(alloc, *sign, first)?;
            let rest = operands(alloc, scopes, rest, usage, first.data_type, first.value)?;
            joined(alloc, first, rest)
        }
        Expr::Comparison {
            left,
            operator,
            place,
            right,
        } => {
            let left = expression(alloc, scopes, left, usage)?;
            let right = expression(alloc, scopes, right, usage)?;
            comparison(alloc, left, *operator, *place, right)
        }
    }
}

/// A name with its selectors.
#[cycle(expression)]
fn named(
    alloc: Global,
    scopes: &Scopes,
    designator: &tree::Designator,
    usage: Usage,
) -> Result<Typed, CheckFault>
    ensures typed { IfOk result (λ x. Verdicts.expression (env_of scopes.now) (designator_in designator.now) (use_of usage) ≡ Right (typed_of x)) }
    ensures fault { IfErr result (λ f. Fails f (Verdicts.expression (env_of scopes.now) (designator_in designator.now) (use_of usage))) }
{
    let meant = scopes.meant(&designator.name.text);
    let value = match value_meant(&meant, usage) {
        Ok(value) => value,
        Err(rule) => return Err(broken(rule, designator.name.place)),
    };
    let path = selecting(
        alloc,
        scopes,
        &designator.selectors,
        usage,
        value.data_type(),
    )?;
    value_at(scopes.types(), &designator.name, value, path, usage)
}

/// Where selectors lead, from a type.
#[cycle(expression)]
pub fn selecting(
    alloc: Global,
    scopes: &Scopes,
    selectors: &[tree::Selector],
    usage: Usage,
    whole: DataType,
) -> Result<Path, CheckFault>
    ensures typed { IfOk result (λ x. selecting_by scopes.now (selectors_in selectors.now) usage whole ≡ Right (path_of (types_in scopes.now) x)) }
    ensures fault { IfErr result (λ f. Fails f (selecting_by scopes.now (selectors_in selectors.now) usage whole)) }
{
    let mut selected = Vec::new(alloc);
    let mut data_type = whole;
    for selector in selectors {
        let (part, of_type) = selection(alloc, scopes, selector, usage, data_type)?;
        data_type = of_type;
        selected.push(part)?;
    }
    Ok(Path {
        data_type,
        selectors: selected,
    })
}

/// One selector of a part of a type, and the type to which it leads.
#[cycle(expression)]
fn selection(
    alloc: Global,
    scopes: &Scopes,
    selector: &tree::Selector,
    usage: Usage,
    whole: DataType,
) -> Result<(Selector, DataType), CheckFault>
    ensures typed { IfOk result (λ x. SelectorLeadsTo scopes.now selector.now usage whole x) }
    ensures fault { IfErr result (λ f. (rest : trees.Selectors) → Fails f (selecting_by scopes.now (selector_before selector.now rest) usage whole)) }
{
    match selector {
        tree::Selector::Field { place, name } => field(scopes.types(), whole, *place, name),
        tree::Selector::Index { place, index } => {
            let checked = expression(alloc, scopes, index, usage)?;
            element(scopes.types(), whole, *place, first_place(index), checked)
        }
    }
}

/// The operators and operands behind an operand of a type, and its value where it is known.
#[cycle(expression)]
fn operands(
    alloc: Global,
    scopes: &Scopes,
    operands: &[Operand],
    usage: Usage,
    data_type: ScalarType,
    first: Option<Scalar>,
) -> Result<Chain, CheckFault>
    ensures typed { IfOk result (λ x. Verdicts.operands (env_of scopes.now) (operands_in operands.now) (use_of usage) data_type first ≡ Right (chain_of x)) }
    ensures fault { IfErr result (λ f. Fails f (Verdicts.operands (env_of scopes.now) (operands_in operands.now) (use_of usage) data_type first)) }
{
    let mut operations = Vec::new(alloc);
    let mut value = first;
    for o in operands {
        let Some(operator) = operator_of(o.operator) else {
            return Err(broken(Rule::TypesDiffer, o.place));
        };
        let operand = expression(alloc, scopes, &o.value, behind(usage, operator, value))?;
        if !takes_both(operator, data_type, operand.data_type) {
            return Err(broken(Rule::TypesDiffer, o.place));
        }
        let Ok(next) = value_behind(operator, value, operand.value) else {
            return Err(broken(Rule::BadConstant, o.place));
        };
        value = next;
        let operand = operand.code;
        operations.push(Operation { operator, operand })?;
    }
    Ok(Chain { operations, value })
}

/// A number or a constant.
fn literal(value: Scalar, usage: Usage) -> Typed
    ensures { typed_of result ≡ literal (use_of usage) value }
{
    Typed {
        data_type: type_of(value),
        code: Expression::Literal(value),
        value: known(usage, value),
    }
}

/// What `~` makes of its operand.
fn complement(alloc: Global, operand: Typed, place: usize) -> Result<Typed, CheckFault>
    ensures typed { IfOk result (λ x. complemented place (typed_of operand) ≡ Right (typed_of x)) }
    ensures fault { IfErr result (λ f. Fails f (complemented place (typed_of operand))) }
{
    if !same_scalar_type(operand.data_type, ScalarType::Boolean) {
        return Err(broken(Rule::TypesDiffer, place));
    }
    Ok(Typed {
        data_type: ScalarType::Boolean,
        code: Expression::Complement(Box::new(alloc, operand.code)?),
        value: value_complement(operand.value),
    })
}

/// A first term behind its sign; `+` leaves it as it is.
fn with_sign(alloc: Global, sign: Option<Sign>, operand: Typed) -> Result<Typed, CheckFault>
    ensures typed { IfOk result (λ x. signed sign (typed_of operand) ≡ Right (typed_of x)) }
    ensures fault { IfErr result (λ f. Fails f (signed sign (typed_of operand))) }
{
    let Some(written) = sign else {
        return Ok(operand);
    };
    if !same_scalar_type(operand.data_type, ScalarType::Integer) {
        return Err(broken(Rule::TypesDiffer, written.place));
    }
    let Ok(value) = value_signed(sign, operand.value) else {
        return Err(broken(Rule::BadConstant, written.place));
    };
    let data_type = operand.data_type;
    let code = operand.code;
    if !written.is_minus {
        return Ok(Typed {
            data_type,
            code,
            value,
        });
    }
    let code = Expression::Negated(Box::new(alloc, code)?);
    Ok(Typed {
        data_type,
        code,
        value,
    })
}

/// A chain of its first operand and the others.
fn joined(alloc: Global, first: Typed, rest: Chain) -> Result<Typed, CheckFault>
    ensures typed { IfOk result (λ x. typed_of x ≡ chained (typed_of first) (chain_of rest)) }
    ensures fault { IfErr result (λ f. f ≡ CheckFault.NoMemory) }
{
    Ok(Typed {
        data_type: first.data_type,
        code: Expression::Computed {
            first: Box::new(alloc, first.code)?,
            rest: rest.operations,
        },
        value: rest.value,
    })
}

/// A comparison of its operands.
fn comparison(
    alloc: Global,
    left: Typed,
    operator: Operator,
    place: usize,
    right: Typed,
) -> Result<Typed, CheckFault>
    ensures typed { IfOk result (λ x. compared operator place (typed_of left) (typed_of right) ≡ Right (typed_of x)) }
    ensures fault { IfErr result (λ f. Fails f (compared operator place (typed_of left) (typed_of right))) }
{
    let Some(relation) = relation_of(operator) else {
        return Err(broken(Rule::TypesDiffer, place));
    };
    if !compares(relation, left.data_type, right.data_type) {
        return Err(broken(Rule::TypesDiffer, place));
    }
    Ok(Typed {
        data_type: ScalarType::Boolean,
        code: Expression::Compared {
            relation,
            left: Box::new(alloc, left.code)?,
            right: Box::new(alloc, right.code)?,
        },
        value: value_compared(relation, left.value, right.value),
    })
}

/// A field of a record.
fn field(
    types: &Types,
    whole: DataType,
    place: usize,
    name: &Name,
) -> Result<(Selector, DataType), CheckFault>
    ensures typed { IfOk result (λ x. FieldLeadsTo types.now place name.now whole x) }
    ensures fault { IfErr result (λ f. (go : Programs.DataType → Verdict Verdicts.Path) → Fails f (fielded place (name_of name.now) (type_in (table_of types.now) whole) go)) }
{
    let Some(fields) = fields_of(types, whole) else {
        return Err(broken(Rule::WrongKind, place));
    };
    let Some((position, data_type)) = field_named(fields, &name.text) else {
        return Err(broken(Rule::UnknownName, name.place));
    };
    let name = name.text.clone()?;
    Ok((Selector::Field { position, name }, data_type))
}

/// An element of an array by its index, which begins at a place.
fn element(
    types: &Types,
    whole: DataType,
    place: usize,
    first: usize,
    index: Typed,
) -> Result<(Selector, DataType), CheckFault>
    ensures typed { IfOk result (λ x. ElementLeadsTo types.now place first index whole x) }
    ensures fault { IfErr result (λ f. (go : Programs.DataType → Verdict Verdicts.Path) → Fails f (indexed place first (type_in (table_of types.now) whole) (typed_of index) go)) }
{
    if !same_scalar_type(index.data_type, ScalarType::Integer) {
        return Err(broken(Rule::TypesDiffer, first));
    }
    let Some((length, data_type)) = elements_of(types, whole) else {
        return Err(broken(Rule::WrongKind, place));
    };
    let index = index.code;
    Ok((Selector::Element { length, index }, data_type))
}

/// The value of a constant, or of a variable or a part of it, which is not structured.
fn value_at(
    types: &Types,
    name: &Name,
    value: Value,
    path: Path,
    usage: Usage,
) -> Result<Typed, CheckFault>
    ensures typed { IfOk result (λ x. named_value_by types.now name.now value usage path ≡ Right (typed_of x)) }
    ensures fault { IfErr result (λ f. Fails f (named_value_by types.now name.now value usage path)) }
{
    match value {
        Value::Constant(value) => Ok(literal(value, usage)),
        Value::Variable {
            owner,
            position,
            ..
        } => {
            let Some(data_type) = simple_type(types, path.data_type) else {
                return Err(broken(Rule::TypesDiffer, name.place));
            };
            let name = name.text.clone()?;
            let slot = Slot {
                owner,
                position,
                name,
            };
            let selectors = path.selectors;
            let variable = Designator { slot, selectors };
            Ok(Typed {
                data_type,
                code: Expression::ValueOf {
                    data_type,
                    variable,
                },
                value: None,
            })
        }
    }
}

/// Where an expression begins.
pub fn first_place(expr: &Expr) -> usize
    ensures { result ≡ first_place (expr_of expr.now) }
{
    match expr {
        Expr::Number { place, .. } | Expr::Parens { place, .. } | Expr::Not { place, .. } => *place,
        Expr::Named(designator) => designator.name.place,
        Expr::Product { first, .. } => first_place(first),
        Expr::Sum { sign, first, .. } => match sign {
            Some(sign) => sign.place,
            None => first_place(first),
        },
        Expr::Comparison { left, .. } => first_place(left),
    }
}
