//! The checked program, as the crates above read it.

use crate::types::{DataType, Types};
use ob_interface::scalar::{Scalar, ScalarType};
use ob_typing::operator::{BinaryOperator, Relation};

/// Variables in text order, procedures in the order of their headings, nested ones too.
#[derive(Drop)]
pub struct Program {
    pub types: Types,
    pub variables: Vec<Variable>,
    pub procedures: Vec<Procedure>,
    pub body: Vec<Statement>,
}

#[derive(Drop)]
pub struct Variable {
    pub name: String,
    pub data_type: DataType,
}

#[derive(Drop)]
pub struct Parameter {
    pub name: String,
    pub is_var: bool,
    pub data_type: DataType,
}

#[derive(Drop)]
pub struct Procedure {
    pub name: String,
    pub is_exported: bool,
    pub parameters: Vec<Parameter>,
    pub variables: Vec<Variable>,
    pub body: Vec<Statement>,
}

/// Whose a variable is: the module's, or the procedure's own.
#[derive(Clone, Copy, PartialEq, Eq)]
pub enum Owner {
    Module,
    Own,
}

/// A variable: its owner, its position among the owner's parameters and variables, and its name.
#[derive(Drop)]
pub struct Slot {
    pub owner: Owner,
    pub position: usize,
    pub name: String,
}

/// A statement; an empty one leaves nothing.
#[cycle(statements)]
#[derive(Drop)]
pub enum Statement {
    Assign {
        target: Designator,
        value: Expression,
    },
    /// The number of the procedure in the order of headings.
    Call {
        procedure: usize,
        actuals: Vec<Actual>,
    },
    /// IF with each ELSIF, and ELSE where it stands.
    If {
        branches: Vec<Branch>,
        otherwise: Option<Vec<Statement>>,
    },
    While {
        condition: Expression,
        body: Vec<Statement>,
    },
    Repeat {
        body: Vec<Statement>,
        condition: Expression,
    },
}

/// A condition with the statements behind THEN.
#[cycle(statements)]
#[derive(Drop)]
pub struct Branch {
    pub condition: Expression,
    pub body: Vec<Statement>,
}

/// What a call passes: the value of an expression, or the place of a variable.
#[derive(Drop)]
pub enum Actual {
    Value(Expression),
    Place(Designator),
}

/// An expression with a scalar value.
#[cycle(expressions)]
#[derive(Drop)]
pub enum Expression {
    Literal(Scalar),
    ValueOf {
        data_type: ScalarType,
        variable: Designator,
    },
    Negated(Box<Expression>),
    Complement(Box<Expression>),
    /// A first operand, and from the left each operator with the operand to its right.
    Computed {
        first: Box<Expression>,
        rest: Vec<Operation>,
    },
    Compared {
        relation: Relation,
        left: Box<Expression>,
        right: Box<Expression>,
    },
}

/// An operator and the operand to its right.
#[cycle(expressions)]
#[derive(Drop)]
pub struct Operation {
    pub operator: BinaryOperator,
    pub operand: Expression,
}

/// A variable or a part of it.
#[cycle(expressions)]
#[derive(Drop)]
pub struct Designator {
    pub slot: Slot,
    pub selectors: Vec<Selector>,
}

/// A field with its position in the record and its name, or an element with the array's length.
#[cycle(expressions)]
#[derive(Drop)]
pub enum Selector {
    Field { position: usize, name: String },
    Element { length: usize, index: Expression },
}
