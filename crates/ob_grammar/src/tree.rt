//! The tree of a module, part by part in the order of the grammar. A place is a byte offset of the text.

/// How many constructs may stand within one another: procedure declarations, ARRAY and RECORD types,
/// IF, WHILE, REPEAT, and in expressions parentheses, brackets and `~`.
pub const DEEPEST_NESTING: usize = 100;

const _: () = prove!(DEEPEST_NESTING == 100);

/// An occurrence of a name.
#[derive(Drop)]
pub struct Name {
    pub text: String,
    pub place: usize,
}

/// An operator between two operands.
#[derive(Clone, Copy, PartialEq, Eq)]
pub enum Operator {
    Equal,
    NotEqual,
    Less,
    LessOrEqual,
    Greater,
    GreaterOrEqual,
    Plus,
    Minus,
    Or,
    Times,
    Div,
    Mod,
    And,
}

/// The sign before a first term.
#[derive(Clone, Copy)]
pub struct Sign {
    pub is_minus: bool,
    pub place: usize,
}

/// An expression as it is written.
#[cycle(expr)]
#[derive(Drop)]
pub enum Expr {
    /// A number: 0 to 2147483647 in a tree that was parsed.
    Number {
        value: i32,
        place: usize,
    },
    /// A name with its selectors.
    Named(Designator),
    /// An expression in parentheses; the place of the `(`.
    Parens {
        place: usize,
        inner: Box<Expr>,
    },
    /// `~` before a factor.
    Not {
        place: usize,
        operand: Box<Expr>,
    },
    /// Two factors or more.
    Product {
        first: Box<Expr>,
        rest: Vec<Operand>,
    },
    /// A sign before the first term, or two terms or more.
    Sum {
        sign: Option<Sign>,
        first: Box<Expr>,
        rest: Vec<Operand>,
    },
    /// Two simple expressions.
    Comparison {
        left: Box<Expr>,
        operator: Operator,
        place: usize,
        right: Box<Expr>,
    },
}

/// An operator with its place, and the operand to its right.
#[cycle(expr)]
#[derive(Drop)]
pub struct Operand {
    pub operator: Operator,
    pub place: usize,
    pub value: Expr,
}

/// A name with its selectors.
#[cycle(expr)]
#[derive(Drop)]
pub struct Designator {
    pub name: Name,
    pub selectors: Vec<Selector>,
}

/// A selector.
#[cycle(expr)]
#[derive(Drop)]
pub enum Selector {
    /// The place of the `.`, and the field.
    Field { place: usize, name: Name },
    /// The place of the `[`, and the index.
    Index { place: usize, index: Expr },
}

/// A type as it is written.
#[cycle(types)]
#[derive(Drop)]
pub enum TypeExpr {
    Named(Name),
    /// The place of ARRAY.
    Array {
        place: usize,
        length: Expr,
        element: Box<TypeExpr>,
    },
    /// The place of RECORD.
    Record {
        place: usize,
        fields: Vec<FieldList>,
    },
}

/// Fields of one type, or nothing between two semicolons.
#[cycle(types)]
#[derive(Drop)]
pub enum FieldList {
    Empty,
    Fields { names: Vec<Name>, of_type: TypeExpr },
}

/// A statement.
#[cycle(statements)]
#[derive(Drop)]
pub enum Stmt {
    Empty,
    Assign {
        target: Designator,
        value: Expr,
    },
    /// The actuals are `None` where no parentheses stand.
    Call {
        procedure: Name,
        actuals: Option<Vec<Expr>>,
    },
    /// IF with each ELSIF, and ELSE where it stands; the place of IF.
    If {
        place: usize,
        branches: Vec<Branch>,
        otherwise: Option<Vec<Stmt>>,
    },
    /// The place of WHILE.
    While {
        place: usize,
        condition: Expr,
        body: Vec<Stmt>,
    },
    /// The place of REPEAT.
    Repeat {
        place: usize,
        body: Vec<Stmt>,
        condition: Expr,
    },
}

/// A condition with the statements behind THEN.
#[cycle(statements)]
#[derive(Drop)]
pub struct Branch {
    pub condition: Expr,
    pub body: Vec<Stmt>,
}

/// A constant.
#[derive(Drop)]
pub struct ConstDecl {
    pub name: Name,
    pub value: Expr,
}

/// A name for a type.
#[derive(Drop)]
pub struct TypeDecl {
    pub name: Name,
    pub definition: TypeExpr,
}

/// Variables of one type.
#[derive(Drop)]
pub struct VarDecl {
    pub names: Vec<Name>,
    pub of_type: TypeExpr,
}

/// CONST with its place, and the constants behind it.
#[derive(Drop)]
pub struct Constants {
    pub place: usize,
    pub declared: Vec<ConstDecl>,
}

/// TYPE with its place, and the types behind it.
#[derive(Drop)]
pub struct Types {
    pub place: usize,
    pub declared: Vec<TypeDecl>,
}

/// VAR with its place, and the variables behind it.
#[derive(Drop)]
pub struct Variables {
    pub place: usize,
    pub declared: Vec<VarDecl>,
}

/// Formal parameters of one mode and type.
#[derive(Drop)]
pub struct Section {
    pub is_var: bool,
    pub names: Vec<Name>,
    pub of_type: TypeExpr,
}

/// Declarations; a part is `None` where its keyword does not stand.
#[cycle(declarations)]
#[derive(Drop)]
pub struct Declarations {
    pub constants: Option<Constants>,
    pub types: Option<Types>,
    pub variables: Option<Variables>,
    pub procedures: Vec<Procedure>,
}

/// A procedure; the place of PROCEDURE, and the name behind its END.
#[cycle(declarations)]
#[derive(Drop)]
pub struct Procedure {
    pub place: usize,
    pub name: Name,
    pub is_exported: bool,
    pub parameters: Option<Vec<Section>>,
    pub declarations: Declarations,
    pub body: Option<Vec<Stmt>>,
    pub end_name: Name,
}

/// A module, and the name behind its END.
#[derive(Drop)]
pub struct ModuleTree {
    pub name: Name,
    pub declarations: Declarations,
    pub body: Option<Vec<Stmt>>,
    pub end_name: Name,
}
