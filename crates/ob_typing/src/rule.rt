//! The rules that a module can break.

/// A rule; its number stands beside it.
#[derive(Clone, Copy, Debug, PartialEq, Eq)]
pub enum Rule {
    /// C1: a name or a field that isn't there.
    UnknownName,
    /// C2: a name twice in one scope, or a field twice in one record.
    DeclaredTwice,
    /// C3: a name of another kind than is needed, a selector on what has no parts, a formal type that is no name.
    WrongKind,
    /// C4: an operand or an expression of another type than is needed.
    TypesDiffer,
    /// C5: a variable in a constant expression, or a constant operation without a result.
    BadConstant,
    /// C6: an array length outside 1 to 4096.
    BadLength,
    /// C7: another number of actuals than of parameters, or an actual for VAR that is no variable.
    BadActuals,
    /// C8: a variable of a procedure around the innermost one.
    WrongLevel,
    /// C9: a type, a variable, a parameter or an export beyond a limit.
    PassesLimit,
    /// C10: an export mark within a procedure, or an export with a structured parameter.
    BadExport,
}

/// A rule that fails at a byte of the text.
#[derive(Clone, Copy, Debug)]
pub struct BrokenRule {
    pub rule: Rule,
    pub place: usize,
}
