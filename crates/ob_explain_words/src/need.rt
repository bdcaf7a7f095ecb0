//! Which kind of thing a name has to stand for at a place.

ghost use Rattle.std.specs.Prelude.{◌≡◌};
ghost use Rattle.ob_explain_words.specs.Needs.{admits};

use ob_explain_names::known::Sort;

/// What is needed at a place.
#[derive(Clone, Copy)]
pub enum Need {
    TypeName,
    Variable,
    Procedure,
    /// A constant or a variable.
    Value,
    /// A constant, a variable or a type, as behind a `=`.
    NoProcedure,
    /// It isn't known what.
    Any,
}

/// Whether what a name is declared as is what is needed.
pub fn admits(need: Need, sort: Sort) -> bool
    ensures { result ≡ admits need sort }
{
    match sort {
        Sort::Constant => matches!(need, Need::Value | Need::NoProcedure | Need::Any),
        Sort::TypeName => matches!(need, Need::TypeName | Need::NoProcedure | Need::Any),
        Sort::Variable => matches!(
            need,
            Need::Variable | Need::Value | Need::NoProcedure | Need::Any
        ),
        Sort::Procedure(_) => matches!(need, Need::Procedure | Need::Any),
    }
}
