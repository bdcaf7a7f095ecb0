//! What tokens are in a list of names with their type.

ghost use Rattle.std.specs.Prelude.{◌≡◌};
ghost use Rattle.ob_explain_words.specs.Kinds.{is_listed, is_var};

use ob_scan::Kind;

pub(crate) fn is_var(kind: Kind) -> bool
    ensures { result ≡ is_var kind }
{
    matches!(kind, Kind::Var)
}

/// A token of lists of names with their types, outside of the types.
pub(crate) fn is_listed(kind: Kind) -> bool
    ensures { result ≡ is_listed kind }
{
    matches!(
        kind,
        Kind::Ident | Kind::Comma | Kind::Colon | Kind::Semicolon
    )
}
