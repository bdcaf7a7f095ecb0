//! Symbols: one byte, or one byte and `=`.

ghost use Rattle.std.specs.Prelude.{◌≡◌, ◌≢◌, [], ◌∷◌, Some, IfSome, IfNone};
ghost use Rattle.ob_scan.specs.declared.token.Kind.{Kind};
ghost use Rattle.ob_scan.specs.Spelling.{fixed_spelling};

use crate::token::Kind;

/// The symbol that this byte is.
pub(crate) fn symbol_of(byte: u8) -> Option<Kind>
    ensures is { IfSome result (λ kind. fixed_spelling kind ≡ Some (byte ∷ [])) }
    ensures none { IfNone result ((kind : Kind) → fixed_spelling kind ≢ Some (byte ∷ [])) }
{
    match byte {
        b':' => Some(Kind::Colon),
        b'<' => Some(Kind::Less),
        b'>' => Some(Kind::Greater),
        b'=' => Some(Kind::Equal),
        b'#' => Some(Kind::NotEqual),
        b'+' => Some(Kind::Plus),
        b'-' => Some(Kind::Minus),
        b'*' => Some(Kind::Times),
        b'&' => Some(Kind::And),
        b'~' => Some(Kind::Not),
        b'.' => Some(Kind::Dot),
        b',' => Some(Kind::Comma),
        b';' => Some(Kind::Semicolon),
        b'(' => Some(Kind::LeftParen),
        b')' => Some(Kind::RightParen),
        b'[' => Some(Kind::LeftBracket),
        b']' => Some(Kind::RightBracket),
        _ => None,
    }
}

/// The symbol that this byte and `=` are.
pub(crate) fn symbol_with_equals(byte: u8) -> Option<Kind>
    ensures is { IfSome result (λ kind. fixed_spelling kind ≡ Some (byte ∷ 61 ∷ [])) }
    ensures none { IfNone result ((kind : Kind) → fixed_spelling kind ≢ Some (byte ∷ 61 ∷ [])) }
{
    match byte {
        b':' => Some(Kind::Assign),
        b'<' => Some(Kind::LessOrEqual),
        b'>' => Some(Kind::GreaterOrEqual),
        _ => None,
    }
}
