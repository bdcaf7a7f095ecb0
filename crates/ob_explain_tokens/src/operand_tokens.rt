//! What tokens are beside an operand.

ghost use Rattle.std.specs.Prelude.{◌≡◌};
ghost use Rattle.ob_explain_tokens.specs.Kinds.{closes_bracket, ends_operand, is_array, is_colon, is_comma, is_dot, is_end, is_left, is_minus};
ghost use Rattle.ob_explain_tokens.specs.Kinds.{is_name, is_not, is_number, is_of, is_record, is_relation, is_right, is_semicolon, is_sign};
ghost use Rattle.ob_explain_tokens.specs.Kinds.{multiplies, opens_bracket, selects};

use ob_scan::Kind;

/// A number. A sign before it is a token of its own.
pub fn is_number(kind: Kind) -> bool
    ensures { result ≡ is_number kind }
{
    matches!(kind, Kind::Number)
}

/// A name that is no keyword; INTEGER, BOOLEAN, TRUE and FALSE are such names.
pub fn is_name(kind: Kind) -> bool
    ensures { result ≡ is_name kind }
{
    matches!(kind, Kind::Ident)
}

/// A `:`, as behind the names that are declared. A `:=` is another token.
pub fn is_colon(kind: Kind) -> bool
    ensures { result ≡ is_colon kind }
{
    matches!(kind, Kind::Colon)
}

/// A `;`.
pub fn is_semicolon(kind: Kind) -> bool
    ensures { result ≡ is_semicolon kind }
{
    matches!(kind, Kind::Semicolon)
}

/// A `.`: before a field's name, or at the module's end.
pub fn is_dot(kind: Kind) -> bool
    ensures { result ≡ is_dot kind }
{
    matches!(kind, Kind::Dot)
}

/// A `~`.
pub fn is_not(kind: Kind) -> bool
    ensures { result ≡ is_not kind }
{
    matches!(kind, Kind::Not)
}

/// A `(`.
pub fn is_left(kind: Kind) -> bool
    ensures { result ≡ is_left kind }
{
    matches!(kind, Kind::LeftParen)
}

/// A `)`.
pub fn is_right(kind: Kind) -> bool
    ensures { result ≡ is_right kind }
{
    matches!(kind, Kind::RightParen)
}

/// A `,`.
pub fn is_comma(kind: Kind) -> bool
    ensures { result ≡ is_comma kind }
{
    matches!(kind, Kind::Comma)
}

/// A `-`, as a sign or between two operands.
pub fn is_minus(kind: Kind) -> bool
    ensures { result ≡ is_minus kind }
{
    matches!(kind, Kind::Minus)
}

/// The keyword ARRAY.
pub fn is_array(kind: Kind) -> bool
    ensures { result ≡ is_array kind }
{
    matches!(kind, Kind::Array)
}

/// The keyword OF.
pub fn is_of(kind: Kind) -> bool
    ensures { result ≡ is_of kind }
{
    matches!(kind, Kind::Of)
}

/// The keyword RECORD.
pub fn is_record(kind: Kind) -> bool
    ensures { result ≡ is_record kind }
{
    matches!(kind, Kind::Record)
}

/// The keyword END, whatever it closes.
pub fn is_end(kind: Kind) -> bool
    ensures { result ≡ is_end kind }
{
    matches!(kind, Kind::End)
}

/// A `[`.
pub fn opens_bracket(kind: Kind) -> bool
    ensures { result ≡ opens_bracket kind }
{
    matches!(kind, Kind::LeftBracket)
}

/// A `]`.
pub fn closes_bracket(kind: Kind) -> bool
    ensures { result ≡ closes_bracket kind }
{
    matches!(kind, Kind::RightBracket)
}

/// An operator that compares: = # < <= > >=.
pub fn is_relation(kind: Kind) -> bool
    ensures { result ≡ is_relation kind }
{
    matches!(
        kind,
        Kind::Equal
            | Kind::NotEqual
            | Kind::Less
            | Kind::LessOrEqual
            | Kind::Greater
            | Kind::GreaterOrEqual
    )
}

/// A sign.
pub fn is_sign(kind: Kind) -> bool
    ensures { result ≡ is_sign kind }
{
    matches!(kind, Kind::Plus | Kind::Minus)
}

/// An operator that binds closer than a sign: * DIV MOD &.
pub fn multiplies(kind: Kind) -> bool
    ensures { result ≡ multiplies kind }
{
    matches!(kind, Kind::Times | Kind::Div | Kind::Mod | Kind::And)
}

/// The last token of an operand.
pub fn ends_operand(kind: Kind) -> bool
    ensures { result ≡ ends_operand kind }
{
    matches!(
        kind,
        Kind::Ident | Kind::Number | Kind::RightParen | Kind::RightBracket
    )
}

/// A selector begins there: a field or an index.
pub fn selects(kind: Kind) -> bool
    ensures { result ≡ selects kind }
{
    matches!(kind, Kind::Dot | Kind::LeftBracket)
}
