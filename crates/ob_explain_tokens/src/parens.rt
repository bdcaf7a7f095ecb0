//! Whether a place stands in parentheses.

ghost use Rattle.std.specs.Prelude.{◌≡◌, find};
ghost use Rattle.ob_explain_tokens.specs.Parens.{is_in_parens, is_paren};

use crate::operand_tokens::{is_left, is_right};
use ob_scan::Token;

/// Whether the first parenthesis of these tokens, which stand before a place and go back from it, opens.
pub fn is_in_parens(tokens: &[Token]) -> bool
    ensures { result ≡ is_in_parens tokens.now }
{
    match first_paren(tokens) {
        Some(token) => is_left(token.kind),
        None => false,
    }
}

/// The first parenthesis of tokens.
fn first_paren(tokens: &[Token]) -> Option<Token>
    ensures { result ≡ find is_paren tokens.now }
{
    tokens.iter().copied().find(|token| is_paren(*token))
}

fn is_paren(token: Token) -> bool
    ensures { result ≡ is_paren token }
{
    is_left(token.kind) || is_right(token.kind)
}
