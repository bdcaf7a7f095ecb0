//! Of which type an expression in parentheses is, by the operators in it.

ghost use Rattle.std.specs.Prelude.{◌≡◌, ◌<◌, ◌≤◌, ◌+◌, ◌^◌};
ghost use Rattle.ob_explain_parts.specs.Inside.{closes_there, gives_truth, has_truth, open_behind, takes_truths};

use ob_explain_tokens::operand_tokens::{is_left, is_relation, is_right};
use ob_scan::{Kind, Token};

/// Whether an operator that gives a BOOLEAN stands in parentheses, of the tokens behind the `(`.
#[tactic(auto, using(crate::proofs::InsideSteps::ends_there, crate::proofs::InsideSteps::is_there, crate::proofs::InsideSteps::goes_on, crate::proofs::InsideSteps::none_left))]
pub(crate) fn has_truth(inside: &[Token]) -> bool
    ensures { result ≡ has_truth inside.now }
{
    let mut parens = 0;
    for token in inside {
        if closes_there(parens, token.kind) {
            return false;
        }
        if gives_truth(token.kind) {
            return true;
        }
        parens = open_behind(parens, token.kind);
    }
    false
}

/// Whether a token is the `)` of the parentheses themselves, where so many others are open in them.
fn closes_there(parens: usize, kind: Kind) -> bool
    ensures { result ≡ closes_there parens kind }
{
    is_right(kind) && parens == 0
}

/// The parentheses that are open behind a token.
fn open_behind(parens: usize, kind: Kind) -> usize
    requires { parens < 2 ^ 63 }
    ensures count { result ≡ open_behind parens kind }
    ensures most { result ≤ parens + 1 }
{
    if is_left(kind) {
        parens + 1
    } else if is_right(kind) {
        parens.saturating_sub(1)
    } else {
        parens
    }
}

/// Whether an operator gives a BOOLEAN.
fn gives_truth(kind: Kind) -> bool
    ensures { result ≡ gives_truth kind }
{
    is_relation(kind) || takes_truths(kind)
}

/// Whether an operator takes BOOLEANs.
fn takes_truths(kind: Kind) -> bool
    ensures { result ≡ takes_truths kind }
{
    matches!(kind, Kind::And | Kind::Or | Kind::Not)
}
