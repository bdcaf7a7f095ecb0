//! How many actuals a call has.

ghost use Rattle.std.specs.Prelude.{◌≡◌, ◌≤◌, length};
ghost use Rattle.ob_explain_tokens.specs.Actuals.{actual_count, comma, commas, ends_call, opens_actuals};

use crate::operand_tokens::{is_left, is_right};
use ob_scan::{Kind, Token};

/// How many actuals stand behind the name of a call, of the tokens behind it.
#[tactic(auto, unfolding(crate::specs::Actuals::actual_count))]
pub fn actual_count(tokens: &[Token]) -> usize
    ensures { result ≡ actual_count tokens.now }
{
    if opens_actuals(tokens) {
        commas(tokens) + 1
    } else {
        0
    }
}

/// Whether tokens begin with parentheses in which something stands.
fn opens_actuals(tokens: &[Token]) -> bool
    ensures { result ≡ opens_actuals tokens.now }
{
    match tokens {
        [first, second, ..] => { is_left(first.kind) && !is_right(second.kind) }
        _ => false,
    }
}

/// How many commas stand before the end of the call.
#[tactic(auto, using(crate::proofs::Steps::comma_here, crate::proofs::Steps::ended_here, crate::proofs::Steps::no_more))]
fn commas(tokens: &[Token]) -> usize
    ensures count { result ≡ commas tokens.now }
    ensures within { result ≤ length tokens.now }
{
    let mut count = 0;
    for token in tokens {
        if ends_call(token.kind) {
            return count;
        }
        count += comma(token.kind);
    }
    count
}

/// One for a comma.
fn comma(kind: Kind) -> usize
    ensures one { result ≡ comma kind }
    ensures most { result ≤ 1 }
{
    if matches!(kind, Kind::Comma) { 1 } else { 0 }
}

/// Whether a token stands behind a call.
pub fn ends_call(kind: Kind) -> bool
    ensures { result ≡ ends_call kind }
{
    matches!(
        kind,
        Kind::Semicolon | Kind::End | Kind::Else | Kind::Elsif | Kind::Until
    )
}
