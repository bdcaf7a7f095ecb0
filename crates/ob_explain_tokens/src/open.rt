//! The construct that is open at a place, and the ELSE IF in it.

ghost use Rattle.std.specs.Prelude.{◌≡◌, None};
ghost use Rattle.ob_explain_tokens.specs.Open.{IsInRecord, IsOpenConstruct, begins_construct, else_if, ends_construct, is_before, is_else_if};
ghost use Rattle.ob_explain_tokens.specs.Open.{is_if_there, is_unit};

use crate::operand_tokens::is_record;
use ob_scan::{Kind, Token};

/// The token that opens the construct that is open at a place: these tokens stand before it and go back from there.
#[tactic(auto, using(crate::proofs::OpenSteps::open_here, crate::proofs::OpenSteps::none_open))]
pub fn open_construct(tokens: &[Token]) -> Option<Token>
    ensures { IsOpenConstruct tokens.now result }
{
    let mut closed: usize = 0;
    for token in tokens {
        if ends_construct(token.kind) {
            closed += 1;
        } else if begins_construct(token.kind) {
            if closed == 0 {
                return Some(*token);
            }
            closed -= 1;
        }
    }
    None
}

/// Whether a place stands in a record: these tokens stand before it and go back from there.
pub fn is_in_record(tokens: &[Token]) -> bool
    ensures { IsInRecord tokens.now result }
{
    match open_construct(tokens) {
        Some(opening) => is_record(opening.kind),
        None => false,
    }
}

/// Whether a token opens a module or a procedure.
pub fn is_unit(kind: Kind) -> bool
    ensures { result ≡ is_unit kind }
{
    matches!(kind, Kind::Module | Kind::Procedure)
}

/// The first IF behind an ELSE among tokens that go back from a place, up to the token at this one.
#[tactic(auto, using(crate::proofs::OpenSteps::if_here, crate::proofs::OpenSteps::too_far, crate::proofs::OpenSteps::looks_on, crate::proofs::OpenSteps::no_if))]
pub fn else_if(tokens: &[Token], from: usize) -> Option<Token>
    ensures { result ≡ else_if from None tokens.now }
{
    let mut behind = None;
    for token in tokens {
        if is_else_if(token.kind, behind) {
            return behind;
        }
        if is_before(*token, from) {
            return None;
        }
        behind = Some(*token);
    }
    None
}

/// Whether a token opens a construct.
fn begins_construct(kind: Kind) -> bool
    ensures { result ≡ begins_construct kind }
{
    matches!(
        kind,
        Kind::Module | Kind::Procedure | Kind::Record | Kind::If | Kind::While | Kind::Repeat
    )
}

/// Whether a token closes one.
fn ends_construct(kind: Kind) -> bool
    ensures { result ≡ ends_construct kind }
{
    matches!(kind, Kind::End | Kind::Until)
}

/// Whether a token is an ELSE, and the one behind it an IF.
fn is_else_if(kind: Kind, behind: Option<Token>) -> bool
    ensures { result ≡ is_else_if kind behind }
{
    matches!(kind, Kind::Else) && is_if_there(behind)
}

fn is_before(token: Token, place: usize) -> bool
    ensures { result ≡ is_before token place }
{
    token.start < place
}

fn is_if_there(token: Option<Token>) -> bool
    ensures { result ≡ is_if_there token }
{
    match token {
        Some(token) => matches!(token.kind, Kind::If),
        None => false,
    }
}
