//! The name that stands behind an END.

ghost use Rattle.std.specs.Prelude.{◌≡◌, ◌<◌, ◌^◌, None};
ghost use Rattle.ob_explain_tokens.specs.ClosedConstructs.{closed_before, name_of_end, opens};

use crate::operand_tokens::is_end;
use ob_scan::{Kind, Token};

/// The name of what the first END of these tokens closes, which stand before it and go back from it.
#[tactic(auto, using(crate::proofs::Steps::goes_back, crate::proofs::Steps::opens_here, crate::proofs::Steps::none_left))]
pub fn name_of_end(tokens: &[Token]) -> Option<Token>
    ensures { result ≡ name_of_end 0 None tokens.now }
{
    let mut closed = 0;
    let mut behind = None;
    for token in tokens {
        let Some(fewer) = closed_before(token.kind, closed) else {
            return behind;
        };
        closed = fewer;
        behind = Some(*token);
    }
    None
}

/// How many constructs are closed before a token, where it is so many behind it; `None` before the token that opens the last of them.
fn closed_before(kind: Kind, closed: usize) -> Option<usize>
    requires { closed < 2 ^ 63 }
    ensures { result ≡ closed_before kind closed }
{
    if is_end(kind) {
        Some(closed + 1)
    } else if !opens(kind) {
        Some(closed)
    } else if closed <= 1 {
        None
    } else {
        Some(closed - 1)
    }
}

/// Whether a token opens what an END closes. A REPEAT, which UNTIL closes, is no such construct.
fn opens(kind: Kind) -> bool
    ensures { result ≡ opens kind }
{
    matches!(
        kind,
        Kind::Module | Kind::Procedure | Kind::Record | Kind::If | Kind::While
    )
}
