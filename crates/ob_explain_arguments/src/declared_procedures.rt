//! Procedures that a module declares, exported or not.

ghost use Rattle.std.specs.Prelude.{◌≡◌, false, IfOk};
ghost use Rattle.ob_explain_arguments.specs.DeclaredNames.{IsDeclared, declares, is_its_name, is_procedure};

use ob_explain_names::declarations::token_bytes;
use ob_explain_sentences::first_word::is_same;
use ob_explain_tokens::around::tokens_of;
use ob_scan::{Kind, Token};
use std::alloc::{AllocError, Global};

/// Whether a module's text declares a procedure of this name.
pub fn is_declared(alloc: Global, text: &[u8], name: &[u8]) -> Result<bool, AllocError>
    ensures { IfOk result (λ declared. IsDeclared text.now name.now declared) }
{
    let tokens = tokens_of(alloc, text)?;
    Ok(declares(text, name, &tokens))
}

/// Whether the name stands behind PROCEDURE somewhere in the tokens of a text.
#[tactic(auto, using(crate::proofs::Declares::found_here, crate::proofs::Declares::goes_on, crate::proofs::Declares::none_left))]
fn declares(text: &[u8], name: &[u8], tokens: &[Token]) -> bool
    ensures { result ≡ declares text.now name.now false tokens.now }
{
    let mut behind = false;
    for token in tokens {
        if is_its_name(text, name, behind, *token) {
            return true;
        }
        behind = is_procedure(token.kind);
    }
    false
}

/// Whether a token that stands behind PROCEDURE, or doesn't, is the name.
fn is_its_name(text: &[u8], name: &[u8], behind: bool, token: Token) -> bool
    ensures { result ≡ is_its_name text.now name.now behind token }
{
    behind && is_same(token_bytes(text, token), name)
}

fn is_procedure(kind: Kind) -> bool
    ensures { result ≡ is_procedure kind }
{
    matches!(kind, Kind::Procedure)
}
