//! The tokens before a place of a text, and those behind it.

ghost use Rattle.std.specs.Prelude.{◌≡◌, IfOk};
ghost use Rattle.ob_scan.specs.ScanFaults.{IsScanFault};
ghost use Rattle.ob_scan.specs.declared.token.Token.{Token};
ghost use Rattle.ob_explain_tokens.specs.Around.{AreTokens, before, behind, is_memory};

use ob_scan::{ScanFault, Token, scan};
use std::alloc::{AllocError, Global};

/// The tokens of a text; none where it has no such list.
pub fn tokens_of(alloc: Global, text: &[u8]) -> Result<Vec<Token>, AllocError>
    ensures { IfOk result (λ tokens. AreTokens text.now tokens.items) }
{
    match scan(alloc, text) {
        Ok(tokens) => Vec::from_slice(alloc, tokens.as_slice()),
        Err(fault) => no_tokens(alloc, text, fault),
    }
}

/// No tokens, but for want of memory.
#[tactic(auto, using(crate::proofs::NoTokens::no_token))]
fn no_tokens(alloc: Global, text: &[u8], fault: ScanFault) -> Result<Vec<Token>, AllocError>
    requires { IsScanFault text.now fault }
    ensures { IfOk result (λ tokens. AreTokens text.now tokens.items) }
{
    if is_memory(fault) {
        Err(AllocError)
    } else {
        Ok(Vec::new(alloc))
    }
}

fn is_memory(fault: ScanFault) -> bool
    ensures { result ≡ is_memory fault }
{
    match fault {
        ScanFault::NoMemory => true,
        _ => false,
    }
}

/// The tokens before a place, the last one first.
pub fn tokens_before(alloc: Global, tokens: &[Token], at: usize) -> Result<Vec<Token>, AllocError>
    ensures { IfOk result (λ some. some.items ≡ before at tokens.now) }
{
    tokens
        .iter()
        .rev()
        .copied()
        .filter(|token| token.start < at)
        .collect(alloc)
}

/// The tokens that begin behind a place, in their order.
pub fn tokens_behind(alloc: Global, tokens: &[Token], at: usize) -> Result<Vec<Token>, AllocError>
    ensures { IfOk result (λ some. some.items ≡ behind at tokens.now) }
{
    tokens
        .iter()
        .copied()
        .filter(|token| at < token.start)
        .collect(alloc)
}
