//! The kinds of token that are expected at a place of a text.

ghost use Rattle.std.specs.Prelude.{◌≡◌, ◌↔◌, IfOk, IsTrue};
ghost use Rattle.ob_scan.specs.Tokens.{HasTokens};
ghost use Rattle.ob_explain_names.specs.Expected.{AreExpected, CanGoOn, GoesOn, IsExpected, IsLastAt, tried};

use ob_explain_sentences::kinds::{KINDS, sample};
use ob_parser::{ParseFault, parse};
use ob_scan::{Kind, ScanFault, Tokens, scan};
use std::alloc::{AllocError, Global};

/// The kinds of token with which the text before a place goes on.
pub fn expected_kinds(alloc: Global, text: &[u8], at: usize) -> Result<Vec<Kind>, AllocError>
    ensures { IfOk result (λ expected. AreExpected text.now at expected.items) }
{
    let mut expected = Vec::new(alloc);
    for kind in &KINDS {
        if is_expected(alloc, text, at, *kind)? {
            expected.push(*kind)?;
        }
    }
    Ok(expected)
}

/// Whether the text before a place goes on with a token of a kind.
pub fn is_expected(alloc: Global, text: &[u8], at: usize, kind: Kind) -> Result<bool, AllocError>
    ensures { IfOk result (λ is. IsTrue is ↔ IsExpected text.now at kind) }
{
    let tried = tried_text(alloc, text, at, kind)?;
    can_go_on(alloc, &tried)
}

/// The text before a place, and behind a blank a token of a kind.
fn tried_text(alloc: Global, text: &[u8], at: usize, kind: Kind) -> Result<Vec<u8>, AllocError>
    ensures { IfOk result (λ made. made.items ≡ tried text.now at kind) }
{
    let mut made = Vec::from_slice(alloc, &text[..at.min(text.len())])?;
    made.extend_from_slice(b" ")?;
    made.extend_from_slice(sample(kind).as_bytes())?;
    Ok(made)
}

/// Whether a text has tokens with which a module begins.
fn can_go_on(alloc: Global, text: &[u8]) -> Result<bool, AllocError>
    ensures { IfOk result (λ can. IsTrue can ↔ CanGoOn text.now) }
{
    match scan(alloc, text) {
        Ok(tokens) => goes_on(alloc, &tokens),
        Err(ScanFault::NoMemory) => Err(AllocError),
        Err(_) => Ok(false),
    }
}

/// Whether a module begins with these tokens.
fn goes_on(alloc: Global, tokens: &Tokens<'_>) -> Result<bool, AllocError>
    requires { HasTokens tokens.now.text tokens.now.tokens }
    ensures { IfOk result (λ goes. IsTrue goes ↔ GoesOn tokens.now) }
{
    match parse(alloc, tokens) {
        Ok(_) => Ok(true),
        Err(ParseFault::NoMemory) => Err(AllocError),
        // Only the end is at fault there.
        Err(ParseFault::Unexpected(place)) => Ok(place == tokens.text().len()),
        Err(ParseFault::TooDeep(place)) => Ok(is_last(tokens, place)),
        Err(ParseFault::NameDiffers(place)) => Ok(is_last(tokens, place)),
    }
}

/// Whether the last token stands at a place.
fn is_last(tokens: &Tokens<'_>, place: usize) -> bool
    ensures { IsTrue result ↔ IsLastAt tokens.now place }
{
    match tokens.as_slice().last() {
        Some(last) => last.start == place,
        None => false,
    }
}
