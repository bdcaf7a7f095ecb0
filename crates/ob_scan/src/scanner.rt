//! The scanner: from a text to its tokens, one at a time or all of them.

ghost use Rattle.std.specs.Prelude.{◌≡◌, ◌<◌, ◌≤◌, [], None, Some, List, length, drop, slice_index, IfOk, IfErr, Err};
ghost use Rattle.ob_scan.specs.declared.fault.ScanFault.{ScanFault};
ghost use Rattle.ob_scan.specs.declared.token.Token.{Token};
ghost use Rattle.ob_scan.specs.Limits.{longest_text};
ghost use Rattle.ob_scan.specs.Tokens.{IsBlank, OpensComment, HasTokens};
ghost use Rattle.ob_scan.specs.ScanFaults.{IsScanFault};
ghost use Rattle.ob_scan.specs.Scanning.{IsSkipped, StandsFaultBehind, StandsBehind};
ghost use Rattle.ob_scan.specs.Scanners.{HasGiven, Gives};

use crate::comment::{comment_end, opens_comment};
use crate::fault::ScanFault;
use crate::lexeme::{is_blank, lexeme};
use crate::token::{Lent, Token};
use crate::tokens::Tokens;
use std::alloc::Global;
use std::marker::Model;

/// The most bytes that a text may have.
pub const LONGEST_TEXT: usize = 65536;

/// A text whose tokens are given one at a time, in the order of the text.
#[derive(Drop)]
pub struct Scanner<'a> {
    text: &'a [u8],
    // where the last token that was given ends
    at: usize,
    // what every further call answers
    fault: Option<ScanFault>,
}

impl<'a> Model for Scanner<'a> {
    ghost use Rattle.ob_scan.specs.Scanners.{ScannedText, IsScanned};

    ghost Value = { ScannedText };

    ghost view = { λ s. record { text = s.text.now; at = s.at; fault = s.fault } };

    ghost invariant = { λ s. IsScanned (record { text = s.text.now; at = s.at; fault = s.fault }) };
}

impl<'a> Scanner<'a> {
    /// A scanner at the beginning of a text.
    pub fn new(text: &'a [u8]) -> Result<Scanner<'a>, ScanFault>
        ensures begun { IfOk result (λ s. s ≡ record { text = text.entry.now; at = 0; fault = None }) }
        ensures given { IfOk result (λ s. HasGiven s []) }
        ensures short { IfOk result (λ _. length text.entry.now ≤ longest_text) }
        ensures too_long { IfErr result (λ e. (e ≡ ScanFault.TooLong) × (longest_text < length text.entry.now)) }
    {
        if text.len() > LONGEST_TEXT {
            return Err(ScanFault::TooLong);
        }
        Ok(Scanner {
            text,
            at: 0,
            fault: None,
        })
    }

    /// The next token: the longest spelling that can stand at its place, behind blanks and nested comments.
    pub fn next(&mut self) -> Result<Option<Lent<'a>>, ScanFault>
        ensures gives { Gives self.old result self.new }

        // A fault is given again by each further call.
        ensures again { (e : ScanFault) → self.old.fault ≡ Some e → (result ≡ Err e) × (self.new ≡ self.old) }
    {
        if let Some(fault) = self.fault {
            return Err(fault);
        }
        match token_behind(self.text, self.at) {
            Ok(Some(token)) => {
                self.at = token.end;
                Ok(Some(Lent {
                    kind: token.kind,
                    start: token.start,
                    text: &self.text[token.start..token.end],
                }))
            }
            Ok(None) => Ok(None),
            Err(fault) => {
                self.fault = Some(fault);
                Err(fault)
            }
        }
    }
}

/// The token behind blanks and comments from `start` on, where one follows.
fn token_behind(text: &[u8], start: usize) -> Result<Option<Token>, ScanFault>
    requires { start ≤ length text.now }
    ensures { StandsBehind text.now start result }
{
    let at = skip(text, start)?;
    if at == text.len() {
        return Ok(None);
    }
    let token = lexeme(text, at)?;
    Ok(Some(token))
}

/// Where blanks and comments from `start` on end.
fn skip(text: &[u8], start: usize) -> Result<usize, ScanFault>
    requires { start ≤ length text.now }
    ensures skipped { IfOk result (λ end. IsSkipped text.now start end) }
    ensures no_blank { IfOk result (λ end. end < length text.now → IsBlank (slice_index text.now end) → ⊥) }
    ensures no_comment { IfOk result (λ end. end < length text.now → OpensComment (drop end text.now) → ⊥) }
    ensures fault { IfErr result (StandsFaultBehind text.now start) }
{
    let mut at = start;
    while at < text.len() {
        if is_blank(text[at]) {
            at += 1;
        } else if opens_comment(&text[at..]) {
            at = comment_end(text, at)?;
        } else {
            return Ok(at);
        }
    }
    Ok(at)
}

/// The tokens of a text: each the longest spelling that can stand at its place, between blanks and
/// nested comments.
pub fn scan(alloc: Global, text: &[u8]) -> Result<Tokens<'_>, ScanFault>
    ensures text { IfOk result (λ tokens. tokens.text ≡ text.now) }
    ensures tokens { IfOk result (λ tokens. HasTokens text.now tokens.tokens) }
    // The text has no others.
    ensures alone { IfOk result (λ tokens. (others : List Token) → HasTokens text.now others → others ≡ tokens.tokens) }

    // A fault says what stands at its place, behind tokens of the text.
    ensures fault { IfErr result (λ e. IsScanFault text.now e) }
    ensures too_long { longest_text < length text.now → result ≡ Err ScanFault.TooLong }
{
    let mut scanner = Scanner::new(text)?;
    let mut items = Vec::new(alloc);
    while let Some(lent) = scanner.next()? {
        items.push(lent.token())?;
    }
    Ok(Tokens::new(text, items))
}
