//! The tokens of a text that is scanned while they are read, as a source.

ghost use Rattle.std.specs.Prelude.{◌≡◌, ◌<◌, ◌≤◌, length, IfOk, IfErr};
ghost use Rattle.ob_scan.specs.declared.fault.ScanFault.{ScanFault};
ghost use Rattle.ob_scan.specs.Limits.{longest_text};
ghost use Rattle.ob_scan.specs.Scanners.{IsTokenFault};
ghost use Rattle.ob_scan.specs.Scanned.{HasGivenSome, HasSomeTokens, Begins, Looks};

use crate::source::TokenSource;
use crate::{Lent, ScanFault, Scanner};
use std::marker::Model;

/// A scanner, with the token that stands next. A fault that stands next is no token: `finish` tells it.
#[derive(Drop)]
pub struct ScannedTokens<'a> {
    scanner: Scanner<'a>,
    here: Option<Lent<'a>>,
    // how many bytes the text has
    end: usize,
}

impl<'a> Model for ScannedTokens<'a> {
    ghost use Rattle.std.specs.Prelude.{option_map};
    ghost use Rattle.ob_scan.specs.Sources.{lexeme_of};
    ghost use Rattle.ob_scan.specs.Scanned.{Scan, IsScan};

    ghost Value = { Scan };

    ghost view = { λ s. record { scanner = s.scanner; here = option_map lexeme_of s.here } };

    ghost invariant = { λ s. IsScan s.end (record { scanner = s.scanner; here = option_map lexeme_of s.here }) };
}

impl<'a> ScannedTokens<'a> {
    /// The tokens of a text, none of them read.
    pub fn new(text: &'a [u8]) -> Result<ScannedTokens<'a>, ScanFault>
        ensures begins { IfOk result (Begins text.entry.now) }
        ensures short { IfOk result (λ _. length text.entry.now ≤ longest_text) }
        ensures too_long { IfErr result (λ e. (e ≡ ScanFault.TooLong) × (longest_text < length text.entry.now)) }
    {
        let mut scanner = Scanner::new(text)?;
        let here = look(&mut scanner);
        Ok(ScannedTokens {
            scanner,
            here,
            end: text.len(),
        })
    }

    /// Scans what is left of the text.
    pub fn finish(mut self) -> Result<(), ScanFault>
        ensures tokens { IfOk result (λ _. HasSomeTokens self.entry.scanner.text) }
        ensures fault { IfErr result (IsTokenFault self.entry.scanner.text) }
    {
        scan_on(&mut self.scanner)
    }
}

/// The token that a scanner gives next; none where it meets a fault, which it keeps.
fn look<'a>(scanner: &mut Scanner<'a>) -> Option<Lent<'a>>
    ensures { Looks scanner.old result scanner.new }
{
    match scanner.next() {
        Ok(next) => next,
        Err(_) => None,
    }
}

/// Scans what is left of a text.
fn scan_on(scanner: &mut Scanner<'_>) -> Result<(), ScanFault>
    requires { HasGivenSome scanner.old }
    ensures tokens { IfOk result (λ _. HasSomeTokens scanner.old.text) }
    ensures fault { IfErr result (IsTokenFault scanner.old.text) }
{
    while let Some(_token) = scanner.next()? {}
    Ok(())
}

impl TokenSource for ScannedTokens<'_> {
    ghost use Rattle.ob_scan.specs.Scanned.{scanned};

    ghost state = { scanned };

    fn here(&self) -> Option<Lent<'_>> {
        self.here
    }

    fn step(&mut self) {
        self.here = look(&mut self.scanner);
    }

    fn end(&self) -> usize {
        self.end
    }
}
