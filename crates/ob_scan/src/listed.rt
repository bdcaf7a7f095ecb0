//! The tokens of a text that were scanned before, as a source.

ghost use Rattle.std.specs.Prelude.{◌≡◌, ◌≤◌, length, slice_get};
ghost use Rattle.ob_scan.specs.Tokens.{HasTokens, spelling};
ghost use Rattle.ob_scan.specs.Lexemes.{lexeme};
ghost use Rattle.ob_scan.specs.Sources.{lexeme_of};

use crate::source::TokenSource;
use crate::{Lent, Token, Tokens};
use std::marker::Model;

/// A text with its tokens, and how many of them are read.
#[derive(Drop)]
pub struct ListedTokens<'a> {
    text: &'a [u8],
    tokens: &'a [Token],
    position: usize,
}

impl<'a> Model for ListedTokens<'a> {
    ghost use Rattle.ob_scan.specs.Tokens.{HasTokens};
    ghost use Rattle.ob_scan.specs.Listed.{Listing};

    ghost Value = { Listing };

    ghost view = { λ s. record { source = record { text = s.text.now; tokens = s.tokens.now }; position = s.position } };

    ghost invariant = { λ s. HasTokens s.text.now s.tokens.now };
}

impl<'a> ListedTokens<'a> {
    /// The tokens of a text, none of them read.
    pub fn new(tokens: &'a Tokens<'a>) -> ListedTokens<'a>
        ensures begun { result ≡ record { source = tokens.entry.now; position = 0 } }
        ensures scanned { HasTokens result.source.text result.source.tokens }
    {
        ListedTokens {
            text: tokens.text(),
            tokens: tokens.as_slice(),
            position: 0,
        }
    }

    /// The token that stands next, by its places.
    fn token(&self) -> Option<Token>
        ensures token { result ≡ slice_get self.now.source.tokens self.now.position }
        ensures scanned { HasTokens self.now.source.text self.now.source.tokens }
    {
        self.tokens.get(self.position).copied()
    }
}

/// A token with its bytes.
fn lent(text: &[u8], token: Token) -> Lent<'_>
    requires ordered { token.start ≤ token.end }
    requires within { token.end ≤ length text.now }
    ensures { lexeme_of result ≡ lexeme token.kind token.start (spelling text.now token) }
{
    Lent {
        kind: token.kind,
        start: token.start,
        text: &text[token.start..token.end],
    }
}

impl TokenSource for ListedTokens<'_> {
    ghost use Rattle.ob_scan.specs.Listed.{listed};

    ghost state = { listed };

    fn here(&self) -> Option<Lent<'_>> {
        match self.token() {
            Some(token) => Some(lent(self.text, token)),
            None => None,
        }
    }

    fn step(&mut self) {
        prove!(self.position < self.tokens.len());
        self.position += 1;
    }

    fn end(&self) -> usize {
        self.text.len()
    }
}
