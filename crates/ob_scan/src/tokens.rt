//! The tokens of a text.

use crate::token::Token;
use std::marker::Model;

/// A text with its tokens, in the order of the text.
#[derive(Drop)]
pub struct Tokens<'a> {
    text: &'a [u8],
    items: Vec<Token>,
}

impl<'a> Model for Tokens<'a> {
    ghost use Rattle.ob_scan.specs.Tokens.{TokenizedText, HasTokens};

    ghost Value = { TokenizedText };

    ghost view = { λ t. record { text = t.text.now; tokens = t.items.items } };

    ghost invariant = { λ t. HasTokens t.text.now t.items.items };
}

impl<'a> Tokens<'a> {
    ghost use Rattle.std.specs.Prelude.{◌≡◌};
    ghost use Rattle.ob_scan.specs.Tokens.{HasTokens};

    /// A text with tokens that are its own.
    pub(crate) fn new(text: &'a [u8], items: Vec<Token>) -> Tokens<'a>
        requires { HasTokens text.now items.items }
        ensures text { result.text ≡ text.entry.now }
        ensures tokens { result.tokens ≡ items.items }
    {
        Tokens { text, items }
    }

    /// The text that was scanned.
    pub fn text(&self) -> &'a [u8]
        ensures { result.now ≡ self.now.text }
    {
        self.text
    }

    /// The tokens, in the order of the text.
    pub fn as_slice(&self) -> &[Token]
        ensures tokens { result.now ≡ self.now.tokens }
        ensures spelled { HasTokens self.now.text self.now.tokens }
    {
        &self.items
    }
}
