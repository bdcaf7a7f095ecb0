//! What a parser asks of its tokens.

ghost use Rattle.std.specs.Prelude.{◌≡◌, length, option_map, IfSome, IsSome};
ghost use Rattle.ob_scan.specs.Lexemes.{IsSpelled};
ghost use Rattle.ob_scan.specs.Sources.{State, lexeme_of, Steps};

use crate::Lent;

/// Tokens that are read one at a time; the next one is looked at. Where a fault stands next, no token does.
pub trait TokenSource {
    ghost state: { Self → State };

    /// The token that stands next, where one does.
    fn here(&self) -> Option<Lent<'_>>
        ensures token { option_map lexeme_of result ≡ (state self.now).here }
        ensures spelled { IfSome result (λ t. IsSpelled (lexeme_of t)) };

    /// Reads the token that stands next.
    fn step(&mut self)
        requires { IsSome (state self.old).here }
        ensures { Steps (state self.old) (state self.new) };

    /// How many bytes the text has.
    fn end(&self) -> usize
        ensures { result ≡ length (state self.now).text };
}
