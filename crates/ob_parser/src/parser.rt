//! The parser: from the tokens of a text to its tree. One method for each phrase of the grammar, with one token of
//! look-ahead; `depth` is how many constructs stand around the phrase.

ghost use Rattle.std.specs.Prelude.{◌≡◌, ◌<◌, ◌≤◌, ◌↔◌, Bool, IsTrue, IsSome, IfOk, IfErr, OnOk};
ghost use Rattle.std.specs.List.{list_all};
ghost use Rattle.std.specs.Char.{is_ascii_alphanumeric, is_ascii_digit};
ghost use Rattle.ob_scan.specs.declared.token.Kind.{Kind};
ghost use Rattle.ob_scan.specs.Lexemes.{IsSpelled};
ghost use Rattle.ob_scan.specs.Spelling.{number_value};
ghost use Rattle.ob_grammar.specs.Tree.{Module as ModuleTree};
ghost use Rattle.ob_grammar.specs.Grammar.{Derives};
ghost use Rattle.ob_grammar.specs.EndNamesAndNesting.{KeepsConditions};
ghost use Rattle.ob_parser.specs.ParseFaults.{lexemes_of, IsParseFault};
ghost use Rattle.ob_grammar.specs.View.{module_of};
ghost use Rattle.ob_scan.specs.Sources.{Steps, lexeme_of};
ghost use Rattle.ob_parser.specs.Forms as forms;
ghost use Rattle.ob_parser.specs.Answers.{IsAt, place_here, place_of_fault, IsSpelledAt, Went, Answers};

mod declarations;
mod expressions;
mod names;
pub mod source;
mod statements;
mod types;

use ob_grammar::module::Module;
use ob_scan::token::LARGEST_NUMBER;
use ob_scan::{Kind, Lent, ListedTokens, TokenSource, Tokens};
use std::alloc::{AllocError, AllocFailed, Global};
use thiserror::Error;

/// Why tokens are no module. A place is a byte offset from 0: that of the token at fault, or the
/// text's length where the end is at fault.
#[derive(Clone, Copy, Debug, Error)]
pub enum ParseFault {
    /// P1: the first token with which the tokens so far begin no module.
    #[error("P1 at {0}")]
    Unexpected(usize),
    /// P2: the token that opens a construct within 100 others.
    #[error("P2 at {0}")]
    TooDeep(usize),
    /// P3: the name after END differs from that of its module or procedure.
    #[error("P3 at {0}")]
    NameDiffers(usize),
    /// Want of memory.
    #[error("NoMemory")]
    NoMemory,
}

impl From<AllocError> for ParseFault {
    ghost use Rattle.std.specs.Prelude.{◌≡◌};
    ghost use Rattle.ob_parser.specs.declared.parser.ParseFault.TheVariants.{NoMemory};

    ghost from_gives = { λ _ e. e ≡ NoMemory };

    fn from(_: AllocError) -> ParseFault {
        ParseFault::NoMemory
    }
}

impl<T: Drop> From<AllocFailed<T>> for ParseFault {
    ghost use Rattle.std.specs.Prelude.{◌≡◌};
    ghost use Rattle.ob_parser.specs.declared.parser.ParseFault.TheVariants.{NoMemory};

    ghost from_gives = { λ _ e. e ≡ NoMemory };

    fn from(_: AllocFailed<T>) -> ParseFault {
        ParseFault::NoMemory
    }
}

/// A source of tokens, from the one that stands next on.
#[derive(Drop)]
struct Parser<S> {
    alloc: Global,
    source: S,
}

impl<S: TokenSource> Parser<S> {
    /// Whether a token of this kind stands here.
    fn at(&self, kind: Kind) -> bool
        ensures kind { IsTrue result ↔ (IsAt (S.state self.now.source) kind) }
        ensures within { IsTrue result → IsSome (S.state self.now.source).here }
    {
        match self.source.here() {
            Some(token) => token.kind == kind,
            None => false,
        }
    }

    /// The token that stands here, where one does.
    fn here(&self) -> Lent<'_>
        requires { IsSome (S.state self.now.source).here }
        ensures there { (S.state self.now.source).here ≡ Some (lexeme_of result) }
        ensures spelled { IsSpelled (lexeme_of result) }
    {
        match self.source.here() {
            Some(token) => token,
            None => unreachable!(),
        }
    }

    /// The bytes of the token that stands here.
    fn bytes(&self) -> &[u8]
        requires { IsSome (S.state self.now.source).here }
        ensures spelling { IsSpelledAt (S.state self.now.source) result.now }
        ensures ident { IsAt (S.state self.now.source) Kind.Ident → IsTrue (list_all is_ascii_alphanumeric result.now) }
        ensures digits { IsAt (S.state self.now.source) Kind.Number → IsTrue (list_all is_ascii_digit result.now) }
        ensures limit { IsAt (S.state self.now.source) Kind.Number → number_value result.now ≤ LARGEST_NUMBER }
    {
        self.here().text
    }

    /// That the token that stands here is at fault, or the end.
    fn unexpected(&self) -> ParseFault
        ensures { result ≡ ParseFault.Unexpected (place_of_fault (S.state self.now.source)) }
    {
        match self.source.here() {
            Some(token) => ParseFault::Unexpected(token.start),
            None => ParseFault::Unexpected(self.source.end()),
        }
    }

    /// That the token that stands here opens a construct too deep.
    fn too_deep(&self) -> ParseFault
        requires { IsSome (S.state self.now.source).here }
        ensures { result ≡ ParseFault.TooDeep (place_here (S.state self.now.source)) }
    {
        ParseFault::TooDeep(self.here().start)
    }

    /// Reads the token that stands here, and gives its place.
    fn take(&mut self) -> usize
        requires { IsSome (S.state self.old.source).here }
        ensures steps { Steps (S.state self.old.source) (S.state self.new.source) }
        ensures place { result ≡ place_here (S.state self.old.source) }
        ensures took { (k : Kind) → IsAt (S.state self.old.source) k → Went (forms.token k) (S.state self.old.source) result (S.state self.new.source) }
    {
        let place = self.here().start;
        self.source.step();
        place
    }

    /// Reads a token of this kind, and gives its place.
    fn expect(&mut self, kind: Kind) -> Result<usize, ParseFault>
        ensures answers { Answers (λ place. place) (forms.token kind) (S.state self.old.source) result (S.state self.new.source) }
        ensures moved { OnOk result ((S.state self.new.source).left < (S.state self.old.source).left) }
    {
        if self.at(kind) {
            Ok(self.take())
        } else {
            Err(self.unexpected())
        }
    }

    /// ["word"], as whether it stands here.
    fn word(&mut self, kind: Kind) -> bool
        ensures { (continues : Kind → Bool) → IsTrue (continues kind) → Went (forms.word continues kind) (S.state self.old.source) result (S.state self.new.source) }
    {
        let is_here = self.at(kind);
        if is_here {
            self.take();
        }
        is_here
    }
}

/// The module that the tokens derive. The first fault in the text is answered.
pub fn parse(alloc: Global, tokens: &Tokens<'_>) -> Result<Module, ParseFault>
    // The tokens derive the module and no other one, each name after END agrees, and nothing is too deep.
    ensures derives { IfOk result (λ m. Derives (lexemes_of tokens.now) (module_of m)) }
    ensures alone { IfOk result (λ m. (other : ModuleTree) → Derives (lexemes_of tokens.now) other → other ≡ module_of m) }
    ensures keeps { IfOk result (λ m. KeepsConditions (module_of m)) }

    // A fault says where no module goes on.
    ensures fault { IfErr result (λ e. IsParseFault tokens.now e) }
{
    let mut parser = Parser {
        alloc,
        source: ListedTokens::new(tokens),
    };
    let tree = parser.whole_module()?;
    Ok(Module::new(tree))
}
