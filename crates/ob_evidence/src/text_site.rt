//! A place in a text, and what stands around it.

ghost use Rattle.std.specs.Prelude.{◌≡◌, IfOk};
ghost use Rattle.ob_evidence.specs.Sites.{IsScene, here, is_kind, is_token, kind_of, kind_or_name, last, line_of, next, rest_of};
ghost use Rattle.ob_evidence.specs.Sites.{scene_in, scene_of, second, second_of, word, word_of};

use ob_explain_names::declarations::first_of;
use ob_explain_names::known::Known;
use ob_explain_names::lookup::name_at;
use ob_explain_names::visible::visible_names;
use ob_explain_sentences::place::place_in;
use ob_explain_tokens::around::{tokens_before, tokens_behind, tokens_of};
use ob_scan::{Kind, Token};
use std::alloc::{AllocError, Global};

/// What is found around a place of a text.
#[derive(Drop)]
pub struct Around {
    /// The tokens of the text, those before the place, the last one first, and those behind it.
    pub tokens: Vec<Token>,
    pub before: Vec<Token>,
    pub behind: Vec<Token>,
    /// The names that are visible at the place.
    pub known: Vec<Known>,
}

/// A place in a text, with what is found around it.
#[derive(Clone, Copy)]
pub struct Site<'t, 'a> {
    pub text: &'t [u8],
    pub place: usize,
    pub tokens: &'a [Token],
    pub before: &'a [Token],
    pub behind: &'a [Token],
    pub known: &'a [Known],
}

/// What stands around a place of a text.
pub fn look_around(alloc: Global, text: &[u8], place: usize) -> Result<Around, AllocError>
    ensures { IfOk result (λ found. IsScene text.now place (scene_in text.now place found)) }
{
    let tokens = tokens_of(alloc, text)?;
    let before = tokens_before(alloc, &tokens, place)?;
    let behind = tokens_behind(alloc, &tokens, place)?;
    let known = visible_names(alloc, text, place)?;
    Ok(Around {
        tokens,
        before,
        behind,
        known,
    })
}

impl Around {
    /// The place of the text around which this was found.
    pub fn site<'t, 'a>(&'a self, text: &'t [u8], place: usize) -> Site<'t, 'a>
        ensures { scene_of result ≡ scene_in text.now place self.now }
    {
        Site {
            text,
            place,
            tokens: &self.tokens,
            before: &self.before,
            behind: &self.behind,
            known: &self.known,
        }
    }
}

impl<'t, 'a> Site<'t, 'a> {
    /// The token at the place.
    pub fn here(&self) -> Option<Token>
        ensures { result ≡ here (scene_of self.now) }
    {
        let place = self.place;
        self.tokens
            .iter()
            .copied()
            .find(|token| token.start == place)
    }

    /// The last token before it.
    pub fn last(&self) -> Option<Token>
        ensures { result ≡ last (scene_of self.now) }
    {
        first_of(self.before)
    }

    /// The last but one.
    pub fn second(&self) -> Option<Token>
        ensures { result ≡ second (scene_of self.now) }
    {
        second_of(self.before)
    }

    /// The next one behind it.
    pub fn next(&self) -> Option<Token>
        ensures { result ≡ next (scene_of self.now) }
    {
        first_of(self.behind)
    }

    /// The word at the place; empty where a number or a symbol stands there.
    pub fn word(&self) -> &'t [u8]
        ensures { result.now ≡ word (scene_of self.now) }
    {
        name_at(self.text, self.place)
    }

    /// The word that a token is; empty where it is a number or a symbol, or there is none.
    pub fn word_of(&self, token: Option<Token>) -> &'t [u8]
        ensures { result.now ≡ word_of self.now.text.now token }
    {
        match token {
            Some(token) => name_at(self.text, token.start),
            None => b"",
        }
    }
}

/// The second of tokens.
fn second_of(tokens: &[Token]) -> Option<Token>
    ensures { result ≡ second_of tokens.now }
{
    match tokens {
        [_, second, ..] => Some(*second),
        _ => None,
    }
}

/// All tokens but the first.
pub fn rest_of(tokens: &[Token]) -> &[Token]
    ensures { result.now ≡ rest_of tokens.now }
{
    match tokens {
        [_, rest @ ..] => rest,
        [] => tokens,
    }
}

/// What a token is.
pub fn kind_of(token: Option<Token>) -> Option<Kind>
    ensures { result ≡ kind_of token }
{
    match token {
        Some(token) => Some(token.kind),
        None => None,
    }
}

/// Whether a token is there.
pub fn is_token(token: Option<Token>) -> bool
    ensures { result ≡ is_token token }
{
    match token {
        Some(_) => true,
        None => false,
    }
}

/// Whether a token is there, and of this kind.
pub fn is_kind(token: Option<Token>, kind: Kind) -> bool
    ensures { result ≡ is_kind token kind }
{
    match token {
        Some(token) => token.kind == kind,
        None => false,
    }
}

/// What a token is; a name where there is none.
pub fn kind_or_name(token: Option<Token>) -> Kind
    ensures { result ≡ kind_or_name token }
{
    match token {
        Some(token) => token.kind,
        None => Kind::Ident,
    }
}

/// The line in which a token stands.
pub fn line_of(text: &[u8], token: Option<Token>) -> usize
    ensures { result ≡ line_of text.now token }
{
    match token {
        Some(token) => place_in(text, token.start).line,
        None => 0,
    }
}
