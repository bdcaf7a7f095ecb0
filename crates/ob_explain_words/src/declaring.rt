//! Which names a text declares, whether it is a module or not: by its tokens alone.

ghost use Rattle.std.specs.Prelude.{◌≡◌, ◌↔◌, IsTrue, Some};
ghost use Rattle.ob_explain_words.specs.Declaring.{BeginsEquation, Declares, IsBeforeEqual, IsListed, IsWord, LeadsOne, TellsDeclared, TellsEquations};
ghost use Rattle.ob_scan.specs.declared.token.Kind.TheVariants as Kinds;

use ob_explain_names::declarations::token_bytes;
use ob_explain_sentences::first_word::is_same;
use ob_explain_tokens::operand_tokens::{is_colon, is_comma, is_name};
use ob_scan::{Kind, Token};

/// Whether a word is a name that the tokens of a text declare.
pub fn declares(text: &[u8], mut tokens: &[Token], word: &[u8]) -> bool
    ensures { IsTrue result ↔ Declares text.now tokens.entry.now word.now }
{
    let mut last: Option<Kind> = None;
    let mut equations = false;
    while let [first, rest @ ..] = tokens {
        if is_word(text, *first, word) && is_declared_at(last, equations, tokens) {
            return true;
        }
        last = Some(first.kind);
        equations = are_behind(equations, first.kind);
        tokens = rest;
    }
    false
}

/// Whether a token is the word, as a name.
fn is_word(text: &[u8], token: Token, word: &[u8]) -> bool
    ensures { IsTrue result ↔ IsWord text.now word.now token }
{
    is_name(token.kind) && is_same(token_bytes(text, token), word)
}

/// Whether the name with which tokens begin is declared there: behind a token of this kind, and where constants and types are declared or
/// not.
fn is_declared_at(last: Option<Kind>, equations: bool, tokens: &[Token]) -> bool
    ensures { TellsDeclared last equations tokens.now result }
{
    if is_procedure(last) {
        return true;
    }
    if begins_equation(last, equations, tokens) {
        return true;
    }
    is_listed(tokens)
}

fn is_procedure(last: Option<Kind>) -> bool
    ensures { IsTrue result ↔ (last ≡ Some Kinds.Procedure) }
{
    matches!(last, Some(Kind::Procedure))
}

/// Whether the declaration of a constant or of a type begins with these tokens.
fn begins_equation(last: Option<Kind>, equations: bool, tokens: &[Token]) -> bool
    ensures { IsTrue result ↔ BeginsEquation last equations tokens.now }
{
    equations && (leads_one(last) && is_before_equal(tokens))
}

fn leads_one(last: Option<Kind>) -> bool
    ensures { IsTrue result ↔ LeadsOne last }
{
    match last {
        Some(kind) => leads_declaration(kind),
        None => false,
    }
}

fn leads_declaration(kind: Kind) -> bool
    ensures { IsTrue result ↔ LeadsOne (Some kind) }
{
    match kind {
        Kind::Const => true,
        Kind::Type => true,
        Kind::Semicolon => true,
        _ => false,
    }
}

/// Whether a `=` stands behind the first of tokens.
fn is_before_equal(tokens: &[Token]) -> bool
    ensures { IsTrue result ↔ IsBeforeEqual tokens.now }
{
    match tokens {
        [_, second, ..] => matches!(second.kind, Kind::Equal),
        _ => false,
    }
}

/// Whether tokens begin with names, separated by commas, and a `:`.
fn is_listed(mut tokens: &[Token]) -> bool
    ensures { IsTrue result ↔ IsListed tokens.entry.now }
{
    while let [name, next, rest @ ..] = tokens {
        if !is_name(name.kind) {
            return false;
        }
        if !is_comma(next.kind) {
            return is_colon(next.kind);
        }
        tokens = rest;
    }
    false
}

/// Whether constants and types are declared behind a token, where they are before it or not.
fn are_behind(equations: bool, kind: Kind) -> bool
    ensures { TellsEquations equations kind result }
{
    match kind {
        Kind::Const | Kind::Type => true,
        Kind::Var | Kind::Procedure | Kind::Begin => false,
        _ => equations,
    }
}
