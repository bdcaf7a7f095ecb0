//! The language's own words in capitals.

ghost use Rattle.std.specs.Prelude.{◌≡◌, IfOk};
ghost use Rattle.std.specs.Char.{to_ascii_uppercase};
ghost use Rattle.ob_mendings.specs.Mendings.{AreSameButForCase};

use ob_explain_sentences::place::halves;
use ob_explain_tokens::around::tokens_of;
use ob_explain_words::declaring::declares;
use ob_scan::{Kind, Token};
use std::alloc::{AllocError, Global};

/// The words of the language that have letters, in small ones.
const WORDS: [&[u8]; 25] = [
    b"module",
    b"begin",
    b"end",
    b"const",
    b"type",
    b"var",
    b"procedure",
    b"array",
    b"of",
    b"record",
    b"if",
    b"then",
    b"elsif",
    b"else",
    b"while",
    b"do",
    b"repeat",
    b"until",
    b"div",
    b"mod",
    b"or",
    b"integer",
    b"boolean",
    b"true",
    b"false",
];

/// The text with words of the language in capitals that it has in small letters.
pub(crate) fn in_capitals(alloc: Global, text: &[u8]) -> Result<Vec<u8>, AllocError>
    ensures { IfOk result (λ whole. AreSameButForCase whole.items text.now) }
{
    let small = small_words(alloc, text)?;
    with_capitals(alloc, text, &small)
}

/// The text with these tokens in capitals, which stand in their order.
fn with_capitals(alloc: Global, text: &[u8], small: &[Token]) -> Result<Vec<u8>, AllocError>
    ensures { IfOk result (λ whole. AreSameButForCase whole.items text.now) }
{
    let mut whole = Vec::new(alloc);
    let mut rest = small;
    for (at, byte) in text.iter().enumerate() {
        rest = ending_behind(rest, at);
        whole.push(in_case(*byte, covers(rest, at)))?;
    }
    Ok(whole)
}

/// These tokens without the first one, if that ends up to a place.
fn ending_behind(tokens: &[Token], at: usize) -> &[Token] {
    match tokens {
        [first, rest @ ..] if first.end <= at => rest,
        _ => tokens,
    }
}

/// Whether the first of these tokens stands at a place.
fn covers(tokens: &[Token], at: usize) -> bool {
    match tokens {
        [first, ..] => first.start <= at,
        [] => false,
    }
}

/// A letter as a capital, or as it is.
fn in_case(byte: u8, is_capital: bool) -> u8
    ensures { to_ascii_uppercase result ≡ to_ascii_uppercase byte }
{
    if is_capital {
        byte.to_ascii_uppercase()
    } else {
        byte
    }
}

/// The words of the language that stand in a text in small letters, where it does not declare them.
pub fn small_words(alloc: Global, text: &[u8]) -> Result<Vec<Token>, AllocError> {
    let tokens = tokens_of(alloc, text)?;
    let words = undeclared(alloc, text, &tokens)?;
    let mut small = Vec::new(alloc);
    for token in &tokens {
        if token.kind == Kind::Ident && words.contains(&word_at(text, *token)) {
            small.push(*token)?;
        }
    }
    Ok(small)
}

/// The words of the language that a text does not declare in small letters.
fn undeclared(
    alloc: Global,
    text: &[u8],
    tokens: &[Token],
) -> Result<Vec<&'static [u8]>, AllocError> {
    let mut words = Vec::new(alloc);
    for word in &WORDS {
        if !declares(text, tokens, word) {
            words.push(*word)?;
        }
    }
    Ok(words)
}

/// The bytes of a token.
fn word_at(text: &[u8], token: Token) -> &[u8] {
    let (_, from) = halves(text, token.start);
    let (word, _) = halves(from, token.end.saturating_sub(token.start));
    word
}
