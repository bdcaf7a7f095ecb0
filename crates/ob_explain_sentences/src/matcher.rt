//! Which row of a table is given at a place: the first that holds of what may be seen there.

ghost use Rattle.std.specs.Prelude.{◌≡◌, map, option_map};
ghost use Rattle.std.specs.List.{list_all, list_any};
ghost use Rattle.ob_explain_sentences.specs.Rows.{byte_rows, construct_rows, declaration_rows, end_of, end_rows, first, function_rows, has, has_fact, has_word, hint_of, holds};
ghost use Rattle.ob_explain_sentences.specs.Rows.{is_one, is_seen, is_word, limit_rows, missing_rows, name_rows, of_tokens, option_or, pieces_of, placed_hint, placed_word_rows, section_rows, statement_word_rows};
ghost use Rattle.ob_explain_sentences.specs.Rows.{row_of, rule_rows, sentence_of, sentence_rows, separator_rows, sign_rows, statement_rows, symbol_rows};
ghost use Rattle.ob_explain_sentences.specs.Rows.{token_hint, type_rows, type_token_rows, unless, when_of, word_rows};

use crate::construct_rows::{CONSTRUCT_ROWS, MISSING_ROWS};
use crate::first_word::is_same_in_any_case;
use crate::function_rows::FUNCTION_ROWS;
use crate::sentence_rows::{END_ROWS, LIMIT_ROWS, SENTENCE_ROWS, TYPE_ROWS};
use crate::table_rows::{Fact, Number, Piece, Row, When, WhenOf};
use crate::token_rows::{
    DECLARATION_ROWS, RULE_ROWS, SECTION_ROWS, SEPARATOR_ROWS, SIGN_ROWS, STATEMENT_ROWS,
    SYMBOL_ROWS, TYPE_TOKEN_ROWS,
};
use crate::word_rows::{BYTE_ROWS, NAME_ROWS, PLACED_WORD_ROWS, STATEMENT_WORD_ROWS, WORD_ROWS};
use ob_scan::Kind;

/// What may be seen at the place of a fault, and around it.
#[derive(Clone, Copy)]
pub struct View<'a> {
    pub number: Number,
    /// The token there, those before it, and the next one behind it.
    pub here: Option<Kind>,
    pub last: Option<Kind>,
    pub second: Option<Kind>,
    pub next: Option<Kind>,
    /// The bytes from there on.
    pub from: &'a [u8],
    /// The names there and before it, and the name of the call that ends there, of those that the text does not declare; else empty.
    pub word: &'a [u8],
    pub word_before: &'a [u8],
    pub called: &'a [u8],
    /// What could stand there.
    pub could: &'a [Kind],
    pub facts: &'a [Fact],
}

/// The sentence of a fault, of the rows of its number.
pub(crate) fn sentence_of(view: &View) -> Option<&'static [Piece]>
    ensures { option_map pieces_of result ≡ sentence_of view.now }
{
    match view.number {
        Number::C4 => first(type_rows(), view),
        _ => either(first(sentence_rows(), view), first(limit_rows(), view)),
    }
}

/// The hint on a fault, of the rows of its number.
pub(crate) fn hint_of(view: &View) -> Option<&'static [Piece]>
    ensures { option_map pieces_of result ≡ hint_of view.now }
{
    match view.number {
        Number::S1 | Number::S2 => first(byte_rows(), view),
        Number::P1 => token_hint(view),
        Number::P3 => first(construct_rows(), view),
        Number::C1 => either(first(name_rows(), view), word_hint(view)),
        Number::C3 | Number::C4 | Number::C7 | Number::C10 => first(rule_rows(), view),
        _ => None,
    }
}

/// The hint on a token that can't stand there.
fn token_hint(view: &View) -> Option<&'static [Piece]>
    ensures { option_map pieces_of result ≡ token_hint view.now }
{
    let of_word = either(placed_hint(view), word_hint(view));
    let of_text = either(of_word, first(missing_rows(), view));
    let of_other = either(first(construct_rows(), view), of_text);
    either(
        first(function_rows(), view),
        either(of_tokens(view), of_other),
    )
}

/// The hint on a word of another language by the tokens around it.
fn placed_hint(view: &View) -> Option<&'static [Piece]>
    ensures { option_map pieces_of result ≡ placed_hint view.now }
{
    either(
        first(placed_word_rows(), view),
        first(statement_word_rows(), view),
    )
}

/// The same by the tokens around it.
fn of_tokens(view: &View) -> Option<&'static [Piece]>
    ensures { option_map pieces_of result ≡ of_tokens view.now }
{
    let of_sign = either(first(sign_rows(), view), first(symbol_rows(), view));
    let of_statement = either(first(statement_rows(), view), first(separator_rows(), view));
    let of_part = either(first(declaration_rows(), view), first(section_rows(), view));
    let of_declaration = either(first(type_token_rows(), view), of_part);
    either(of_sign, either(of_statement, of_declaration))
}

/// The hint on a word of another language.
pub fn word_hint(view: &View) -> Option<&'static [Piece]>
    ensures { option_map pieces_of result ≡ first view.now word_rows }
{
    first(word_rows(), view)
}

/// The end of a sentence. Beside a hint on a name that is not there no other name is told.
pub(crate) fn end_of(view: &View) -> Option<&'static [Piece]>
    ensures { option_map pieces_of result ≡ end_of view.now }
{
    match view.number {
        Number::C1 => unless(hint_of(view), first(end_rows(), view)),
        _ => first(end_rows(), view),
    }
}

/// The end of a sentence where there is no hint.
fn unless(hint: Option<&'static [Piece]>, end: Option<&'static [Piece]>) -> Option<&'static [Piece]>
    ensures { option_map pieces_of result ≡ unless (option_map pieces_of hint.entry) (option_map pieces_of end.entry) }
{
    match hint {
        Some(_) => None,
        None => end,
    }
}

/// The first, or else the other one.
fn either(
    said: Option<&'static [Piece]>,
    other: Option<&'static [Piece]>,
) -> Option<&'static [Piece]>
    ensures { option_map pieces_of result ≡ option_or (option_map pieces_of said.entry) (option_map pieces_of other.entry) }
{
    match said {
        Some(said) => Some(said),
        None => other,
    }
}

#[tactic(auto, unfolding(crate::specs::Rows::byte_rows))]
fn byte_rows() -> &'static [Row]
    ensures { map row_of result.now ≡ byte_rows }
{
    BYTE_ROWS
}

#[tactic(auto, unfolding(crate::specs::Rows::function_rows))]
fn function_rows() -> &'static [Row]
    ensures { map row_of result.now ≡ function_rows }
{
    FUNCTION_ROWS
}

#[tactic(auto, unfolding(crate::specs::Rows::sign_rows))]
fn sign_rows() -> &'static [Row]
    ensures { map row_of result.now ≡ sign_rows }
{
    SIGN_ROWS
}

#[tactic(auto, unfolding(crate::specs::Rows::symbol_rows))]
fn symbol_rows() -> &'static [Row]
    ensures { map row_of result.now ≡ symbol_rows }
{
    SYMBOL_ROWS
}

#[tactic(auto, unfolding(crate::specs::Rows::statement_rows))]
fn statement_rows() -> &'static [Row]
    ensures { map row_of result.now ≡ statement_rows }
{
    STATEMENT_ROWS
}

#[tactic(auto, unfolding(crate::specs::Rows::separator_rows))]
fn separator_rows() -> &'static [Row]
    ensures { map row_of result.now ≡ separator_rows }
{
    SEPARATOR_ROWS
}

#[tactic(auto, unfolding(crate::specs::Rows::type_token_rows))]
fn type_token_rows() -> &'static [Row]
    ensures { map row_of result.now ≡ type_token_rows }
{
    TYPE_TOKEN_ROWS
}

#[tactic(auto, unfolding(crate::specs::Rows::declaration_rows))]
fn declaration_rows() -> &'static [Row]
    ensures { map row_of result.now ≡ declaration_rows }
{
    DECLARATION_ROWS
}

#[tactic(auto, unfolding(crate::specs::Rows::section_rows))]
fn section_rows() -> &'static [Row]
    ensures { map row_of result.now ≡ section_rows }
{
    SECTION_ROWS
}

#[tactic(auto, unfolding(crate::specs::Rows::rule_rows))]
fn rule_rows() -> &'static [Row]
    ensures { map row_of result.now ≡ rule_rows }
{
    RULE_ROWS
}

#[tactic(auto, unfolding(crate::specs::Rows::construct_rows))]
fn construct_rows() -> &'static [Row]
    ensures { map row_of result.now ≡ construct_rows }
{
    CONSTRUCT_ROWS
}

#[tactic(auto, unfolding(crate::specs::Rows::missing_rows))]
fn missing_rows() -> &'static [Row]
    ensures { map row_of result.now ≡ missing_rows }
{
    MISSING_ROWS
}

#[tactic(auto, unfolding(crate::specs::Rows::word_rows))]
fn word_rows() -> &'static [Row]
    ensures { map row_of result.now ≡ word_rows }
{
    WORD_ROWS
}

#[tactic(auto, unfolding(crate::specs::Rows::placed_word_rows))]
fn placed_word_rows() -> &'static [Row]
    ensures { map row_of result.now ≡ placed_word_rows }
{
    PLACED_WORD_ROWS
}

#[tactic(auto, unfolding(crate::specs::Rows::statement_word_rows))]
fn statement_word_rows() -> &'static [Row]
    ensures { map row_of result.now ≡ statement_word_rows }
{
    STATEMENT_WORD_ROWS
}

#[tactic(auto, unfolding(crate::specs::Rows::name_rows))]
fn name_rows() -> &'static [Row]
    ensures { map row_of result.now ≡ name_rows }
{
    NAME_ROWS
}

#[tactic(auto, unfolding(crate::specs::Rows::sentence_rows))]
fn sentence_rows() -> &'static [Row]
    ensures { map row_of result.now ≡ sentence_rows }
{
    SENTENCE_ROWS
}

#[tactic(auto, unfolding(crate::specs::Rows::limit_rows))]
fn limit_rows() -> &'static [Row]
    ensures { map row_of result.now ≡ limit_rows }
{
    LIMIT_ROWS
}

#[tactic(auto, unfolding(crate::specs::Rows::type_rows))]
fn type_rows() -> &'static [Row]
    ensures { map row_of result.now ≡ type_rows }
{
    TYPE_ROWS
}

#[tactic(auto, unfolding(crate::specs::Rows::end_rows))]
fn end_rows() -> &'static [Row]
    ensures { map row_of result.now ≡ end_rows }
{
    END_ROWS
}

/// What the first row says that holds.
fn first(mut rows: &[Row], view: &View) -> Option<&'static [Piece]>
    ensures { option_map pieces_of result ≡ first view.now (map row_of rows.entry.now) }
{
    while let [row, rest @ ..] = rows {
        if holds(row.when, view) {
            return Some(row.said);
        }
        rows = rest;
    }
    None
}

/// Whether all these conditions hold.
fn holds(mut conditions: &[When], view: &View) -> bool
    ensures { result ≡ holds view.now (map when_of conditions.entry.now) }
{
    while let [when, rest @ ..] = conditions {
        if !is_seen(*when, view) {
            return false;
        }
        conditions = rest;
    }
    true
}

/// Whether a condition holds.
fn is_seen(when: When, view: &View) -> bool
    ensures { result ≡ is_seen view.now (when_of when.entry) }
{
    match when {
        WhenOf::On(number) => view.number == number,
        WhenOf::Here(kinds) => is_one(kinds, view.here),
        WhenOf::Last(kinds) => is_one(kinds, view.last),
        WhenOf::Second(kinds) => is_one(kinds, view.second),
        WhenOf::Next(kinds) => is_one(kinds, view.next),
        WhenOf::Could(kinds) => could(kinds, view),
        WhenOf::Never(kinds) => !one_could(kinds, view),
        WhenOf::Sign(sign) => view.from.starts_with(sign.as_bytes()),
        WhenOf::Word(words) => has_word(words, view),
        WhenOf::Is(fact) => has_fact(fact, view),
        WhenOf::Not(fact) => !has_fact(fact, view),
    }
}

/// Whether a token is one of these.
fn is_one(kinds: &[Kind], token: Option<Kind>) -> bool
    ensures { result ≡ is_one kinds.now token }
{
    match token {
        Some(kind) => kinds.contains(&kind),
        None => false,
    }
}

/// Whether each of these could stand there.
fn could(kinds: &[Kind], view: &View) -> bool
    ensures { result ≡ list_all (has view.now.could.now) kinds.now }
{
    kinds.iter().all(|kind| has(view.could, *kind))
}

/// Whether one of these could.
fn one_could(kinds: &[Kind], view: &View) -> bool
    ensures { result ≡ list_any (has view.now.could.now) kinds.now }
{
    kinds.iter().any(|kind| has(view.could, *kind))
}

/// Whether a kind is among these.
fn has(kinds: &[Kind], kind: Kind) -> bool
    ensures { result ≡ has kinds.now kind }
{
    kinds.contains(&kind)
}

fn has_fact(fact: Fact, view: &View) -> bool
    ensures { result ≡ has_fact view.now fact }
{
    view.facts.contains(&fact)
}

/// Whether one of these words stands there.
fn has_word(mut words: &[&'static str], view: &View) -> bool
    ensures { result ≡ has_word view.now (map (λ w. w.now) words.entry.now) }
{
    while let [word, rest @ ..] = words {
        if is_word(word.as_bytes(), view) {
            return true;
        }
        words = rest;
    }
    false
}

fn is_word(word: &[u8], view: &View) -> bool
    ensures { result ≡ is_word view.now word.now }
{
    is_same_in_any_case(view.word, word)
        || (is_same_in_any_case(view.word_before, word) || is_same_in_any_case(view.called, word))
}
