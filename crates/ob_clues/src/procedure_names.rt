//! Names of procedures and of what is declared, and headings, by the tokens of a text alone.

use crate::habits::begun_from;
use ob_evidence::nearest_names::leads_to_statement;
use ob_evidence::small_keywords::{first_of_statement, next_behind};
use ob_evidence::text_site::{Site, is_kind};
use ob_explain_tokens::actuals::ends_call;
use ob_explain_tokens::open::{is_in_record, open_construct};
use ob_scan::{Kind, Token};

/// Whether a procedure of this name is declared among these tokens.
pub fn is_procedure(site: &Site<'_, '_>, tokens: &[Token], word: &[u8]) -> bool {
    let mut is_behind = false;
    for token in tokens {
        if is_behind && site.word_of(Some(*token)) == word {
            return true;
        }
        is_behind = token.kind == Kind::Procedure;
    }
    false
}

/// The name behind the next END behind the place.
pub fn next_ended<'t>(site: &Site<'t, '_>) -> &'t [u8] {
    for token in site.behind {
        if token.kind == Kind::End {
            return site.word_of(next_behind(site.tokens, token.start));
        }
    }
    b""
}

/// Whether the name at a token stands at another one before it.
pub fn stands_before(site: &Site<'_, '_>, name: Token) -> bool {
    let word = site.word_of(Some(name));
    for token in site.tokens {
        if token.start < name.start && site.word_of(Some(*token)) == word {
            return true;
        }
    }
    false
}

/// Whether a `*` stands behind the name of the procedure in whose heading the place stands.
pub fn is_in_export(site: &Site<'_, '_>) -> bool {
    let mut behind = Kind::Procedure;
    let mut name = Kind::Procedure;
    for token in site.before {
        if token.kind == Kind::Procedure {
            return behind == Kind::Times;
        }
        behind = name;
        name = token.kind;
    }
    false
}

/// Whether a record before the place has a field of this name.
pub fn is_field(site: &Site<'_, '_>, word: &[u8]) -> bool {
    let mut is_listed = false;
    for (count, token) in site.before.iter().enumerate() {
        if is_listed && site.word_of(Some(*token)) == word && is_field_place(site.before, count) {
            return true;
        }
        is_listed = matches!(token.kind, Kind::Colon | Kind::Comma);
    }
    false
}

/// Whether the token before which so many of these stand, the last one first, stands in a record.
fn is_field_place(before: &[Token], count: usize) -> bool {
    let (_, rest) = before.split_at(count.min(before.len()));
    is_in_record(rest)
}

/// Whether a `:` or a `,` stands behind this name.
pub fn lists(site: &Site<'_, '_>, word: &[u8]) -> bool {
    let mut is_named = false;
    for token in site.tokens {
        if is_named && matches!(token.kind, Kind::Colon | Kind::Comma) {
            return true;
        }
        is_named = site.word_of(Some(*token)) == word;
    }
    false
}

/// Whether a `:=` stands behind the place before the end of the statement or of its condition.
pub fn is_assigned(site: &Site<'_, '_>) -> bool {
    for token in site.behind {
        if ends_statement(token.kind) {
            return token.kind == Kind::Assign;
        }
    }
    false
}

/// Whether a `:=` stands before the place in its statement.
pub fn is_behind_assign(site: &Site<'_, '_>) -> bool {
    for token in site.before {
        if token.kind == Kind::Assign
            || leads_to_statement(token.kind)
            || begins_condition(token.kind)
        {
            return token.kind == Kind::Assign;
        }
    }
    false
}

/// Whether a condition stands behind a token.
fn begins_condition(kind: Kind) -> bool {
    matches!(kind, Kind::If | Kind::Elsif | Kind::While | Kind::Until)
}

fn ends_statement(kind: Kind) -> bool {
    ends_call(kind) || matches!(kind, Kind::Assign | Kind::Then | Kind::Do)
}

/// The name of the call that may end behind the place, or in whose parentheses it stands, where tokens of these kinds could stand.
pub fn called(site: &Site<'_, '_>, could: &[Kind]) -> Option<Token> {
    let ends_statement = could.contains(&Kind::End) || could.contains(&Kind::Until);
    let ends = (could.contains(&Kind::Assign) && could.contains(&Kind::LeftParen))
        || (is_kind(site.last(), Kind::RightParen) && ends_statement && !could.contains(&Kind::And))
        || (could.contains(&Kind::RightParen) && could.contains(&Kind::Comma));
    if ends { first_of_statement(site) } else { None }
}

/// Whether the statement in which the place stands begins with the name of a procedure and a `[`.
pub fn begins_with_bracket(site: &Site<'_, '_>) -> bool {
    match first_of_statement(site) {
        Some(name) => {
            is_kind(next_behind(site.tokens, name.start), Kind::LeftBracket)
                && is_procedure(site, site.tokens, site.word_of(Some(name)))
        }
        None => false,
    }
}

/// Whether the token there is to end a REPEAT, where tokens of these kinds could stand: a WHILE without a DO in place of UNTIL, or the
/// end of the statements behind the condition of one.
pub fn ends_repeat(site: &Site<'_, '_>, could: &[Kind]) -> bool {
    let Some(here) = site.here() else {
        return false;
    };
    (here.kind == Kind::While && could.contains(&Kind::Until) && !leads_on(site))
        || (could.contains(&Kind::Do) && ends_call(here.kind) && is_in_repeat(site))
}

/// Whether a DO stands behind the place before the end of the statement.
fn leads_on(site: &Site<'_, '_>) -> bool {
    for token in site.tokens {
        if site.place < token.start && (token.kind == Kind::Do || ends_call(token.kind)) {
            return token.kind == Kind::Do;
        }
    }
    false
}

/// Whether the construct that is open at the place stands in a REPEAT.
fn is_in_repeat(site: &Site<'_, '_>) -> bool {
    let Some(opening) = open_construct(site.before) else {
        return false;
    };
    let inside = begun_from(site.before, opening.start);
    let (_, before) = site.before.split_at(inside.min(site.before.len()));
    is_kind(open_construct(before), Kind::Repeat)
}

/// Whether the name there stands elsewhere too, but in no heading, and this one, of a heading, nowhere else.
pub fn is_renamed(site: &Site<'_, '_>, name: &[u8]) -> bool {
    let mut others: usize = 0;
    let mut own: usize = 0;
    let mut is_heading = false;
    for token in site.tokens {
        let word = site.word_of(Some(*token));
        if word == name {
            own = own.saturating_add(1);
        } else if word == site.word() {
            if is_heading {
                return false;
            }
            others = others.saturating_add(1);
        }
        is_heading = matches!(token.kind, Kind::Procedure | Kind::Module);
    }
    own == 1 && others > 1 && !site.word().is_empty()
}
