//! What stands further on behind a place: whether a parenthesis is closed there, whether a BEGIN begins a block, what is declared.

use crate::foreign::is_type_name;
use ob_evidence::text_site::{Site, is_kind, is_token};
use ob_explain_tokens::operand_tokens::{is_left, is_right};
use ob_scan::{Kind, Token};

/// Whether a token stands there behind the END of the module, its name and the `.`.
pub fn has_ended(site: &Site<'_, '_>) -> bool {
    match site.before {
        [dot, name, end, ..] => {
            is_token(site.here())
                && dot.kind == Kind::Dot
                && name.kind == Kind::Ident
                && end.kind == Kind::End
        }
        _ => false,
    }
}

/// Whether a `)` that no `(` behind the place opens stands before the next keyword or `:=`.
pub fn is_closed_behind(site: &Site<'_, '_>) -> bool {
    let mut open: usize = 0;
    for token in site.behind {
        if is_right(token.kind) && open == 0 {
            return true;
        }
        if is_no_actual(token.kind) {
            return false;
        }
        open = open_behind(open, token.kind);
    }
    false
}

/// How many `(` are open behind a token, where so many are before it.
fn open_behind(open: usize, kind: Kind) -> usize {
    if is_left(kind) {
        open.saturating_add(1)
    } else if is_right(kind) {
        open.saturating_sub(1)
    } else {
        open
    }
}

/// Whether a token stands in no list of actuals.
fn is_no_actual(kind: Kind) -> bool {
    matches!(
        kind,
        Kind::Assign
            | Kind::If
            | Kind::While
            | Kind::Repeat
            | Kind::Until
            | Kind::Then
            | Kind::Do
            | Kind::Else
            | Kind::Elsif
            | Kind::Begin
            | Kind::End
            | Kind::Procedure
            | Kind::Module
    )
}

/// Whether a BEGIN stands there, and no name behind the END that closes it.
pub fn begins_block(site: &Site<'_, '_>) -> bool {
    let mut open: usize = 0;
    let mut is_end = false;
    for token in site.behind {
        if is_end {
            return is_kind(site.here(), Kind::Begin) && token.kind != Kind::Ident;
        }
        is_end = open == 0 && token.kind == Kind::End;
        open = blocks_behind(open, token.kind);
    }
    is_kind(site.here(), Kind::Begin) && is_end
}

/// How many constructs of statements are open behind a token, where so many are before it.
fn blocks_behind(open: usize, kind: Kind) -> usize {
    match kind {
        Kind::If | Kind::While | Kind::Repeat | Kind::Begin => open.saturating_add(1),
        Kind::End | Kind::Until => open.saturating_sub(1),
        _ => open,
    }
}

/// The name of a constant, a type or a procedure that is this word, where it is declared behind the place.
pub fn declared_below(site: &Site<'_, '_>, word: &[u8]) -> Option<Token> {
    let mut last = Kind::Module;
    let mut named: Option<Token> = None;
    for token in site.behind {
        if named.is_some() && token.kind == Kind::Equal {
            return named;
        }
        let is_word = !word.is_empty() && site.word_of(Some(*token)) == word;
        if is_word && last == Kind::Procedure {
            return Some(*token);
        }
        let begins = matches!(last, Kind::Semicolon | Kind::Const | Kind::Type);
        named = if is_word && begins {
            Some(*token)
        } else {
            None
        };
        last = token.kind;
    }
    None
}

/// Whether a word is the name of a type, of this text or of a language.
pub fn is_type(site: &Site<'_, '_>, word: &[u8]) -> bool {
    is_type_name(word) || declares_type(site, word)
}

/// Whether a `[` stands there, and a type behind the `]` that closes it.
pub fn is_before_type(site: &Site<'_, '_>) -> bool {
    let mut last = Kind::LeftBracket;
    for token in site.behind {
        if last == Kind::RightBracket {
            return is_kind(site.here(), Kind::LeftBracket)
                && (matches!(token.kind, Kind::Array | Kind::Record)
                    || is_type(site, site.word_of(Some(*token))));
        }
        last = token.kind;
    }
    false
}

/// Whether a type of this name is declared in the text.
fn declares_type(site: &Site<'_, '_>, word: &[u8]) -> bool {
    let mut in_types = false;
    let mut is_named = false;
    for token in site.tokens {
        if is_named && token.kind == Kind::Equal {
            return true;
        }
        in_types = is_in_types(in_types, token.kind);
        is_named = in_types && !word.is_empty() && site.word_of(Some(*token)) == word;
    }
    false
}

/// Whether a word is the name of the type in whose declaration the place stands.
pub fn is_own_type(site: &Site<'_, '_>, word: &[u8]) -> bool {
    is_defined_there(site, word) && stands_in_types(site)
}

/// Whether a word is the name of the constant, the variable or the parameter in whose declaration the place stands.
pub fn is_own_name(site: &Site<'_, '_>, word: &[u8]) -> bool {
    matches!(listed(site, word), Listing::There)
        || (is_defined_there(site, word) && !stands_in_types(site))
}

/// Whether declarations of types stand at the place.
fn stands_in_types(site: &Site<'_, '_>) -> bool {
    for token in site.before {
        if matches!(
            token.kind,
            Kind::Const | Kind::Type | Kind::Var | Kind::Procedure | Kind::Begin
        ) {
            return token.kind == Kind::Type;
        }
    }
    false
}

/// Whether a word is the name of the constant or of the type in whose declaration the place stands.
fn is_defined_there(site: &Site<'_, '_>, word: &[u8]) -> bool {
    let mut is_type = false;
    for token in site.before {
        if is_type && !word.is_empty() && site.word_of(Some(*token)) == word {
            return true;
        }
        if !is_in_types(true, token.kind) || token.kind == Kind::Type {
            return false;
        }
        is_type = token.kind == Kind::Equal;
    }
    false
}

/// Whether declarations of types stand behind a token.
fn is_in_types(in_types: bool, kind: Kind) -> bool {
    match kind {
        Kind::Type => true,
        Kind::Var | Kind::Procedure | Kind::Begin | Kind::Const => false,
        _ => in_types,
    }
}

/// Where variables and parameters of a name are declared before a place: nowhere, in the declaration in which it stands, or only in
/// declarations that have ended.
#[derive(Clone, Copy)]
enum Listing {
    Nowhere,
    There,
    Before,
}

/// Whether a variable or a parameter of this name is declared before the place, where none of it is visible: so in a procedure that
/// has ended.
pub fn is_elsewhere(site: &Site<'_, '_>, word: &[u8]) -> bool {
    matches!(listed(site, word), Listing::Before)
}

/// Where a variable or a parameter of this name is declared before the place.
fn listed(site: &Site<'_, '_>, word: &[u8]) -> Listing {
    let mut found = Listing::Nowhere;
    let mut is_listed = false;
    let mut records: usize = 0;
    let mut last = Kind::Module;
    for token in site.tokens {
        if site.place <= token.start {
            return found;
        }
        if records == 0 && token.kind == Kind::Semicolon {
            found = ended(found);
        }
        let begins = is_listed && records == 0 && begins_name(last);
        if begins && !word.is_empty() && site.word_of(Some(*token)) == word {
            found = Listing::There;
        }
        is_listed = is_in_list(is_listed, records, token.kind);
        records = records_behind(records, token.kind);
        last = token.kind;
    }
    found
}

/// The same behind the `;` of a declaration.
fn ended(found: Listing) -> Listing {
    match found {
        Listing::Nowhere => Listing::Nowhere,
        _ => Listing::Before,
    }
}

/// Whether the name of a variable or of a parameter may stand behind a token.
fn begins_name(kind: Kind) -> bool {
    matches!(
        kind,
        Kind::Var | Kind::Semicolon | Kind::Comma | Kind::LeftParen
    )
}

/// How many records are open behind a token, where so many are before it.
fn records_behind(open: usize, kind: Kind) -> usize {
    match kind {
        Kind::Record => open.saturating_add(1),
        Kind::End => open.saturating_sub(1),
        _ => open,
    }
}

/// Whether variables or parameters are declared behind a token, where so many records are open before it.
fn is_in_list(is_listed: bool, records: usize, kind: Kind) -> bool {
    match kind {
        Kind::Var | Kind::Procedure => true,
        Kind::Begin | Kind::Const | Kind::Type => false,
        Kind::End => is_listed && records > 0,
        _ => is_listed,
    }
}
