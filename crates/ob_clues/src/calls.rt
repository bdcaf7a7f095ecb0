//! What a call is meant to be that stands in an expression: that of a procedure with a VAR parameter more, or the length of an array.

use ob_evidence::small_keywords::{first_of_statement, next_behind};
use ob_evidence::text_site::{Site, is_kind, rest_of};
use ob_explain_names::declarations::first_of;
use ob_explain_sentences::place::halves;
use ob_explain_tokens::actuals::ends_call;
use ob_scan::{Kind, Token};
use std::alloc::{AllocError, Global};

/// The parameters of a procedure, or the arguments of a call: how many there are, whether VAR stands before the last ones, and a parenthesis
/// around them.
#[derive(Clone, Copy)]
struct List {
    count: usize,
    is_var: bool,
    paren: Token,
}

/// The call that is meant by `v := P(x)`, at whose `(` the place stands: `P(x, v)`, if P has one parameter more than that, behind VAR; else
/// nothing.
pub fn call_meant(alloc: Global, site: &Site<'_, '_>) -> Result<Vec<u8>, AllocError> {
    let mut call = Vec::new(alloc);
    let (Some(arguments), Some(first), Some(assign), Some(name)) = (
        handed_list(site),
        first_of_statement(site),
        site.second(),
        site.last(),
    ) else {
        return Ok(call);
    };
    let Some(parameters) = heading_list(site, site.word_of(Some(name))) else {
        return Ok(call);
    };
    if is_kind(site.here(), Kind::LeftParen)
        && name.kind == Kind::Ident
        && assign.kind == Kind::Assign
        && parameters.is_var
        && parameters.count == arguments.count.saturating_add(1)
    {
        let open = between(site.text, name.start, site.place);
        call.extend_from_slice(open.trim_ascii())?;
        call.extend_from_slice(between(site.text, site.place, arguments.paren.start))?;
        call.extend_from_slice(if arguments.count == 0 { b"" } else { b", " })?;
        call.extend_from_slice(between(site.text, first.start, assign.start).trim_ascii())?;
        call.push(b')')?;
    }
    Ok(call)
}

/// The arguments of the call at whose `(` the place stands, if the statement ends behind it.
fn handed_list(site: &Site<'_, '_>) -> Option<List> {
    let mut inside: usize = 0;
    let mut commas: usize = 0;
    let mut is_empty = true;
    for token in site.behind {
        match token.kind {
            Kind::RightParen if inside == 0 => {
                let behind = next_behind(site.tokens, token.start)?;
                let count = if is_empty {
                    0
                } else {
                    commas.saturating_add(1)
                };
                let list = List {
                    count,
                    is_var: false,
                    paren: *token,
                };
                return if ends_call(behind.kind) {
                    Some(list)
                } else {
                    None
                };
            }
            Kind::LeftParen | Kind::LeftBracket => inside = inside.saturating_add(1),
            Kind::RightParen | Kind::RightBracket => inside = inside.saturating_sub(1),
            Kind::Comma if inside == 0 => commas = commas.saturating_add(1),
            kind if ends_call(kind) => return None,
            _ => {}
        }
        is_empty = false;
    }
    None
}

/// The parameters in the heading of the procedure of this name.
fn heading_list(site: &Site<'_, '_>, name: &[u8]) -> Option<List> {
    let mut list: Option<List> = None;
    let mut is_type = false;
    for token in tokens_behind_heading(site, name) {
        match (token.kind, list) {
            (Kind::Times, None) => {}
            (Kind::LeftParen, None) => {
                list = Some(List {
                    count: 0,
                    is_var: false,
                    paren: *token,
                });
            }
            (Kind::RightParen, Some(_)) => return list,
            (Kind::Var, Some(found)) => list = Some(List {
                is_var: true,
                ..found
            }),
            (Kind::Semicolon, Some(found)) => {
                is_type = false;
                list = Some(List {
                    is_var: false,
                    ..found
                });
            }
            (Kind::Colon, Some(_)) => is_type = true,
            (Kind::Ident, Some(found)) if !is_type => {
                list = Some(List {
                    count: found.count.saturating_add(1),
                    ..found
                });
            }
            (Kind::Ident | Kind::Comma, Some(_)) => {}
            _ => return None,
        }
    }
    None
}

/// The tokens behind the name in the heading of the procedure of this name; none where there is no such procedure.
fn tokens_behind_heading<'a>(site: &Site<'_, 'a>, name: &[u8]) -> &'a [Token] {
    let mut rest = site.tokens;
    let mut last = Kind::Module;
    for token in site.tokens {
        rest = rest_of(rest);
        if last == Kind::Procedure && site.word_of(Some(*token)) == name {
            return rest;
        }
        last = token.kind;
    }
    &[]
}

/// The length, as it is declared, of the array whose name alone stands in the parentheses that begin at the place; else nothing.
pub fn length_meant<'t>(site: &Site<'t, '_>) -> &'t [u8] {
    let close = first_of(rest_of(site.behind));
    match length_of(site, site.word_of(site.next())) {
        Some(length) if is_kind(close, Kind::RightParen) && is_kind(site.here(), Kind::LeftParen) =>
            { length }
        _ => b"",
    }
}

/// The same of the array whose name alone stands before the `.` at the place.
pub fn length_before<'t>(site: &Site<'t, '_>) -> &'t [u8] {
    let is_alone = is_kind(site.here(), Kind::Dot) && !is_kind(site.second(), Kind::Dot);
    match length_of(site, site.word_of(site.last())) {
        Some(length) if is_alone => length,
        _ => b"",
    }
}

/// The length of the array of this name, as it stands in its declaration, or in that of its type.
fn length_of<'t>(site: &Site<'t, '_>, name: &[u8]) -> Option<&'t [u8]> {
    let variable = declared_around(site, name, &[Kind::Colon, Kind::Comma])?;
    let first = type_behind(site, variable.start)?;
    if first.kind != Kind::Ident {
        return length_in(site, first);
    }
    let named = declared_around(site, site.word_of(Some(first)), &[Kind::Equal])?;
    length_in(site, type_behind(site, named.start)?)
}

/// The name before one of these signs in the nearest declaration around the body of the place. What stands in other procedures and in records
/// is passed over.
fn declared_around(site: &Site<'_, '_>, name: &[u8], signs: &[Kind]) -> Option<Token> {
    let mut inside: usize = 0;
    let mut is_behind_body = false;
    let mut last = Kind::Module;
    for token in site.before {
        match token.kind {
            Kind::End => inside = inside.saturating_add(1),
            Kind::If | Kind::While | Kind::Record | Kind::Procedure => {
                inside = inside.saturating_sub(1);
            }
            Kind::Begin if inside == 0 => is_behind_body = true,
            Kind::Ident
                if inside == 0
                    && is_behind_body
                    && signs.contains(&last)
                    && site.word_of(Some(*token)) == name => {
                return Some(*token);
            }
            _ => {}
        }
        last = token.kind;
    }
    None
}

/// The first token of the type in the declaration of the name at a place.
fn type_behind(site: &Site<'_, '_>, place: usize) -> Option<Token> {
    let mut is_behind = false;
    for token in site.tokens {
        if is_behind {
            return Some(*token);
        }
        if place < token.start {
            match token.kind {
                Kind::Ident | Kind::Comma => {}
                Kind::Colon | Kind::Equal => is_behind = true,
                _ => return None,
            }
        }
    }
    None
}

/// The length in a type that begins with this token, if that is an array's.
fn length_in<'t>(site: &Site<'t, '_>, first: Token) -> Option<&'t [u8]> {
    let length = next_behind(site.tokens, first.start)?;
    let behind = next_behind(site.tokens, length.start)?;
    if first.kind == Kind::Array
        && behind.kind == Kind::Of
        && matches!(length.kind, Kind::Ident | Kind::Number)
    {
        Some(between(site.text, length.start, length.end))
    } else {
        None
    }
}

/// The bytes from one place up to another.
fn between(text: &[u8], from: usize, to: usize) -> &[u8] {
    let (_, rest) = halves(text, from);
    halves(rest, to.saturating_sub(from)).0
}
