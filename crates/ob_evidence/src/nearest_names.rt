//! Names: the nearest one, what a name is declared as and where, and the name that stands behind an END.

ghost use Rattle.std.specs.Prelude.{◌≡◌, IfOk};
ghost use Rattle.ob_explain_names.specs.Declarations.{is_there};
ghost use Rattle.ob_evidence.specs.Names.{declared, declared_line, end_name, is_near, near_name, parameters, sort_fact, sort_facts, sort_there};
ghost use Rattle.ob_evidence.specs.Names.{leads_to_statement, needed, needed_first};
ghost use Rattle.ob_evidence.specs.Sites.{scene_of};

use crate::text_site::{Site, is_kind, kind_of};
use ob_explain_names::declarations::declared_as;
use ob_explain_names::known::{Known, Sort};
use ob_explain_names::lookup::sort_of;
use ob_explain_parts::field_names::fields_at;
use ob_explain_sentences::place::place_in;
use ob_explain_sentences::table_rows::Fact;
use ob_explain_tokens::closed_constructs::name_of_end;
use ob_explain_words::distance::{Candidate, FAR};
use ob_explain_words::nearest::{nearest, nearest_token};
use ob_explain_words::need::Need;
use ob_scan::{Kind, Token};
use std::alloc::{AllocError, Global};

/// The name nearest to the word at the place: a field of the record before it, or a name that is visible and stands for what is needed.
pub fn near_name(alloc: Global, site: &Site<'_, '_>) -> Result<Candidate, AllocError>
    ensures { IfOk result (λ near. near ≡ near_name (scene_of site.now)) }
{
    let word = site.word();
    if is_kind(site.last(), Kind::Dot) {
        let fields = fields_at(alloc, site.text, site.known, site.tokens, site.place)?;
        Ok(nearest_token(site.text, &fields, word))
    } else {
        let need = needed(kind_of(site.last()), kind_of(site.next()));
        Ok(nearest(site.text, need, site.known, word))
    }
}

/// What a name has to stand for behind this token and before that one.
fn needed(last: Option<Kind>, next: Option<Kind>) -> Need
    ensures { result ≡ needed last next }
{
    match last {
        Some(Kind::Colon | Kind::Of) => Need::TypeName,
        Some(Kind::Equal) => Need::NoProcedure,
        Some(last) => {
            if leads_to_statement(last) {
                needed_first(next)
            } else {
                Need::Value
            }
        }
        None => Need::Any,
    }
}

/// What the first name of a statement has to stand for, before this token.
fn needed_first(next: Option<Kind>) -> Need
    ensures { result ≡ needed_first next }
{
    match next {
        Some(Kind::Assign | Kind::LeftBracket | Kind::Dot) => Need::Variable,
        Some(_) => Need::Procedure,
        None => Need::Any,
    }
}

/// Whether a statement may begin behind a token.
pub fn leads_to_statement(kind: Kind) -> bool
    ensures { result ≡ leads_to_statement kind }
{
    matches!(
        kind,
        Kind::Semicolon | Kind::Begin | Kind::Then | Kind::Else | Kind::Do | Kind::Repeat
    )
}

/// Whether a name is near.
pub fn is_near(near: Candidate) -> bool
    ensures { result ≡ is_near near }
{
    near.distance != FAR
}

/// The last of the visible names that is the word at the place.
pub fn declared(site: &Site<'_, '_>) -> Option<Known>
    ensures { result ≡ declared (scene_of site.now) }
{
    declared_as(site.text, site.known, site.word())
}

/// Whether there is such a name.
pub fn is_there(name: Option<Known>) -> bool
    ensures { result ≡ is_there name }
{
    match name {
        Some(_) => true,
        None => false,
    }
}

/// The line in which a name is declared.
pub fn declared_line(text: &[u8], name: Option<Known>) -> usize
    ensures { result ≡ declared_line text.now name }
{
    match name {
        Some(name) => place_in(text, name.place).line,
        None => 0,
    }
}

/// What the word at the place is declared as.
pub fn sort_there(site: &Site<'_, '_>) -> Option<Sort>
    ensures { result ≡ sort_there (scene_of site.now) }
{
    sort_of(site.text, site.known, site.word())
}

/// That a name stands for this.
pub fn sort_facts(alloc: Global, sort: Option<Sort>) -> Result<Vec<Fact>, AllocError>
    ensures { IfOk result (λ facts. facts.items ≡ sort_facts sort) }
{
    match sort {
        Some(sort) => Vec::from_slice(alloc, &[Fact::Named, sort_fact(sort)]),
        None => Ok(Vec::new(alloc)),
    }
}

fn sort_fact(sort: Sort) -> Fact
    ensures { result ≡ sort_fact sort }
{
    match sort {
        Sort::Constant => Fact::Constant,
        Sort::TypeName => Fact::TypeName,
        Sort::Variable => Fact::Variable,
        Sort::Procedure(_) => Fact::Procedure,
    }
}

/// How many parameters a procedure has.
pub fn parameters(sort: Option<Sort>) -> usize
    ensures { result ≡ parameters sort }
{
    match sort {
        Some(Sort::Procedure(count)) => count,
        _ => 0,
    }
}

/// The name of what the END before the place closes.
pub fn end_name(site: &Site<'_, '_>) -> Option<Token>
    ensures { result ≡ end_name (scene_of site.now) }
{
    name_of_end(site.before)
}
