//! What may be seen at a token that can't stand where it does.

ghost use Rattle.std.specs.Prelude.{IfOk};
ghost use Rattle.ob_evidence.specs.Constructs.{AreShown};
ghost use Rattle.ob_evidence.specs.Keywords.{AreAsked};
ghost use Rattle.ob_evidence.specs.Sites.{scene_of};

use crate::keywords::{is_keyword, keyword_before, keyword_first, keyword_there};
use crate::missing::missing_there;
use ob_clues::comparisons::is_chained;
use ob_clues::foreign::{is_foreign, is_type_name};
use ob_clues::further::{begins_block, has_ended, is_before_type, is_closed_behind, is_type};
use ob_clues::habits::{
    has_small_before_colon, is_behind_part_of_procedure, is_in_comment, is_unassigned,
    is_unfinished,
};
use ob_clues::procedure_names::{
    begins_with_bracket, called, ends_repeat, is_assigned, is_behind_assign, is_procedure, lists,
};
use ob_evidence::constructs::{Shown, shown_there};
use ob_evidence::facts::note;
use ob_evidence::text_site::{Site, is_kind};
use ob_explain_sentences::place::halves;
use ob_explain_sentences::table_rows::Fact;
use ob_explain_tokens::open::{is_in_record, open_construct};
use ob_explain_tokens::parens::is_in_parens;
use ob_explain_words::declaring::declares;
use ob_scan::{Kind, Token};
use std::alloc::{AllocError, Global};

/// What is known of a token that can't stand where it does.
#[derive(Clone, Copy)]
pub(crate) struct Found {
    pub(crate) keyword: Option<Kind>,
    /// The construct that is shown.
    pub(crate) shown: Option<Shown>,
    /// The name of a call that ends there and that no procedure has.
    pub(crate) called: Option<Token>,
}

/// What is known of a place where tokens of these kinds could stand; what may be seen there goes to the facts.
pub(crate) fn seen_there(
    facts: &mut Vec<Fact>,
    alloc: Global,
    site: &Site<'_, '_>,
    could: &[Kind],
) -> Result<Found, AllocError>
    ensures shown { IfOk result (λ found. AreShown (scene_of site.now) found.shown) }
    ensures asked { IfOk result (λ found. AreAsked (scene_of site.now) found.keyword) }
{
    let keyword = noted_keyword(facts, alloc, site)?;
    note(facts, !could.is_empty(), Fact::Expected)?;
    note_tokens(facts, site, could)?;
    note_words(facts, site)?;
    if let Some(declared) = declared_there(site) {
        facts.push(declared)?;
    }
    let call = called(site, could);
    let name = site.word_of(call);
    let is_undeclared = !name.is_empty() && !is_procedure(site, site.tokens, name);
    note(facts, is_undeclared, Fact::UndeclaredCall)?;
    note(facts, ends_repeat(site, could), Fact::RepeatEnd)?;
    if let Some(missing) = missing_there(alloc, site, could)? {
        facts.push(missing)?;
    }
    let shown = shown_there(site, could);
    note_constructs(facts, site, shown)?;
    Ok(Found {
        keyword,
        shown,
        called: if is_undeclared { call } else { None },
    })
}

/// The keyword that is meant there, before it or where the statement begins, which is noted.
fn noted_keyword(
    facts: &mut Vec<Fact>,
    alloc: Global,
    site: &Site<'_, '_>,
) -> Result<Option<Kind>, AllocError>
    ensures { IfOk result (λ keyword. AreAsked (scene_of site.now) keyword) }
{
    if let Some(keyword) = keyword_there(alloc, site)? {
        facts.push(Fact::Keyword)?;
        return Ok(Some(keyword));
    }
    if let Some(keyword) = keyword_before(alloc, site)? {
        facts.push(Fact::Keyword)?;
        facts.push(Fact::KeywordBefore)?;
        return Ok(Some(keyword));
    }
    let keyword = keyword_first(alloc, site)?;
    note(facts, keyword.is_some(), Fact::KeywordFirst)?;
    Ok(keyword)
}

/// Notes what the constructs show.
fn note_constructs(
    facts: &mut Vec<Fact>,
    site: &Site<'_, '_>,
    shown: Option<Shown>,
) -> Result<(), AllocError> {
    let Some(shown) = shown else {
        return Ok(());
    };
    facts.push(shown.fact)?;
    let is_case = is_kind(site.here(), Kind::Else) || is_kind(site.here(), Kind::Elsif);
    note(
        facts,
        is_case && is_kind(shown.opening, Kind::If),
        Fact::BehindElse,
    )?;
    note(
        facts,
        is_kind(shown.opening, Kind::Repeat),
        Fact::OpenRepeat,
    )?;
    note(facts, shown.inner.is_some(), Fact::InnerIf)
}

/// Notes what the tokens around the place show.
fn note_tokens(
    facts: &mut Vec<Fact>,
    site: &Site<'_, '_>,
    could: &[Kind],
) -> Result<(), AllocError> {
    note(facts, is_touching(site), Fact::Touching)?;
    note(facts, ends_heading(site, could), Fact::Heading)?;
    note(facts, is_keyword_there(site), Fact::KeywordThere)?;
    note(facts, has_ended(site), Fact::ModuleEnded)?;
    note(facts, is_line_ended(site), Fact::LineEnded)?;
    note(facts, is_in_parens(site.before), Fact::InParens)?;
    note(facts, is_closed_behind(site), Fact::ClosedBehind)?;
    note(facts, begins_block(site), Fact::Block)?;
    note(facts, is_in_record(site.before), Fact::InRecord)?;
    note(facts, is_unfinished(site), Fact::Unfinished)?;
    note(facts, is_unassigned(site), Fact::Unassigned)?;
    note(facts, is_chained(site), Fact::Chained)?;
    note(facts, is_behind_assign(site), Fact::BehindAssign)?;
    note(
        facts,
        is_kind(open_construct(site.before), Kind::Module),
        Fact::InModule,
    )
}

/// Notes what the words there and before it show.
fn note_words(facts: &mut Vec<Fact>, site: &Site<'_, '_>) -> Result<(), AllocError> {
    let word = site.word();
    let before = site.word_of(site.last());
    let is_call = is_procedure(site, site.tokens, before);
    let is_declared = declares(site.text, site.tokens, before);
    note(
        facts,
        is_kind(site.last(), Kind::Ident) && is_foreign(before) && !is_declared,
        Fact::Foreign,
    )?;
    note(
        facts,
        !before.is_empty() && (is_call || !lists(site, before)),
        Fact::NoArray,
    )?;
    note(facts, is_call, Fact::BehindCall)?;
    note(facts, is_declared, Fact::DeclaredBefore)?;
    note(facts, begins_with_bracket(site), Fact::CallBracket)?;
    note(facts, is_before_type(site), Fact::TypeBehind)?;
    note(
        facts,
        is_behind_part_of_procedure(site),
        Fact::PartOfProcedure,
    )?;
    note(facts, has_small_before_colon(site), Fact::SmallBeforeColon)?;
    note(facts, is_in_comment(site), Fact::CommentThere)?;
    note(
        facts,
        !is_procedure(site, site.tokens, word) && !is_assigned(site),
        Fact::Actual,
    )?;
    note(facts, is_type_name(before), Fact::TypeBefore)?;
    note(facts, is_type(site, word), Fact::TypeThere)?;
    note(
        facts,
        is_type(site, site.word_of(site.next())),
        Fact::TypeNext,
    )
}

/// As what a name is to be declared that stands there before a `=`: as a type, or as a constant where the text does not declare it.
fn declared_there(site: &Site<'_, '_>) -> Option<Fact> {
    match site.behind {
        [equal, behind, ..] if equal.kind == Kind::Equal && is_kind(site.here(), Kind::Ident) => {
            if matches!(behind.kind, Kind::Array | Kind::Record)
                || is_type(site, site.word_of(Some(*behind)))
            {
                Some(Fact::BeginsType)
            } else if declares(site.text, site.tokens, site.word()) {
                None
            } else {
                Some(Fact::BeginsConstant)
            }
        }
        _ => None,
    }
}

/// Whether a keyword stands there.
fn is_keyword_there(site: &Site<'_, '_>) -> bool {
    match site.here() {
        Some(here) => is_keyword(here.kind),
        None => false,
    }
}

/// Whether the last token and the one there touch.
fn is_touching(site: &Site<'_, '_>) -> bool {
    match site.last() {
        Some(last) => last.end == site.place,
        None => false,
    }
}

/// Whether a line ends behind the last but one token before the place.
fn is_line_ended(site: &Site<'_, '_>) -> bool {
    let Some(last) = site.last() else {
        return false;
    };
    let (before, _) = halves(site.text, last.start);
    match site.second() {
        Some(second) => halves(before, second.end).1.contains(&b'\n'),
        None => false,
    }
}

/// Whether the heading of a procedure could end there, where tokens of these kinds could stand.
fn ends_heading(site: &Site<'_, '_>, could: &[Kind]) -> bool {
    could.contains(&Kind::Semicolon)
        && !could.contains(&Kind::And)
        && !could.contains(&Kind::End)
        && !could.contains(&Kind::Until)
        && (is_kind(site.last(), Kind::RightParen) || could.contains(&Kind::LeftParen))
}
