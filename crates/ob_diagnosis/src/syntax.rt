//! What is said of faults of the grammar: a token that can't stand there, and a name behind END that is another one.

ghost use Rattle.std.specs.Prelude.{IfOk};
ghost use Rattle.ob_diagnosis.specs.Remarks.{Tells};
ghost use Rattle.ob_explain_names.specs.Expected.{AreExpected};
ghost use Rattle.ob_evidence.specs.Sites.{scene_of};
ghost use Rattle.ob_explain_sentences.specs.Remarks.{remark_of};

use crate::told_by_tables::{Seen, nothing, of_facts, told};
use crate::unexpected::seen_there;
use ob_clues::calls::{call_meant, length_meant};
use ob_clues::procedure_names::is_renamed;
use ob_evidence::constructs::{inner_of, open_around, opening_of};
use ob_evidence::facts::{facts_of, note};
use ob_evidence::lone_names::lone_end;
use ob_evidence::nearest_names::end_name;
use ob_evidence::text_site::{Site, is_kind, is_token, kind_or_name, line_of};
use ob_explain_names::expected::expected_kinds;
use ob_explain_sentences::remark::Remark;
use ob_explain_sentences::said::Evidence;
use ob_explain_sentences::table_rows::{Fact, Number};
use ob_scan::{Kind, Token};
use std::alloc::{AllocError, Global};

/// The remark on a token that can't stand at a place, or on the end there.
pub(crate) fn unexpected_remark(alloc: Global, site: &Site<'_, '_>) -> Result<Remark, AllocError>
    ensures { IfOk result (λ remark. Tells (scene_of site.now) Number.P1 (remark_of remark)) }
{
    let could = expected_kinds(alloc, site.text, site.place)?;
    expected_remark(alloc, site, &could)
}

/// The same where tokens of these kinds could stand.
fn expected_remark(alloc: Global, site: &Site<'_, '_>, could: &[Kind]) -> Result<Remark, AllocError>
    requires { AreExpected site.now.text.now site.now.place could.now }
    ensures { IfOk result (λ remark. Tells (scene_of site.now) Number.P1 (remark_of remark)) }
{
    let mut facts = Vec::new(alloc);
    let found = seen_there(&mut facts, alloc, site, could)?;
    let opening = opening_of(found.shown);
    let lone = lone_end(site, opening);
    note(&mut facts, is_token(lone), Fact::Lone)?;
    let call = call_meant(alloc, site)?;
    note(&mut facts, !call.is_empty(), Fact::CallMeant)?;
    let length = length_meant(site);
    note(&mut facts, !length.is_empty(), Fact::LengthTold)?;
    let last = site.last();
    let before = site.word_of(last);
    let seen = Seen {
        facts: &facts,
        word: name_of(site, site.here()),
        word_before: name_of(site, last),
        called: site.word_of(found.called),
    };
    let lone_name = site.word_of(lone);
    let lone_line = line_of(site.text, lone);
    let evidence = Evidence {
        name: before,
        first: &call,
        second: length,
        could,
        keyword: found.keyword.unwrap_or(Kind::Ident),
        opening: kind_or_name(opening),
        line: line_of(site.text, opening),
        other_line: line_of(site.text, inner_of(found.shown)),
        lone: lone_name,
        lone_line,
        ..nothing()
    };
    told(alloc, site, Number::P1, &seen, &evidence)
}

/// The name that a token is; none of a keyword.
fn name_of<'t>(site: &Site<'t, '_>, token: Option<Token>) -> &'t [u8] {
    if is_kind(token, Kind::Ident) {
        site.word_of(token)
    } else {
        b""
    }
}

/// The remark on a name behind END that is another than that of what ends.
pub(crate) fn name_remark(alloc: Global, site: &Site<'_, '_>) -> Result<Remark, AllocError>
    ensures { IfOk result (λ remark. Tells (scene_of site.now) Number.P3 (remark_of remark)) }
{
    let name = end_name(site);
    let opening = open_around(site);
    let lone = lone_end(site, opening);
    let wanted = site.word_of(name);
    let facts = facts_of(
        alloc,
        &[
            (is_token(name), Fact::Named),
            (is_token(opening), Fact::StillOpen),
            (is_kind(opening, Kind::Repeat), Fact::OpenRepeat),
            (is_token(lone), Fact::Lone),
            (is_renamed(site, wanted), Fact::Renamed),
        ],
    )?;
    let lone_name = site.word_of(lone);
    let lone_line = line_of(site.text, lone);
    let evidence = Evidence {
        name: wanted,
        opening: kind_or_name(opening),
        line: line_of(site.text, opening),
        lone: lone_name,
        lone_line,
        ..nothing()
    };
    told(alloc, site, Number::P3, &of_facts(&facts), &evidence)
}
