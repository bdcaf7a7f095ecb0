//! What is said of rules that are broken.

ghost use Rattle.std.specs.Prelude.{IfOk};
ghost use Rattle.ob_diagnosis.specs.Remarks.{Tells};
ghost use Rattle.ob_evidence.specs.Sites.{scene_of};
ghost use Rattle.ob_explain_sentences.specs.Remarks.{remark_of};

use crate::told_by_tables::{Seen, nothing, of_facts, told};
use ob_clues::comparisons::note_beside;
use ob_clues::foreign::is_number_type;
use ob_clues::further::{declared_below, is_elsewhere, is_own_name, is_own_type};
use ob_clues::procedure_names::{is_field, is_in_export};
use ob_evidence::constant_numbers::{
    first_operand, is_known, length_there, second_operand, written,
};
use ob_evidence::facts::{facts_of, note};
use ob_evidence::nearest_names::{
    declared, declared_line, is_near, is_there, near_name, parameters, sort_facts, sort_there,
};
use ob_evidence::needed_types::{note_whole, types_there};
use ob_evidence::text_site::{Site, is_kind, is_token, kind_or_name, line_of, rest_of};
use ob_evidence::word_totals::{are_told, is_counted, is_in_procedure, told_words, words_there};
use ob_explain_names::declarations::first_of;
use ob_explain_parts::field_names::{fields_at, listed_fields};
use ob_explain_parts::handed_parameter::called_name;
use ob_explain_sentences::remark::Remark;
use ob_explain_sentences::said::Evidence;
use ob_explain_sentences::table_rows::{Fact, Number};
use ob_explain_tokens::actuals::actual_count;
use ob_explain_tokens::open::{is_in_record, open_construct};
use ob_explain_tokens::parens::is_in_parens;
use ob_explain_words::distance::bytes_of;
use ob_scan::Kind;
use std::alloc::{AllocError, Global};

/// The remark on a name that is not there, or on a field behind a `.` (C1).
pub(crate) fn unknown_remark(alloc: Global, site: &Site<'_, '_>) -> Result<Remark, AllocError>
    ensures { IfOk result (λ remark. Tells (scene_of site.now) Number.C1 (remark_of remark)) }
{
    let near = near_name(alloc, site)?;
    let fields = fields_at(alloc, site.text, site.known, site.tokens, site.place)?;
    let first = listed_fields(alloc, site.text, &fields)?;
    let word = name_alone(site);
    let below = declared_below(site, word);
    let facts = facts_of(
        alloc,
        &[
            (is_near(near), Fact::Near),
            (is_token(below), Fact::FurtherDown),
            (is_field(site, word), Fact::Field),
            (is_elsewhere(site, word), Fact::Elsewhere),
            (is_number_type(word), Fact::NumberType),
            (is_own_type(site, word), Fact::OwnType),
            (is_own_name(site, word), Fact::OwnName),
            (is_token(first_of(&fields)), Fact::First),
        ],
    )?;
    let seen = Seen {
        word,
        ..of_facts(&facts)
    };
    let evidence = Evidence {
        name: bytes_of(site.text, near.named),
        first: &first,
        line: line_of(site.text, below),
        ..nothing()
    };
    told(alloc, site, Number::C1, &seen, &evidence)
}

/// The word at the place; empty behind a `.`, where it is the name of a field.
fn name_alone<'t>(site: &Site<'t, '_>) -> &'t [u8] {
    if is_kind(site.last(), Kind::Dot) {
        b""
    } else {
        site.word()
    }
}

/// The remark on a name that is declared, or a field that stands, twice (C2).
pub(crate) fn twice_remark(alloc: Global, site: &Site<'_, '_>) -> Result<Remark, AllocError>
    ensures { IfOk result (λ remark. Tells (scene_of site.now) Number.C2 (remark_of remark)) }
{
    let name = declared(site);
    let facts = facts_of(
        alloc,
        &[
            (is_in_record(site.before), Fact::InRecord),
            (is_there(name), Fact::Before),
        ],
    )?;
    let evidence = Evidence {
        line: declared_line(site.text, name),
        ..nothing()
    };
    told(alloc, site, Number::C2, &of_facts(&facts), &evidence)
}

/// The remark on what a name stands for (C3).
pub(crate) fn sort_remark(alloc: Global, site: &Site<'_, '_>) -> Result<Remark, AllocError>
    ensures { IfOk result (λ remark. Tells (scene_of site.now) Number.C3 (remark_of remark)) }
{
    let mut facts = sort_facts(alloc, sort_there(site))?;
    note_whole(&mut facts, alloc, site)?;
    let seen = Seen {
        word: site.word_of(site.next()),
        ..of_facts(&facts)
    };
    told(alloc, site, Number::C3, &seen, &nothing())
}

/// The remark on a type that differs (C4).
pub(crate) fn types_remark(alloc: Global, site: &Site<'_, '_>) -> Result<Remark, AllocError>
    ensures { IfOk result (λ remark. Tells (scene_of site.now) Number.C4 (remark_of remark)) }
{
    let mut facts = Vec::new(alloc);
    let types = types_there(&mut facts, alloc, site)?;
    note_beside(&mut facts, alloc, site, types.found)?;
    note(&mut facts, is_in_export(site), Fact::InExport)?;
    let called = called_name(site.text, site.known, site.before);
    let evidence = Evidence {
        wanted: types.wanted,
        found: types.found,
        line: declared_line(site.text, called),
        ..nothing()
    };
    let seen = Seen {
        word: site.word(),
        ..of_facts(&facts)
    };
    told(alloc, site, Number::C4, &seen, &evidence)
}

/// The remark on a constant that has no value (C5).
pub(crate) fn constant_remark(alloc: Global, site: &Site<'_, '_>) -> Result<Remark, AllocError>
    ensures { IfOk result (λ remark. Tells (scene_of site.now) Number.C5 (remark_of remark)) }
{
    let before = first_operand(alloc, site)?;
    let behind = second_operand(alloc, site)?;
    let first = written(alloc, site.text, before)?;
    let second = written(alloc, site.text, behind)?;
    let facts = facts_of(
        alloc,
        &[
            (is_known(before), Fact::First),
            (is_known(behind), Fact::Second),
        ],
    )?;
    let evidence = Evidence {
        first: &first,
        second: &second,
        opening: kind_or_name(site.here()),
        ..nothing()
    };
    told(alloc, site, Number::C5, &of_facts(&facts), &evidence)
}

/// The remark on the length of an array (C6).
pub(crate) fn length_remark(alloc: Global, site: &Site<'_, '_>) -> Result<Remark, AllocError>
    ensures { IfOk result (λ remark. Tells (scene_of site.now) Number.C6 (remark_of remark)) }
{
    let length = length_there(alloc, site)?;
    let first = written(alloc, site.text, length)?;
    let facts = facts_of(alloc, &[(is_known(length), Fact::First)])?;
    let evidence = Evidence {
        first: &first,
        ..nothing()
    };
    told(alloc, site, Number::C6, &of_facts(&facts), &evidence)
}

/// The remark on the actuals of a call (C7).
pub(crate) fn actuals_remark(alloc: Global, site: &Site<'_, '_>) -> Result<Remark, AllocError>
    ensures { IfOk result (λ remark. Tells (scene_of site.now) Number.C7 (remark_of remark)) }
{
    let sort = sort_there(site);
    let heading = declared(site);
    let called = called_name(site.text, site.known, site.before);
    let mut facts = sort_facts(alloc, sort)?;
    note(&mut facts, is_there(called), Fact::Before)?;
    let evidence = Evidence {
        count: actual_count(site.behind),
        most: parameters(sort),
        line: declared_line(site.text, heading),
        other_line: declared_line(site.text, called),
        ..nothing()
    };
    told(alloc, site, Number::C7, &of_facts(&facts), &evidence)
}

/// The remark on a limit, at a type or at a name (C9).
pub(crate) fn limit_remark(alloc: Global, site: &Site<'_, '_>) -> Result<Remark, AllocError>
    ensures { IfOk result (λ remark. Tells (scene_of site.now) Number.C9 (remark_of remark)) }
{
    let words = words_there(alloc, site)?;
    let facts = facts_of(
        alloc,
        &[
            (is_in_parens(site.before), Fact::InParens),
            (is_in_procedure(site), Fact::InProcedure),
            (is_counted(site), Fact::Counted),
            (are_told(words), Fact::Words),
        ],
    )?;
    let evidence = Evidence {
        count: told_words(words),
        ..nothing()
    };
    told(alloc, site, Number::C9, &of_facts(&facts), &evidence)
}

/// The remark on an export (C10): its PROCEDURE stands within another procedure, or not.
pub(crate) fn export_remark(alloc: Global, site: &Site<'_, '_>) -> Result<Remark, AllocError>
    ensures { IfOk result (λ remark. Tells (scene_of site.now) Number.C10 (remark_of remark)) }
{
    let outside = open_construct(rest_of(site.before));
    let facts = facts_of(
        alloc,
        &[(is_kind(outside, Kind::Procedure), Fact::InProcedure)],
    )?;
    told(alloc, site, Number::C10, &of_facts(&facts), &nothing())
}
