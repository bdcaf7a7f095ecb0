//! What the tables say of what may be seen at a place.

ghost use Rattle.std.specs.Prelude.{◌≡◌, IfOk};
ghost use Rattle.ob_diagnosis.specs.Remarks.{IsUndeclared, Sees, Tells, shown_at};
ghost use Rattle.ob_evidence.specs.Evidence.{AsksNothing, IsTrueOf};
ghost use Rattle.ob_evidence.specs.Sites.{scene_of};
ghost use Rattle.ob_explain_sentences.specs.Remarks.{remark_of};
ghost use Rattle.ob_explain_sentences.specs.Said.{evidence_of};

use ob_clues::signs::note_sign;
use ob_evidence::facts::facts_of;
use ob_evidence::nearest_names::leads_to_statement;
use ob_evidence::text_site::{Site, kind_of};
use ob_explain_names::lookup::name_at;
use ob_explain_sentences::matcher::View;
use ob_explain_sentences::place::{halves, shown_place};
use ob_explain_sentences::remark::Remark;
use ob_explain_sentences::said::{Evidence, hint, sentence};
use ob_explain_sentences::table_rows::{Fact, Number, Type};
use ob_explain_tokens::around::{tokens_before, tokens_of};
use ob_explain_tokens::open::open_construct;
use ob_explain_words::declaring::declares;
use ob_scan::Kind;
use std::alloc::{AllocError, Global};

/// What may be seen at a place beside its tokens: facts, the words there and before it, and the name of the call that ends there.
#[derive(Clone, Copy)]
pub(crate) struct Seen<'a> {
    pub(crate) facts: &'a [Fact],
    pub(crate) word: &'a [u8],
    pub(crate) word_before: &'a [u8],
    pub(crate) called: &'a [u8],
}

/// These facts, and no words.
pub(crate) fn of_facts(facts: &[Fact]) -> Seen<'_>
    ensures { result.facts.now ≡ facts.now }
{
    Seen {
        facts,
        word: b"",
        word_before: b"",
        called: b"",
    }
}

/// What is told at a place where this may be seen, and this is known.
pub(crate) fn told(
    alloc: Global,
    site: &Site<'_, '_>,
    number: Number,
    seen: &Seen<'_>,
    evidence: &Evidence<'_>,
) -> Result<Remark, AllocError>
    requires { IsTrueOf number (scene_of site.now) seen.now.facts.now (evidence_of evidence.now) }
    ensures { IfOk result (λ remark. Tells (scene_of site.now) number (remark_of remark)) }
{
    let view = View {
        number,
        here: kind_of(site.here()),
        last: kind_of(site.last()),
        second: kind_of(site.second()),
        next: kind_of(site.next()),
        from: halves(site.text, site.place).1,
        word: undeclared(site, seen.word),
        word_before: undeclared(site, seen.word_before),
        called: undeclared(site, seen.called),
        could: evidence.could,
        facts: seen.facts,
    };
    told_by(alloc, site, &view, evidence)
}

/// A word, if it is no name that the text declares; else none.
fn undeclared<'w>(site: &Site<'_, '_>, word: &'w [u8]) -> &'w [u8]
    ensures { IsUndeclared (scene_of site.now) result.now }
{
    if declares(site.text, site.tokens, word) {
        b""
    } else {
        word
    }
}

/// What the tables say where this may be seen.
fn told_by(
    alloc: Global,
    site: &Site<'_, '_>,
    view: &View<'_>,
    evidence: &Evidence<'_>,
) -> Result<Remark, AllocError>
    requires sees { Sees (scene_of site.now) view.now (evidence_of evidence.now) }
    requires known { IsTrueOf view.now.number (scene_of site.now) view.now.facts.now (evidence_of evidence.now) }
    ensures { IfOk result (λ remark. Tells (scene_of site.now) view.now.number (remark_of remark)) }
{
    let said = sentence(alloc, view, evidence)?;
    let hinted = hint(alloc, view, evidence)?;
    Ok(Remark {
        place: shown_at(view.number, site.text, site.place),
        sentence: said,
        hint: hinted,
    })
}

/// Where the place of a fault is shown.
fn shown_at(number: Number, text: &[u8], place: usize) -> usize
    ensures { result ≡ shown_at number text.now place }
{
    match number {
        Number::P1 => shown_place(text, place),
        _ => place,
    }
}

/// Nothing is known.
pub(crate) fn nothing() -> Evidence<'static> {
    Evidence {
        name: b"",
        first: b"",
        second: b"",
        could: &[],
        opening: Kind::Ident,
        keyword: Kind::Ident,
        line: 0,
        other_line: 0,
        lone: b"",
        lone_line: 0,
        count: 0,
        most: 0,
        wanted: Type::Unknown,
        found: Type::Unknown,
    }
}

/// The remark on a fault that shows by its bytes alone.
pub(crate) fn plain_remark(
    alloc: Global,
    site: &Site<'_, '_>,
    number: Number,
) -> Result<Remark, AllocError>
    requires { AsksNothing number }
    ensures { IfOk result (λ remark. Tells (scene_of site.now) number (remark_of remark)) }
{
    let (before, from) = halves(site.text, site.place);
    let in_case = is_behind_case(alloc, before)?;
    let mut facts = facts_of(
        alloc,
        &[
            (begins_other(from), Fact::NotAscii),
            (ends_number(before), Fact::BehindDigits),
            (ends_with_minus(before), Fact::BehindMinus),
            (awaits_type(before), Fact::TypeAwaited),
            (in_case, Fact::BehindCase),
        ],
    )?;
    note_sign(&mut facts, before, from)?;
    told(alloc, site, number, &of_facts(&facts), &nothing())
}

/// Whether a minus stands at the end of some bytes, but for blanks.
fn ends_with_minus(before: &[u8]) -> bool {
    match before.trim_ascii_end().last() {
        Some(last) => *last == b'-',
        None => false,
    }
}

/// Whether a `:`, a `=` or an OF stands at the end of some bytes, but for blanks.
fn awaits_type(before: &[u8]) -> bool {
    let before = before.trim_ascii_end();
    before.ends_with(b":")
        || before.ends_with(b"=") && !before.ends_with(b":=")
        || before.ends_with(b" OF")
}

/// Whether a statement begins with the name CASE in the construct that is open at the end of a text.
fn is_behind_case(alloc: Global, text: &[u8]) -> Result<bool, AllocError> {
    let tokens = tokens_of(alloc, text)?;
    let before = tokens_before(alloc, &tokens, text.len())?;
    let begin = match open_construct(&before) {
        Some(opening) => opening.start,
        None => 0,
    };
    let mut is_case = false;
    for token in &before {
        if is_case && leads_to_statement(token.kind) {
            return Ok(true);
        }
        is_case = begin < token.start && name_at(text, token.start).eq_ignore_ascii_case(b"CASE");
    }
    Ok(false)
}

/// Whether the first of some bytes is no ASCII.
fn begins_other(bytes: &[u8]) -> bool {
    match bytes.first() {
        Some(first) => *first >= 128,
        None => false,
    }
}

/// Whether the letters and digits at the end of some bytes begin with a digit.
fn ends_number(before: &[u8]) -> bool {
    let mut is_word = false;
    let mut is_digit = false;
    for byte in before {
        is_digit = if is_word {
            is_digit
        } else {
            byte.is_ascii_digit()
        };
        is_word = byte.is_ascii_alphanumeric();
        is_digit = is_digit && is_word;
    }
    is_digit
}
