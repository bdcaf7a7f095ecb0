//! Sentences and hints: those of the tables, with what is known of the fault in their slots.

ghost use Rattle.std.specs.Prelude.{◌≡◌, ◌++◌, map, IfOk, OnOk, option_map, string_bytes};
ghost use Rattle.ob_explain_sentences.specs.Rows.{piece_of, pieces_of};
ghost use Rattle.ob_explain_sentences.specs.Said.{evidence_of, filled, filled_or, hint_text, plural, sentence_text, spelled, type_in, type_text};

use crate::explanation::push_number;
use crate::kinds::{kind_name, sample};
use crate::matcher::{View, end_of, hint_of, sentence_of};
use crate::phrases::push_expected;
use crate::shown::push_line;
use crate::table_rows::{Piece, PieceOf, Type};
use ob_scan::Kind;
use std::alloc::{AllocError, Global};

/// What is known of a fault.
#[derive(Clone, Copy)]
pub struct Evidence<'a> {
    /// A name, and two numbers, as they are written; the first is a list of fields too.
    pub name: &'a [u8],
    pub first: &'a [u8],
    pub second: &'a [u8],
    /// What could stand there.
    pub could: &'a [Kind],
    /// The keyword that opens a construct, or an operator; and the keyword that is meant.
    pub opening: Kind,
    pub keyword: Kind,
    /// A line, and another one.
    pub line: usize,
    pub other_line: usize,
    /// A name that stands as a whole statement, and its line.
    pub lone: &'a [u8],
    pub lone_line: usize,
    /// How many there are, and how many there should be.
    pub count: usize,
    pub most: usize,
    pub wanted: Type,
    pub found: Type,
}

/// How each type is told.
pub const TYPES: &[(Type, &str)] = &[
    (Type::Integer, "an INTEGER"),
    (Type::Boolean, "a BOOLEAN"),
    (Type::Single, "an INTEGER or a BOOLEAN"),
    (Type::Array, "a whole array"),
    (Type::Record, "a whole record"),
    (Type::Unknown, "something else"),
];

/// How a value of each type is made of one of another type.
pub const MAKINGS: &[(Type, &str)] = &[
    (
        Type::Integer,
        "a BOOLEAN gives a number by IF b THEN x := 1 ELSE x := 0 END",
    ),
    (Type::Boolean, "a comparison gives a BOOLEAN, as x # 0"),
];

/// The sentence of a fault: the table's, filled with what is known.
pub fn sentence(alloc: Global, view: &View, evidence: &Evidence) -> Result<String, AllocError>
    ensures { IfOk result (λ text. string_bytes text ≡ sentence_text view.now (evidence_of evidence.now)) }
{
    let mut text = String::new(alloc);
    fill_or(&mut text, alloc, sentence_of(view), evidence)?;
    fill_or(&mut text, alloc, end_of(view), evidence)?;
    Ok(text)
}

/// The hint on a fault, where the table has one.
pub fn hint(alloc: Global, view: &View, evidence: &Evidence) -> Result<Option<String>, AllocError>
    ensures { IfOk result (λ hint. option_map string_bytes hint ≡ hint_text view.now (evidence_of evidence.now)) }
{
    match hint_of(view) {
        Some(pieces) => {
            let mut text = String::new(alloc);
            fill(&mut text, alloc, pieces, evidence)?;
            Ok(Some(text))
        }
        None => Ok(None),
    }
}

/// Appends these pieces, where there are some.
fn fill_or(
    text: &mut String,
    alloc: Global,
    pieces: Option<&[Piece]>,
    evidence: &Evidence,
) -> Result<(), AllocError>
    ensures { OnOk result (string_bytes text.new ≡ string_bytes text.old ++ filled_or (evidence_of evidence.now) (option_map pieces_of pieces.entry)) }
{
    match pieces {
        Some(pieces) => fill(text, alloc, pieces, evidence),
        None => Ok(()),
    }
}

/// Appends pieces.
fn fill(
    text: &mut String,
    alloc: Global,
    pieces: &[Piece],
    evidence: &Evidence,
) -> Result<(), AllocError>
    ensures { OnOk result (string_bytes text.new ≡ string_bytes text.old ++ filled (evidence_of evidence.now) (map piece_of pieces.now)) }
{
    for piece in pieces {
        push_piece(text, alloc, *piece, evidence)?;
    }
    Ok(())
}

#[tactic(auto, unfolding(crate::specs::Said::making_text))]
fn push_piece(
    text: &mut String,
    alloc: Global,
    piece: Piece,
    evidence: &Evidence,
) -> Result<(), AllocError>
    ensures { OnOk result (string_bytes text.new ≡ string_bytes text.old ++ spelled (evidence_of evidence.now) (piece_of piece.entry)) }
{
    match piece {
        PieceOf::Text(said) => text.push_str(said),
        PieceOf::Name => push_line(text, evidence.name),
        PieceOf::First => push_line(text, evidence.first),
        PieceOf::Second => push_line(text, evidence.second),
        PieceOf::Could => push_expected(text, alloc, evidence.could),
        PieceOf::Opening => text.push_str(sample(evidence.opening)),
        PieceOf::Keyword => text.push_str(kind_name(evidence.keyword)),
        PieceOf::Line => push_number(text, evidence.line),
        PieceOf::OtherLine => push_number(text, evidence.other_line),
        PieceOf::Lone => push_line(text, evidence.lone),
        PieceOf::LoneLine => push_number(text, evidence.lone_line),
        PieceOf::Count => push_number(text, evidence.count),
        PieceOf::CountEnd => text.push_str(plural(evidence.count)),
        PieceOf::Most => push_number(text, evidence.most),
        PieceOf::MostEnd => text.push_str(plural(evidence.most)),
        PieceOf::Wanted => text.push_str(type_text(evidence.wanted)),
        PieceOf::Found => text.push_str(type_text(evidence.found)),
        PieceOf::Made => text.push_str(type_in(MAKINGS, evidence.wanted)),
    }
}

/// The `s` of more than one, and of none.
fn plural(count: usize) -> &'static str
    ensures { result.now ≡ plural count }
{
    if count == 1 { "" } else { "s" }
}

#[tactic(auto, unfolding(crate::specs::Said::type_text))]
fn type_text(named: Type) -> &'static str
    ensures { result.now ≡ type_text named }
{
    type_in(TYPES, named)
}

fn type_in(mut types: &[(Type, &'static str)], named: Type) -> &'static str
    ensures { result.now ≡ type_in (map (λ t. (t.0, t.1.now)) types.entry.now) named }
{
    while let [(first, text), rest @ ..] = types {
        if *first == named {
            return *text;
        }
        types = rest;
    }
    ""
}
