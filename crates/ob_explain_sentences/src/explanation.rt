//! The lines that show people what is wrong with a text.

ghost use Rattle.std.specs.Prelude.{◌≡◌, ◌++◌, IfOk, OnOk, decimal, option_map, string_bytes};
ghost use Rattle.ob_explain_sentences.specs.Explanations.{explanation, hint_line, mark_below, marked_line, place_line, shown_line, told_line};
ghost use Rattle.ob_explain_sentences.specs.Remarks.{remark_of};

use crate::place::{Place, line_around, place_in};
use crate::remark::Remark;
use crate::shown::{parts, push_blanks, push_cut, push_cut_blank, push_line, push_named};
use itoa::Buffer;
use std::alloc::{AllocError, Global};

/// What is wrong with a text of this name: `NAME:LINE:COLUMN`, the line, a mark below the column, a sentence, and a hint where there
/// is one, each with a line feed behind it.
pub fn explanation(
    alloc: Global,
    name: &str,
    text: &[u8],
    remark: &Remark,
) -> Result<String, AllocError>
    ensures { IfOk result (λ shown. string_bytes shown ≡ explanation name.now text.now (remark_of remark.now)) }
{
    let mut shown = String::from_str(alloc, name)?;
    push_place(&mut shown, place_in(text, remark.place))?;
    let (before, behind) = line_around(text, remark.place);
    push_marked(&mut shown, before, behind)?;
    push_told(&mut shown, behind, remark.sentence.as_str())?;
    push_hint(&mut shown, &remark.hint)?;
    Ok(shown)
}

/// Appends a line and a column behind a name.
fn push_place(shown: &mut String, place: Place) -> Result<(), AllocError>
    ensures { OnOk result (place_line (string_bytes shown.old) place ≡ string_bytes shown.new) }
{
    shown.push_str(":")?;
    push_number(shown, place.line)?;
    shown.push_str(":")?;
    push_number(shown, place.column)?;
    shown.push_str("\n")
}

/// Appends a line, of which these bytes stand before a place and these from there on, and a mark below that place.
fn push_marked(shown: &mut String, before: &[u8], behind: &[u8]) -> Result<(), AllocError>
    ensures { OnOk result (string_bytes shown.new ≡ string_bytes shown.old ++ marked_line before.now behind.now) }
{
    push_shown(shown, before, behind)?;
    shown.push_str("\n")?;
    push_below(shown, before, behind)?;
    shown.push_str("\n")
}

/// Appends what is shown of a line.
#[tactic(auto, unfolding(crate::specs::Explanations::shown_line))]
fn push_shown(shown: &mut String, before: &[u8], behind: &[u8]) -> Result<(), AllocError>
    ensures { OnOk result (string_bytes shown.new ≡ string_bytes shown.old ++ shown_line before.now behind.now) }
{
    let (left, right) = parts(before, behind);
    push_cut(shown, before, left)?;
    push_line(shown, left)?;
    push_line(shown, right)?;
    push_cut(shown, behind, right)
}

/// Appends the mark below a line.
#[tactic(auto, unfolding(crate::specs::Explanations::mark_below))]
fn push_below(shown: &mut String, before: &[u8], behind: &[u8]) -> Result<(), AllocError>
    ensures { OnOk result (string_bytes shown.new ≡ string_bytes shown.old ++ mark_below before.now behind.now) }
{
    let (left, _) = parts(before, behind);
    push_cut_blank(shown, before, left)?;
    push_blanks(shown, left)?;
    shown.push_str("^")
}

/// Appends a sentence, behind the name or keyword that stands at the place.
#[tactic(auto, unfolding(crate::specs::Explanations::told_line))]
fn push_told(shown: &mut String, behind: &[u8], sentence: &str) -> Result<(), AllocError>
    ensures { OnOk result (string_bytes shown.new ≡ string_bytes shown.old ++ told_line behind.now sentence.now) }
{
    push_named(shown, behind)?;
    shown.push_str(sentence)?;
    shown.push_str("\n")
}

/// Appends the line of a hint, where there is one.
fn push_hint(shown: &mut String, hint: &Option<String>) -> Result<(), AllocError>
    ensures { OnOk result (string_bytes shown.new ≡ string_bytes shown.old ++ hint_line (option_map string_bytes hint.now)) }
{
    match hint {
        Some(hint) => {
            shown.push_str("hint: ")?;
            shown.push_str(hint.as_str())?;
            shown.push_str("\n")
        }
        None => Ok(()),
    }
}

/// Appends a number in decimal digits.
pub(crate) fn push_number(text: &mut String, number: usize) -> Result<(), AllocError>
    ensures { OnOk result (string_bytes text.new ≡ string_bytes text.old ++ decimal number) }
{
    let mut buffer = Buffer::new();
    text.push_str(buffer.format(number))
}
