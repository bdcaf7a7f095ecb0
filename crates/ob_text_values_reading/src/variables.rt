//! The lines of variables, with their values.

ghost use Rattle.std.specs.Prelude.{◌≡◌, ◌↔◌, IfOk, IsTrue};
ghost use Rattle.ob_carry.specs.View.{entry_of};
ghost use Rattle.ob_text_words.specs.Finding.{FindsAs};
ghost use Rattle.ob_text_words.specs.Words.{words};
ghost use Rattle.ob_text_values_reading.specs.Variables.{BeginsWith, IsVariableLine, SaysVariable};

use crate::line_words::next_word;
use crate::value_texts::{name_text, read_value};
use ob_carry::fields_by_name::NamedField;
use ob_interface::NoMemory;
use ob_text_words::words::is_name;
use std::alloc::Global;

/// The variable that a line tells, whose first word is this byte alone: its name and its value.
pub fn read_variable(alloc: Global, kind: u8, line: &[u8]) -> Result<Option<NamedField>, NoMemory>
    ensures { IfOk result (FindsAs entry_of (IsVariableLine kind (words line.now))) }
{
    let Some((first, behind)) = next_word(line) else {
        return Ok(None);
    };
    let [byte] = first else {
        return Ok(None);
    };
    if *byte != kind {
        return Ok(None);
    }
    read_said(alloc, behind)
}

/// The name and the value that a line says.
fn read_said(alloc: Global, line: &[u8]) -> Result<Option<NamedField>, NoMemory>
    ensures { IfOk result (FindsAs entry_of (SaysVariable (words line.now))) }
{
    let Some((name, behind)) = next_word(line) else {
        return Ok(None);
    };
    let Some((word, rest)) = next_word(behind) else {
        return Ok(None);
    };
    let None = next_word(rest) else {
        return Ok(None);
    };
    if !is_name(name) {
        return Ok(None);
    }
    let Some(value) = read_value(alloc, word)? else {
        return Ok(None);
    };
    Ok(Some(NamedField {
        name: name_text(alloc, name)?,
        value,
    }))
}

/// Whether the first byte of the first word of a line is this one.
pub fn begins_with(kind: u8, line: &[u8]) -> bool
    ensures { IsTrue result ↔ BeginsWith kind (words line.now) }
{
    let Some((first, _rest)) = next_word(line) else {
        return false;
    };
    match first.first() {
        Some(byte) => *byte == kind,
        None => false,
    }
}
