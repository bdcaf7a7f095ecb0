//! The values that a record's text tells of variables.

ghost use Rattle.std.specs.Prelude.{◌≡◌, ◌+◌, ◌<◌, ◌^◌, [], List, length, map, IfErr, IfOk, OnOk};
ghost use Rattle.ob_carry.specs.Carried.{AreDistinctEntries, Entry};
ghost use Rattle.ob_carry.specs.View.{entry_of};
ghost use Rattle.ob_text_words.specs.Words.{lines, words};
ghost use Rattle.ob_text_values_reading.specs.Indexed.{IsIndexed};
ghost use Rattle.ob_text_values_reading.specs.RecordTexts.{lines_behind};
ghost use Rattle.ob_text_values_reading.specs.Comments.{said};
ghost use Rattle.ob_text_values_reading.specs.ReadValues.{AreValuesIn, AreValuesOf, FaultStands, IsValuesFault};
ghost use Rattle.ob_text_values_reading.specs.Turns.{FaultBehind, TellsBehind, TellsLine};

use crate::comments::{line_number, may_have_comments, without_comments};
use crate::lines::{split_line, without_last_feed};
use crate::title::read_title;
use crate::variables::{begins_with, read_variable};
use ob_carry::fields_by_name::NamedField;
use ob_interface::NoMemory;
use ob_text_words::words::words_of;
use std::alloc::{AllocError, Global};
use std::collections::BTreeSet;
use thiserror::Error;

/// Why a text tells no values. Lines count from 1.
#[derive(Clone, Copy, Debug, Error)]
pub enum ValuesFault {
    /// F1: the line is no first line of a record, or one of a variable that is out of its form, too deep, or of a name that stands
    /// before.
    #[error("F1 line {0}")]
    Form(usize),
    /// Want of memory.
    #[error("NoMemory")]
    NoMemory,
}

impl From<AllocError> for ValuesFault {
    ghost use Rattle.std.specs.Prelude.{◌≡◌};
    ghost use Rattle.ob_text_values_reading.specs.declared.value_reading.ValuesFault.TheVariants.{NoMemory};

    ghost from_gives = { λ _ e. e ≡ NoMemory };

    fn from(_: AllocError) -> ValuesFault {
        ValuesFault::NoMemory
    }
}

impl From<NoMemory> for ValuesFault {
    ghost use Rattle.std.specs.Prelude.{◌≡◌};
    ghost use Rattle.ob_text_values_reading.specs.declared.value_reading.ValuesFault.TheVariants as Faults;

    ghost from_gives = { λ _ e. e ≡ Faults.NoMemory };

    fn from(_: NoMemory) -> ValuesFault {
        ValuesFault::NoMemory
    }
}

/// The names and values that a record's text tells of variables, in the order of its lines, whatever its version. The names are
/// kept in order while it is read, and not hashed: so it takes the time of its length, times the logarithm of how many there are.
pub fn read_values(alloc: Global, text: &[u8]) -> Result<Vec<NamedField>, ValuesFault>
    ensures values { IfOk result (λ fields. AreValuesOf text.now (map entry_of fields.items)) }
    ensures alone { IfOk result (λ fields. (other : List Entry) → AreValuesOf text.now other → other ≡ map entry_of fields.items) }
    ensures distinct { IfOk result (λ fields. AreDistinctEntries (map entry_of fields.items)) }
    ensures fault { IfErr result (λ e. IsValuesFault text.now e) }
{
    let text = without_last_feed(text);
    let mut fields = Vec::new(alloc);
    match read_said(alloc, text, &mut fields) {
        Ok(()) => Ok(fields),
        Err(ValuesFault::Form(own)) => Err(ValuesFault::Form(line_number(text, own))),
        Err(ValuesFault::NoMemory) => Err(ValuesFault::NoMemory),
    }
}

/// Puts what the lines of a text that are no remarks tell into an empty list. Those lines count from 1 here.
fn read_said(alloc: Global, text: &[u8], fields: &mut Vec<NamedField>) -> Result<(), ValuesFault>
    requires { fields.old.items ≡ [] }
    ensures values { OnOk result (AreValuesIn (said (map words (lines text.now))) (map entry_of fields.new.items)) }
    ensures fault { IfErr result (λ e. FaultStands (said (map words (lines text.now))) e) }
{
    if may_have_comments(text) {
        read_kept(alloc, text, fields)
    } else {
        read_lines(alloc, text, fields)
    }
}

/// The same, by a copy without the remarks.
fn read_kept(alloc: Global, text: &[u8], fields: &mut Vec<NamedField>) -> Result<(), ValuesFault>
    requires { fields.old.items ≡ [] }
    ensures values { OnOk result (AreValuesIn (said (map words (lines text.now))) (map entry_of fields.new.items)) }
    ensures fault { IfErr result (λ e. FaultStands (said (map words (lines text.now))) e) }
{
    let Some(kept) = without_comments(alloc, text)? else {
        return Err(ValuesFault::Form(1));
    };
    read_lines(alloc, &kept, fields)
}

/// Puts what the lines of a text tell into an empty list.
fn read_lines(alloc: Global, text: &[u8], fields: &mut Vec<NamedField>) -> Result<(), ValuesFault>
    requires { fields.old.items ≡ [] }
    ensures values { OnOk result (AreValuesIn (map words (lines text.now)) (map entry_of fields.new.items)) }
    ensures fault { IfErr result (λ e. FaultStands (map words (lines text.now)) e) }
{
    let (title, behind) = split_line(text);
    let words = words_of(alloc, title)?;
    let Some(_version) = read_title(&words) else {
        return Err(ValuesFault::Form(1));
    };
    read_behind(alloc, behind, fields)
}

/// The same of the lines behind the first one.
fn read_behind(
    alloc: Global,
    behind: Option<&[u8]>,
    fields: &mut Vec<NamedField>,
) -> Result<(), ValuesFault>
    requires empty { fields.old.items ≡ [] }
    requires few { length (lines_behind behind) + 1 < 2 ^ 64 }
    ensures values { OnOk result (TellsBehind (lines_behind behind.entry) (map entry_of fields.new.items)) }
    ensures fault { IfErr result (λ e. FaultBehind (lines_behind behind.entry) e) }
{
    let mut names = BTreeSet::new(alloc);
    let mut left = behind;
    let mut number = 1;
    while let Some(text) = left {
        let (line, rest) = split_line(text);
        number += 1;
        if !take_line(alloc, line, &mut names, fields)? {
            return Err(ValuesFault::Form(number));
        }
        left = rest;
    }
    Ok(())
}

/// Takes up what a line tells of a variable, if it is one of a variable; whether it may stand behind those that tell the others.
fn take_line(
    alloc: Global,
    line: &[u8],
    names: &mut BTreeSet<String>,
    fields: &mut Vec<NamedField>,
) -> Result<bool, NoMemory>
    requires { IsIndexed names.old (map entry_of fields.old.items) }
    ensures indexed { OnOk result (IsIndexed names.new (map entry_of fields.new.items)) }
    ensures told { IfOk result (TellsLine (map entry_of fields.old.items) (words line.now) (map entry_of fields.new.items)) }
{
    if !begins_with(b'V', line) {
        return Ok(true);
    }
    let Some(field) = read_variable(alloc, b'V', line)? else {
        return Ok(false);
    };
    if names.contains(field.name.as_str()) {
        return Ok(false);
    }
    names.insert(field.name.clone()?)?;
    fields.push(field)?;
    Ok(true)
}
