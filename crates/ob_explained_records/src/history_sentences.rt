//! What is said at the first word of a line of a history that can't stand there, by its variables and by the lines before it. Only the
//! place is promised.

use crate::end_line::PROCESS_NUMBERS;
use ob_check::TextFault;
use ob_check::module_text::checked_text;
use ob_checked::program::Variable;
use ob_checked::types::DataType;
use ob_interface::scalar::ScalarType;
use ob_text_values_reading::line_words::next_word;
use ob_text_values_reading::taken_names::take_id;
use ob_text_words::numbers::push_number;
use std::alloc::{AllocError, Global};

/// A line of a history, and those before it.
#[derive(Clone, Copy)]
struct Placed<'a> {
    before: &'a [&'a [u8]],
    line: &'a [u8],
}

/// What is said of the line of a number, from 1, of a history of a module's object, behind the order or not.
pub(crate) fn first_sentence(
    alloc: Global,
    object: &[u8],
    text: &[u8],
    number: usize,
    behind_order: bool,
) -> Result<String, AllocError> {
    if behind_order {
        return String::from_str(alloc, "behind the order stand S and V lines alone");
    }
    let lines: Vec<&[u8]> = text.split(|byte| *byte == b'\n').collect(alloc)?;
    let placed = placed_at(&lines, number);
    match checked_text(alloc, object) {
        Ok(checked) => placed_sentence(alloc, checked.program().variables.as_slice(), placed),
        Err(TextFault::NoMemory) => Err(AllocError),
        Err(_) => letter_sentence(alloc, placed),
    }
}

/// The line of a number, from 1; an empty one where there are fewer.
fn placed_at<'a>(lines: &'a [&'a [u8]], number: usize) -> Placed<'a> {
    match lines.split_at_checked(number.saturating_sub(1)) {
        Some((before, [line, ..])) => Placed { before, line },
        _ => Placed {
            before: lines,
            line: &[],
        },
    }
}

/// The first word of a line; an empty one where it has none.
fn first_word(line: &[u8]) -> &[u8] {
    match next_word(line) {
        Some((word, _)) => word,
        None => &[],
    }
}

/// The number of the first of some lines, from 1, that begins with a letter and a blank.
fn first_with(lines: &[&[u8]], letter: u8) -> Option<usize> {
    for (index, line) in lines.iter().enumerate() {
        if let [first] = first_word(line) {
            if *first == letter {
                return Some(index + 1);
            }
        }
    }
    None
}

/// How many of some lines tell a value that the object began with.
fn count_openings(lines: &[&[u8]]) -> usize {
    let mut count: usize = 0;
    for line in lines {
        if first_word(line) == b"I".as_slice() {
            count = count.saturating_add(1);
        }
    }
    count
}

/// Whether an event or calls that took effect stand in one of some lines.
fn has_events(lines: &[&[u8]]) -> bool {
    first_with(lines, b'B').is_some()
        || first_with(lines, b'E').is_some()
        || first_with(lines, b'A').is_some()
}

/// Whether one of some lines says anything.
fn says_anything(lines: &[&[u8]]) -> bool {
    for line in lines {
        if !matches!(first_word(line), [] | [b'#', ..]) {
            return true;
        }
    }
    false
}

/// What is said of a line, where the module has these variables.
fn placed_sentence(
    alloc: Global,
    variables: &[Variable],
    placed: Placed<'_>,
) -> Result<String, AllocError> {
    let opened = count_openings(placed.before);
    let is_opening = first_word(placed.line) == b"I".as_slice();
    match variables.get(opened) {
        Some(variable) if is_opening && !has_events(placed.before) => {
            opening_sentence(alloc, variable, placed.line)
        }
        Some(variable) if opened > 0 => missing_sentence(alloc, variable),
        None if is_opening && variables.is_empty() => String::from_str(
            alloc,
            "behind I stands a variable of the module, and this one has none",
        ),
        None if is_opening && !has_events(placed.before) => String::from_str(
            alloc,
            "each variable of the module has its I line before this one",
        ),
        _ => letter_sentence(alloc, placed),
    }
}

/// Of a line without the value of a variable, where the one before it has one.
fn missing_sentence(alloc: Global, variable: &Variable) -> Result<String, AllocError> {
    let mut sentence = String::from_str(alloc, "here the I line of ")?;
    sentence.push_str(variable.name.as_str())?;
    sentence.push_str(
        " is missing: of the module's variables each has one before the events, or none has",
    )?;
    Ok(sentence)
}

/// Of a line that is not the one of a variable's value.
fn opening_sentence(alloc: Global, variable: &Variable, line: &[u8]) -> Result<String, AllocError> {
    let mut sentence = String::from_str(alloc, "")?;
    if names_second(line, variable.name.as_str()) {
        sentence.push_str("behind I ")?;
        sentence.push_str(variable.name.as_str())?;
        sentence.push_str(" stands ")?;
        sentence.push_str(value_text(&variable.data_type))?;
        sentence.push_str(", and no more")?;
    } else {
        sentence.push_str("behind I stands the next variable of the module, which is ")?;
        sentence.push_str(variable.name.as_str())?;
        sentence.push_str(", and its value")?;
    }
    Ok(sentence)
}

/// Whether the second word of a line is a name.
fn names_second(line: &[u8], name: &str) -> bool {
    match next_word(line) {
        Some((_, rest)) => first_word(rest) == name.as_bytes(),
        None => false,
    }
}

/// What the value of a type is.
fn value_text(data_type: &DataType) -> &'static str {
    match data_type {
        DataType::Simple(ScalarType::Integer) => {
            "an INTEGER, a number from -2147483648 to 2147483647"
        }
        DataType::Simple(ScalarType::Boolean) => "a BOOLEAN, TRUE or FALSE",
        DataType::Structured(_) => {
            "a value of its type without blanks, an array as [1,2] or a record as {f=1,g=TRUE}"
        }
    }
}

/// What is said of a line by its first word and the lines before it. That of an event, of an order or of a value that the object began with
/// is one letter; that of an S or V line need only begin so.
fn letter_sentence(alloc: Global, placed: Placed<'_>) -> Result<String, AllocError> {
    if is_small_event(placed.line) {
        return String::from_str(
            alloc,
            "an event begins with a capital letter: B where a call begins, as B 0.1 Add 3, and E where it ends, as E 0.1 done 3",
        );
    }
    match first_word(placed.line) {
        b"b" => budget_sentence(alloc, placed.before),
        b"n" => count_sentence(alloc, placed.before),
        [b'o', ..] => String::from_str(alloc, title_text(placed.before)),
        word => String::from_str(alloc, letter_text(word)),
    }
}

/// Whether a line is an event but for its letter, which is a small one: behind it a call is named.
fn is_small_event(line: &[u8]) -> bool {
    match next_word(line) {
        Some((b"b" | b"e", rest)) => take_id(PROCESS_NUMBERS, rest).is_some(),
        _ => false,
    }
}

/// Of a line of the budget.
fn budget_sentence(alloc: Global, before: &[&[u8]]) -> Result<String, AllocError> {
    let mut sentence = String::from_str(alloc, "")?;
    match first_with(before, b'b') {
        Some(line) => {
            sentence.push_str("the budget stands in line ")?;
            push_number(&mut sentence, line)?;
            sentence.push_str(" already")?;
        }
        None if has_events(before) || first_with(before, b'I').is_some() => {
            sentence.push_str(
                "the budget stands before the values that the object began with, and before the events",
            )?;
        }
        None => sentence.push_str(
            "behind b stands how many turns each call has, a number from 0 to 1000000, and no more",
        )?,
    }
    Ok(sentence)
}

/// Of a line of the number of processes.
fn count_sentence(alloc: Global, before: &[&[u8]]) -> Result<String, AllocError> {
    let mut sentence = String::from_str(alloc, "")?;
    match first_with(before, b'n') {
        Some(line) => {
            sentence.push_str("how many processes there are stands in line ")?;
            push_number(&mut sentence, line)?;
            sentence.push_str(" already")?;
        }
        None if has_front_behind(before) => {
            sentence.push_str(
                "how many processes there are stands before the budget, and before the events",
            )?;
        }
        None => sentence.push_str(
            "behind n stands how many processes there are, a number of at most nine digits, and no more",
        )?,
    }
    Ok(sentence)
}

/// Whether a line that stands behind the number of processes is one of these.
fn has_front_behind(lines: &[&[u8]]) -> bool {
    has_events(lines) || first_with(lines, b'b').is_some() || first_with(lines, b'I').is_some()
}

/// Of a title.
fn title_text(before: &[&[u8]]) -> &'static str {
    if says_anything(before) {
        "a title stands before all other lines, and once"
    } else {
        "a title is obl0 record 1, obl0 record 2 or obl0 record 3, and no more; it need not be there"
    }
}

/// Of any other line, by its first word.
fn letter_text(word: &[u8]) -> &'static str {
    match word {
        [] => {
            "here a line is missing: of the module's variables each has an I line before the events, or none has"
        }
        b"B" => {
            "behind B stand a process's next call, as 0.1, a procedure that the module exports, and its arguments, as B 0.1 Add 3"
        }
        b"E" => {
            "behind E stand a call that has begun and not ended, as 0.1, and done and its values, or trap and 1 to 5, as E 0.1 done 3"
        }
        b"A" | b"O" => "behind A and O stand names of calls, as 0.1, and no more",
        b"I" => "I lines stand before all events",
        [b'S' | b'V', ..] => "S and V lines stand behind the order alone",
        _ => {
            "here stands an event (B, E), or a line that a record has (obl0, n, b, I, A, O, S, V), or a comment behind #"
        }
    }
}
