//! How many calls of a run ended, in a line for people.

ghost use Rattle.std.specs.Prelude.{◌≡◌, ◌++◌, IfOk, OnOk, string_bytes};
ghost use Rattle.ob_fault_lines.specs.Counts.{IsCountsLine, part};

use crate::call_counts::{begun_calls, ended_calls};
use ob_text_words::numbers::push_number;
use std::alloc::{AllocError, Global};

/// How many of so many calls ended, and how many never began, by the text of a record.
pub fn counts_line(alloc: Global, calls: usize, text: &[u8]) -> Result<String, AllocError>
    ensures { IfOk result (λ line. IsCountsLine calls text.now (string_bytes line)) }
{
    let ended = ended_calls(text);
    let begun = begun_calls(text);
    let mut line = String::new(alloc);
    push_part(&mut line, ended, " of ")?;
    push_part(&mut line, calls, " calls ended, ")?;
    push_part(&mut line, calls.saturating_sub(begun), " never began\n")?;
    Ok(line)
}

/// Appends a number, and words behind it.
fn push_part(line: &mut String, number: usize, words: &str) -> Result<(), AllocError>
    ensures { OnOk result (string_bytes line.new ≡ string_bytes line.old ++ part number words.now) }
{
    push_number(line, number)?;
    line.push_str(words)?;
    Ok(())
}
