//! The line of the schedule.

ghost use Rattle.std.specs.Prelude.{◌≡◌, ◌++◌, OnErr, OnOk, string_bytes};
ghost use Rattle.ob_text_record.specs.RecordText.{schedule_text, turns_text};
ghost use Rattle.ob_text_words.specs.Appending.{GoesOn};

use ob_text_words::numbers::push_count;
use std::alloc::AllocError;
use wf_table::Turns;

/// Appends the schedule in its runs.
pub(crate) fn push_schedule(text: &mut String, schedule: &[Turns]) -> Result<(), AllocError>
    ensures ok { OnOk result (string_bytes text.new ≡ string_bytes text.old ++ schedule_text schedule.now) }
    ensures left { OnErr result (GoesOn (string_bytes text.old) (string_bytes text.new)) }
{
    text.push_str("S")?;
    for turns in schedule {
        push_turns(text, *turns)?;
    }
    text.push_str("\n")
}

fn push_turns(text: &mut String, turns: Turns) -> Result<(), AllocError>
    ensures ok { OnOk result (string_bytes text.new ≡ string_bytes text.old ++ turns_text turns) }
    ensures left { OnErr result (GoesOn (string_bytes text.old) (string_bytes text.new)) }
{
    text.push_str(" ")?;
    push_count(text, turns.process as u64)?;
    text.push_str("*")?;
    push_count(text, turns.count)
}
