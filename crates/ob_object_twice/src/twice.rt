//! A run, and another one from the state that it left.

ghost use Rattle.std.specs.Prelude.{◌≡◌, Err, IfErr, IfOk};
ghost use Rattle.ob_object_compile.specs.Asked.{TellsAtOnce, by_body};
ghost use Rattle.ob_object_perform.specs.Performance.{IsPerformance};
ghost use Rattle.ob_text_record.specs.Record.{record_of};
ghost use Rattle.ob_object_twice.specs.Twice.{AreMeantInTurn, GoesOn, IsRefusedTwice, first_texts, turn_of};

use ob_carry::named_values;
use ob_object_compile::{Asked, Beginning};
use ob_object_perform::{PerformFault, Texts, perform_from, performed};
use ob_text_record::Record;
use std::alloc::Global;

/// What one of the runs is made of: how many processes share the object, the scripts of their calls, and the schedule.
#[derive(Clone, Copy)]
pub struct Turn<'a> {
    pub processes: usize,
    pub scripts: &'a [u8],
    pub schedule: &'a [u8],
}

/// The records of two runs of a module's object, one after the other, whose calls have so many turns each. The first object begins
/// by the module's body, the second one with the state that the first run left. The first run's faults come first.
pub fn perform_twice(
    alloc: Global,
    text: &[u8],
    budget: u64,
    first: Turn<'_>,
    second: Turn<'_>,
) -> Result<(Record, Record), PerformFault>
    ensures begins { IfOk result (λ r. IsPerformance (first_texts text.now budget (turn_of first.entry)) (record_of r.0)) }
    ensures goes_on { IfOk result (λ r. GoesOn text.now budget (turn_of second.entry) (record_of r.0) (record_of r.1)) }
    ensures meant { IfOk result (λ r. AreMeantInTurn (first_texts text.now budget (turn_of first.entry)) (record_of r.0) (record_of r.1)) }
    ensures refused { IfErr result (IsRefusedTwice text.now budget (turn_of first.entry) (turn_of second.entry)) }
    ensures at_once { TellsAtOnce (by_body text.now first.entry.processes budget) (λ e. result ≡ Err (PerformFault.Compile e)) }
{
    let asked = Asked {
        text,
        processes: first.processes,
        budget,
        beginning: Beginning::Body,
    };
    let (checked, left) = performed(
        alloc,
        Texts {
            asked,
            scripts: first.scripts,
            schedule: first.schedule,
        },
    )?;
    let values = named_values(alloc, &checked, &left.state)?;
    let Turn {
        processes,
        scripts,
        schedule,
    } = second;
    let next = perform_from(alloc, text, processes, budget, &values, scripts, schedule)?;
    Ok((left, next))
}
