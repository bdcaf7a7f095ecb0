//! Runs from texts.

ghost use Rattle.std.specs.Prelude.{◌≡◌, ◌<◌, ◌^◌, All, Err, IfOk, IfErr, length};
ghost use Rattle.ob_carry.specs.View.{entries_of};
ghost use Rattle.ob_checked.specs.CheckedModule.{program_in};
ghost use Rattle.ob_code_correct.specs.Carried.{BegunFit};
ghost use Rattle.ob_code_correct.specs.Compiled.{Fits};
ghost use Rattle.ob_object_compile.specs.Asked.{TellsAtOnce, by_body, by_values};
ghost use Rattle.ob_object_compile.specs.Compilation.{IsShort};
ghost use Rattle.ob_object_compile.specs.View.{object_in};
ghost use Rattle.ob_object_perform.specs.Performance.{AreReadOf, IsPerformance, IsReady, IsRefusal};
ghost use Rattle.ob_object_perform.specs.Texts.{run_texts, texts_of};
ghost use Rattle.ob_text_record.specs.Record.{record_of};
ghost use Rattle.ob_typing.specs.ModuleText.{IsModule};
ghost use Rattle.ob_typing.specs.Program.{Program};

use crate::perform_running::run_on;
use crate::run_texts::Texts;
use ob_carry::fields_by_name::NamedField;
use ob_checked::checked::Checked;
use ob_code_correct::laws::calls_fit;
use ob_interface::NoMemory;
use ob_object_compile::laws::compilations_are_sound;
use ob_object_compile::{Asked, Beginning, CompileFault, Object, compile_asked};
use ob_text_record::Record;
use ob_text_scripts::{ScriptFault, Scripts, read_scripts};
use ob_text_words::{Item, ScheduleFault, read_schedule};
use std::alloc::{AllocError, Global};
use thiserror::Error;
use wf_history::History;
use wf_play::PlayFault;

/// Why there is no run: the first fault, in the order of the variants.
#[derive(Clone, Copy, Debug, Error)]
pub enum PerformFault {
    #[error("{0}")]
    Compile(CompileFault),
    #[error("{0}")]
    Script(ScriptFault),
    #[error("{0}")]
    Schedule(ScheduleFault),
    /// Q3: an item stands for over 1,000,000 steps. Items count from 1.
    #[error("Q3 item {0}")]
    TooLong(usize),
    /// Want of memory.
    #[error("NoMemory")]
    NoMemory,
}

impl From<CompileFault> for PerformFault {
    ghost use Rattle.std.specs.Prelude.{◌≡◌};
    ghost use Rattle.ob_object_perform.specs.Performance.{of_compile};

    ghost from_gives = { λ e f. f ≡ of_compile e };

    fn from(fault: CompileFault) -> PerformFault {
        match fault {
            CompileFault::NoMemory => PerformFault::NoMemory,
            other => PerformFault::Compile(other),
        }
    }
}

impl From<ScriptFault> for PerformFault {
    ghost use Rattle.std.specs.Prelude.{◌≡◌};
    ghost use Rattle.ob_object_perform.specs.Performance.{of_script};

    ghost from_gives = { λ e f. f ≡ of_script e };

    fn from(fault: ScriptFault) -> PerformFault {
        match fault {
            ScriptFault::NoMemory => PerformFault::NoMemory,
            other => PerformFault::Script(other),
        }
    }
}

impl From<ScheduleFault> for PerformFault {
    ghost use Rattle.std.specs.Prelude.{◌≡◌};
    ghost use Rattle.ob_object_perform.specs.Performance.{of_schedule};

    ghost from_gives = { λ e f. f ≡ of_schedule e };

    fn from(fault: ScheduleFault) -> PerformFault {
        match fault {
            ScheduleFault::NoMemory => PerformFault::NoMemory,
            other => PerformFault::Schedule(other),
        }
    }
}

impl From<NoMemory> for PerformFault {
    ghost use Rattle.std.specs.Prelude.{◌≡◌};
    ghost use Rattle.ob_object_perform.specs.declared.performing.PerformFault.TheVariants as Faults;

    ghost from_gives = { λ _ f. f ≡ Faults.NoMemory };

    fn from(_: NoMemory) -> PerformFault {
        PerformFault::NoMemory
    }
}

impl From<AllocError> for PerformFault {
    ghost use Rattle.std.specs.Prelude.{◌≡◌};
    ghost use Rattle.ob_object_perform.specs.declared.performing.PerformFault.TheVariants as Faults;

    ghost from_gives = { λ _ f. f ≡ Faults.NoMemory };

    fn from(_: AllocError) -> PerformFault {
        PerformFault::NoMemory
    }
}

impl From<PlayFault> for PerformFault {
    ghost use Rattle.std.specs.Prelude.{◌≡◌};
    ghost use Rattle.ob_object_perform.specs.Performance.{of_play};

    ghost from_gives = { λ e f. f ≡ of_play e };

    fn from(fault: PlayFault) -> PerformFault {
        match fault {
            PlayFault::Processes => PerformFault::Compile(CompileFault::Processes),
            PlayFault::TooLong(number) => PerformFault::TooLong(number),
            PlayFault::NoMemory => PerformFault::NoMemory,
        }
    }
}

/// The record of the run that the scripts and the schedule make on the module's object, which n processes share, and whose
/// calls have so many turns each. The object begins by the module's body.
pub fn perform(
    alloc: Global,
    text: &[u8],
    n: usize,
    budget: u64,
    scripts: &[u8],
    schedule: &[u8],
) -> Result<Record, PerformFault>
    ensures performance { IfOk result (λ r. IsPerformance (run_texts (by_body text.now n budget) scripts.now schedule.now) (record_of r)) }
    ensures events { IfOk result (λ r. length r.history < 2 ^ 64) }
    ensures refused { IfErr result (IsRefusal IsShort (run_texts (by_body text.now n budget) scripts.now schedule.now)) }
    ensures at_once { TellsAtOnce (by_body text.now n budget) (λ e. result ≡ Err (PerformFault.Compile e)) }
{
    let asked = Asked {
        text,
        processes: n,
        budget,
        beginning: Beginning::Body,
    };
    let (_, record) = performed(
        alloc,
        Texts {
            asked,
            scripts,
            schedule,
        },
    )?;
    Ok(record)
}

/// The same of an object that begins with values by the names of its variables, and runs no body.
pub fn perform_from(
    alloc: Global,
    text: &[u8],
    n: usize,
    budget: u64,
    values: &[NamedField],
    scripts: &[u8],
    schedule: &[u8],
) -> Result<Record, PerformFault>
    ensures performance { IfOk result (λ r. IsPerformance (run_texts (by_values text.now n budget (entries_of values.now)) scripts.now schedule.now) (record_of r)) }
    ensures events { IfOk result (λ r. length r.history < 2 ^ 64) }
    ensures refused { IfErr result (IsRefusal IsShort (run_texts (by_values text.now n budget (entries_of values.now)) scripts.now schedule.now)) }
    ensures at_once { TellsAtOnce (by_values text.now n budget (entries_of values.now)) (λ e. result ≡ Err (PerformFault.Compile e)) }
{
    let asked = Asked {
        text,
        processes: n,
        budget,
        beginning: Beginning::Carried(values),
    };
    let (_, record) = performed(
        alloc,
        Texts {
            asked,
            scripts,
            schedule,
        },
    )?;
    Ok(record)
}

/// The record of the run that the texts make, with the checked module, by which the record is written.
pub fn performed(alloc: Global, texts: Texts<'_>) -> Result<(Checked, Record), PerformFault>
    ensures alone { IfOk result (λ r. (other : Program) → IsModule texts.entry.asked.text.now other → other ≡ program_in r.0) }
    ensures performance { IfOk result (λ r. IsPerformance (texts_of texts.entry) (record_of r.1)) }

    // Each call that begins fits the module.
    ensures exports { IfOk result (λ r. BegunFit (Fits (program_in r.0)) r.1.history) }
    ensures turns { IfOk result (λ r. All (λ t. t.process < texts.entry.asked.processes) r.1.schedule.items) }
    ensures events { IfOk result (λ r. length r.1.history < 2 ^ 64) }
    ensures refused { IfErr result (IsRefusal IsShort (texts_of texts.entry)) }
    ensures at_once { TellsAtOnce (texts_of texts.entry).asked (λ e. result ≡ Err (PerformFault.Compile e)) }
{
    let (object, calls, items) = read_texts(alloc, texts)?;
    let (checked, record) = run_on(alloc, object, calls, items)?;
    count_events(&record.history);
    Ok((checked, record))
}

/// Nothing happens: a history in memory has fewer events than numbers of its length.
fn count_events(history: &History)
    ensures { length history.now < 2 ^ 64 }
{
    let _ = history.len();
}

/// What a run is made of: the object that is asked for, the calls of the scripts and the items of the schedule.
pub fn read_texts(
    alloc: Global,
    texts: Texts<'_>,
) -> Result<(Object, Scripts, Vec<Item>), PerformFault>
    ensures read { IfOk result (λ r. AreReadOf IsShort (texts_of texts.entry) (object_in r.0) r.1 r.2.items) }
    ensures ready { IfOk result (λ r. IsReady (object_in r.0) r.1 r.2.items) }
    ensures refused { IfErr result (IsRefusal IsShort (texts_of texts.entry)) }
    ensures at_once { TellsAtOnce (texts_of texts.entry).asked (λ e. result ≡ Err (PerformFault.Compile e)) }
{
    let Texts {
        asked,
        scripts,
        schedule,
    } = texts;
    let object = compile_asked(alloc, asked)?;
    let calls = read_scripts(alloc, object.checked(), asked.processes, scripts)?;
    let items = read_schedule(alloc, asked.processes, schedule)?;
    // Both do nothing: what was read is what a run asks for.
    compilations_are_sound();
    calls_fit();
    Ok((object, calls, items))
}
