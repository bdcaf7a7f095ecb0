//! Runs from texts over a module's tree.

ghost use Rattle.std.specs.Prelude.{◌≡◌, ◌<◌, ◌^◌, Err, IfOk, IfErr, length};
ghost use Rattle.ob_object_compile.specs.Asked.{TellsAtOnce, by_body};
ghost use Rattle.ob_object_compile.specs.Compilation.{IsAny};
ghost use Rattle.ob_object_compile.specs.View.{tree_object_in};
ghost use Rattle.ob_object_perform.specs.Performance.{AreReadOf, IsReady, IsRefusal, IsTreePerformance};
ghost use Rattle.ob_object_perform.specs.Texts.{run_texts, texts_of};
ghost use Rattle.ob_text_record.specs.Record.{record_of};
ghost use Rattle.ob_object_perform.specs.TreeRuns.{HasTextOfCode, IsOfCode};
ghost use Rattle.ob_typing.specs.ModuleText.{IsModule};
ghost use Rattle.ob_typing.specs.Program.{Program};

use crate::tree_running::run_on_tree;
use crate::{PerformFault, Texts};
use ob_code_correct::laws::calls_fit;
use ob_object_compile::laws::compilations_are_sound;
use ob_object_compile::{Asked, Beginning, TreeObject, compile_tree};
use ob_text_record::Record;
use ob_text_record::laws::texts_agree;
use ob_text_scripts::{Scripts, read_scripts};
use ob_text_words::{Item, read_schedule};
use std::alloc::Global;
use wf_history::History;

/// The record of the run that the scripts and the schedule make on the module's object, over the module's tree: as `perform` gives it,
/// without G1.
pub fn perform_tree(
    alloc: Global,
    text: &[u8],
    n: usize,
    budget: u64,
    scripts: &[u8],
    schedule: &[u8],
) -> Result<Record, PerformFault>
    ensures performance { IfOk result (λ r. IsTreePerformance (run_texts (by_body text.now n budget) scripts.now schedule.now) (record_of r)) }

    // Where there is code, the record is one of a run over it, and all of those have its text.
    ensures coded { IfOk result (λ r. IsOfCode (run_texts (by_body text.now n budget) scripts.now schedule.now) (record_of r)) }
    ensures same { IfOk result (λ r. HasTextOfCode (run_texts (by_body text.now n budget) scripts.now schedule.now) (record_of r)) }
    ensures events { IfOk result (λ r. length r.history < 2 ^ 64) }
    ensures refused { IfErr result (IsRefusal IsAny (run_texts (by_body text.now n budget) scripts.now schedule.now)) }
    ensures at_once { TellsAtOnce (by_body text.now n budget) (λ e. result ≡ Err (PerformFault.Compile e)) }
{
    let asked = Asked {
        text,
        processes: n,
        budget,
        beginning: Beginning::Body,
    };
    let (_, record) = performed_tree(
        alloc,
        Texts {
            asked,
            scripts,
            schedule,
        },
    )?;
    Ok(record)
}

/// The record of the run that texts make over the module's tree, with the object of the run.
pub(crate) fn performed_tree(
    alloc: Global,
    texts: Texts<'_>,
) -> Result<(TreeObject, Record), PerformFault>
    ensures alone { IfOk result (λ r. (other : Program) → IsModule texts.entry.asked.text.now other → other ≡ (tree_object_in r.0).program) }
    ensures performance { IfOk result (λ r. IsTreePerformance (texts_of texts.entry) (record_of r.1)) }
    ensures coded { IfOk result (λ r. IsOfCode (texts_of texts.entry) (record_of r.1)) }
    ensures same { IfOk result (λ r. HasTextOfCode (texts_of texts.entry) (record_of r.1)) }
    ensures events { IfOk result (λ r. length r.1.history < 2 ^ 64) }
    ensures refused { IfErr result (IsRefusal IsAny (texts_of texts.entry)) }
    ensures at_once { TellsAtOnce (texts_of texts.entry).asked (λ e. result ≡ Err (PerformFault.Compile e)) }
{
    let (object, calls, items) = read_tree_texts(alloc, texts)?;
    let record = run_on_tree(alloc, &object, calls, items)?;
    count_events(&record.history);
    // This does nothing: a state has one text, by position as by name.
    texts_agree();
    Ok((object, record))
}

/// Nothing happens: a history in memory has fewer events than numbers of its length.
fn count_events(history: &History)
    ensures { length history.now < 2 ^ 64 }
{
    let _ = history.len();
}

/// What a run is made of: the object that is asked for, the calls of the scripts and the items of the schedule.
fn read_tree_texts(
    alloc: Global,
    texts: Texts<'_>,
) -> Result<(TreeObject, Scripts, Vec<Item>), PerformFault>
    ensures read { IfOk result (λ r. AreReadOf IsAny (texts_of texts.entry) (tree_object_in r.0) r.1 r.2.items) }
    ensures ready { IfOk result (λ r. IsReady (tree_object_in r.0) r.1 r.2.items) }
    ensures refused { IfErr result (IsRefusal IsAny (texts_of texts.entry)) }
    ensures at_once { TellsAtOnce (texts_of texts.entry).asked (λ e. result ≡ Err (PerformFault.Compile e)) }
{
    let Texts {
        asked,
        scripts,
        schedule,
    } = texts;
    let object = compile_tree(alloc, asked)?;
    let calls = read_scripts(alloc, object.checked(), asked.processes, scripts)?;
    let items = read_schedule(alloc, asked.processes, schedule)?;
    // Both do nothing: what was read is what a run asks for.
    compilations_are_sound();
    calls_fit();
    Ok((object, calls, items))
}
