//! Runs of calls and items on an object, and which process showed each of their events.

ghost use Rattle.std.specs.Prelude.{◌≡◌, ◌<◌, ◌≤◌, All, IfErr, IfOk};
ghost use Rattle.ob_checked.specs.CheckedModule.{program_in};
ghost use Rattle.ob_code_correct.specs.Carried.{BegunFit};
ghost use Rattle.ob_code_correct.specs.Compiled.{Fits};
ghost use Rattle.ob_code_scheme.specs.Layout.{encoded};
ghost use Rattle.ob_object_compile.specs.View.{object_in};
ghost use Rattle.ob_object_perform.specs.Performance.{AreMakersIn, IsMeantIn, IsReady, IsRunFault, Shows, ShowsNone};
ghost use Rattle.ob_text_record.specs.Record.{record_of};

use ob_checked::checked::Checked;
use ob_code_engine::CodeEngine;
use ob_interface::{MOST_PROCESSES, NoMemory};
use ob_layout::encode;
use ob_object_compile::Object;
use ob_object_run::laws::states_are_objects;
use ob_object_run::record_run;
use ob_text_record::{Record, carried_state};
use ob_text_scripts::Scripts;
use ob_text_words::Item;
use std::alloc::Global;
use wf_play::laws::too_long_items_are_no_run;
use wf_play::{PlayFault, makers};

/// A run of calls and items on an object: its checked module, and the record.
pub fn run_on(
    alloc: Global,
    object: Object,
    calls: Scripts,
    items: Vec<Item>,
) -> Result<(Checked, Record), PlayFault>
    requires { IsReady (object_in object) calls items.items }
    ensures program { IfOk result (λ r. program_in r.0 ≡ (object_in object).program) }
    ensures shows { IfOk result (λ r. Shows (object_in object) calls items.items (record_of r.1)) }
    ensures meant { IfOk result (λ r. IsMeantIn (object_in object) (record_of r.1)) }
    ensures exports { IfOk result (λ r. BegunFit (Fits (object_in object).program) r.1.history) }
    ensures turns { IfOk result (λ r. All (λ t. t.process < (object_in object).processes) r.1.schedule.items) }
    ensures fault { IfErr result (IsRunFault (object_in object) calls items.items) }
    ensures none { IfErr result (ShowsNone (object_in object) calls items.items) }
{
    states_are_objects();
    too_long_items_are_no_run::<CodeEngine>();
    let (processes, checked, layout, engine, opening, carried) = object.into_parts();
    let record = record_run(
        alloc,
        engine,
        processes,
        &layout,
        &opening,
        calls.into_calls(),
        items.as_slice(),
    )?;
    Ok((checked, record.begun_by(carried_state(opening, carried))))
}

/// What a run begins with.
#[derive(Drop)]
pub struct Beginning {
    pub processes: usize,
    pub engine: CodeEngine,
    pub opening: Vec<i64>,
    pub calls: Scripts,
}

/// A run of calls and items on an object: its checked module, the record, and of each event the process whose step
/// showed it. That is not in the record: the turns of its schedule are taken once more.
pub(crate) fn run_with_makers(
    alloc: Global,
    object: Object,
    calls: Scripts,
    items: Vec<Item>,
) -> Result<(Checked, Record, Vec<usize>), PlayFault>
    requires ready { IsReady (object_in object) calls items.items }
    requires some { 0 < (object_in object).processes }
    requires few { (object_in object).processes ≤ MOST_PROCESSES }
    ensures program { IfOk result (λ r. program_in r.0 ≡ (object_in object).program) }
    ensures shows { IfOk result (λ r. Shows (object_in object) calls items.items (record_of r.1)) }
    ensures meant { IfOk result (λ r. IsMeantIn (object_in object) (record_of r.1)) }
    ensures makers { IfOk result (λ r. AreMakersIn (object_in object) calls (record_of r.1) r.2.items) }
    ensures fault { IfErr result (IsRunFault (object_in object) calls items.items) }
    ensures none { IfErr result (ShowsNone (object_in object) calls items.items) }
{
    // This does nothing: a state is an object over its engine.
    states_are_objects();
    let (checked, record, again) = run_to_repeat(alloc, object, calls, items)?;
    let Beginning {
        processes,
        engine,
        opening,
        calls,
    } = again;
    let makers = makers(
        alloc,
        engine,
        processes,
        opening.as_slice(),
        calls.into_calls(),
        record.schedule.as_slice(),
    )?;
    Ok((checked, record, makers))
}

/// A run of calls and items on an object: its checked module, the record, and what the run began with, for whoever takes the
/// turns of its schedule once more.
pub fn run_to_repeat(
    alloc: Global,
    object: Object,
    calls: Scripts,
    items: Vec<Item>,
) -> Result<(Checked, Record, Beginning), PlayFault>
    requires { IsReady (object_in object) calls items.items }
    ensures program { IfOk result (λ r. program_in r.0 ≡ (object_in object).program) }
    ensures shows { IfOk result (λ r. Shows (object_in object) calls items.items (record_of r.1)) }
    ensures meant { IfOk result (λ r. IsMeantIn (object_in object) (record_of r.1)) }
    ensures turns { IfOk result (λ r. All (λ t. t.process < (object_in object).processes) r.1.schedule.items) }
    ensures processes { IfOk result (λ r. r.2.processes ≡ (object_in object).processes) }
    ensures engine { IfOk result (λ r. r.2.engine.parts ≡ (object_in object).engine) }
    ensures opening { IfOk result (λ r. r.2.opening.items ≡ encoded (object_in object).opening) }
    ensures calls { IfOk result (λ r. r.2.calls ≡ calls) }
    ensures fault { IfErr result (IsRunFault (object_in object) calls items.items) }
    ensures none { IfErr result (ShowsNone (object_in object) calls items.items) }
{
    let again = beginning_of(alloc, &object, &calls)?;
    let (checked, record) = run_on(alloc, object, calls, items)?;
    Ok((checked, record, again))
}

/// Equal to what a run of these calls on the object begins with.
fn beginning_of(alloc: Global, object: &Object, calls: &Scripts) -> Result<Beginning, NoMemory>
    ensures processes { IfOk result (λ b. b.processes ≡ (object_in object.now).processes) }
    ensures engine { IfOk result (λ b. b.engine.parts ≡ (object_in object.now).engine) }
    ensures opening { IfOk result (λ b. b.opening.items ≡ encoded (object_in object.now).opening) }
    ensures calls { IfOk result (λ b. b.calls ≡ calls.now) }
{
    Ok(Beginning {
        processes: object.processes(),
        engine: object.engine().copy(alloc)?,
        opening: encode(alloc, object.opening())?,
        calls: calls.copy(alloc)?,
    })
}
