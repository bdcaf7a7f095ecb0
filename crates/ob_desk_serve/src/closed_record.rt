//! The record of the machine of a desk that was closed.

ghost use Rattle.std.specs.Prelude.{◌≡◌, ◌<◌, All, IfOk};
ghost use Rattle.ob_code_scheme.specs.Layout.{encoded};
ghost use Rattle.ob_desk_serve.specs.PromisesOfServe.{IsLegalRecord, IsMeantRecord};
ghost use Rattle.ob_object_compile.specs.Sound.{IsSoundObject};
ghost use Rattle.ob_object_compile.specs.View.{object_in};
ghost use Rattle.ob_text_record.specs.Record.{carried_from, record_of};
ghost use Rattle.ob_object_run.specs.Recorded.{DoFit};

use ob_code_engine::CodeEngine;
use ob_interface::NoMemory;
use ob_object_compile::Object;
use ob_object_run::recorded;
use ob_text_record::{Record, carried_copy};
use std::alloc::Global;
use wf_object::Machine;

/// What the run of a machine of the object showed.
pub fn record_of_machine(
    alloc: Global,
    object: &Object,
    machine: Machine<CodeEngine>,
) -> Result<Record, NoMemory>
    requires sound { IsSoundObject (object_in object.now) }
    requires code { machine.engine.parts ≡ (object_in object.now).engine }
    requires opening { machine.opening ≡ encoded (object_in object.now).opening }
    requires processes { machine.sizes.processes ≡ (object_in object.now).processes }
    ensures processes { IfOk result (λ r. r.processes ≡ (object_in object.now).processes) }
    ensures carried { IfOk result (λ r. (record_of r).carried ≡ carried_from (object_in object.now).carried (object_in object.now).opening) }
    ensures budget { IfOk result (λ r. r.budget ≡ (object_in object.now).engine.budget) }
    ensures history { IfOk result (λ r. r.history ≡ machine.state.records.history) }
    ensures order { IfOk result (λ r. r.order.items ≡ machine.state.records.order) }
    ensures schedule { IfOk result (λ r. r.schedule.items ≡ machine.state.records.schedule) }
    ensures legal { IfOk result (λ r. IsLegalRecord (object_in object.now) (record_of r)) }
    ensures meant { IfOk result (λ r. IsMeantRecord (object_in object.now) (record_of r)) }
    ensures begun { IfOk result (λ r. DoFit (object_in object.now).engine r.history) }
    ensures turns { IfOk result (λ r. All (λ t. t.process < (object_in object.now).processes) r.schedule.items) }
{
    let shown = recorded(alloc, machine, object.processes(), object.layout())?;
    let carried = carried_copy(alloc, object.opening(), object.carried())?;
    Ok(shown.begun_by(carried))
}
