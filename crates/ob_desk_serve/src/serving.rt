//! One worker for each process, and the record of what they did.

ghost use Rattle.std.specs.Prelude.{◌≡◌, ◌<◌, ◌≤◌, All, IfErr, IfOk, OnOk, length, map};
ghost use Rattle.ob_code_correct.specs.Compiled.{IsFitting};
ghost use Rattle.ob_desk_floor.specs.Close.{AreSeats};
ghost use Rattle.ob_desk_floor.specs.Agreeing.{Agrees};
ghost use Rattle.ob_object_compile.specs.Sound.{IsSoundObject};
ghost use Rattle.ob_object_compile.specs.View.{object_in};
ghost use Rattle.ob_text_record.specs.Record.{record_of};
ghost use Rattle.ob_object_run.specs.Recorded.{DoFit};
ghost use Rattle.ob_desk_serve.specs.NotAllEnded.{lists_in};
ghost use Rattle.ob_desk_serve.specs.ServeFaults.{IsFinishFault, IsServeFault};
ghost use Rattle.ob_desk_serve.specs.PromisesOfServe.{AreAnswersTold, AreTurnsLet, HaveEnded, IsRecordOf, desk_of, kept_desk};
ghost use Rattle.ob_text_words.specs.ScriptCalls.{object_call, script_call_of};

use crate::answers::first_lost;
use crate::closed_record::record_of_machine;
use crate::ended_workers::{HandedBack, handed_back};
use crate::fault::ServeFault;
use crate::object_desk::opened_desk;
use crate::{Gate, gather};
use ob_code_engine::CodeEngine;
use ob_desk_floor::Desk;
use ob_interface::MOST_PROCESSES;
use ob_object_compile::Object;
use ob_text_record::Record;
use ob_text_words::script_call::ScriptCall;
use std::alloc::Global;
use std::sync::Wait;
use std::thread::Threads;

/// The record of a run in which one worker thread for each process takes its turns on the object, as the gate lets it, until
/// every call of the scripts has ended. A worker that the gate refuses `limit` times in a row gives up.
pub fn serve<R: Threads + Wait + Sync, G: Gate + Sync>(
    rt: &R,
    alloc: Global,
    object: &Object,
    scripts: &[ScriptCall],
    gate: &G,
    limit: u64,
) -> Result<Record, ServeFault>
    requires sound { IsSoundObject (object_in object.now) }
    requires some { 0 < (object_in object.now).processes }
    requires few { (object_in object.now).processes ≤ MOST_PROCESSES }
    requires callers { All (λ c. c.process < (object_in object.now).processes) scripts.now }
    requires fits { All (λ c. IsFitting (object_in object.now).engine.exports (object_call (script_call_of c))) scripts.now }
    requires limit { 1 ≤ limit }
    ensures record { IfOk result (λ r. IsRecordOf (object_in object.now) (map script_call_of scripts.now) (record_of r)) }
    ensures ended { IfOk result (λ r. HaveEnded (object_in object.now).processes (map script_call_of scripts.now) r.history) }

    // Of calls that fit the module's exports, and of turns of the object's processes.
    ensures begun { IfOk result (λ r. DoFit (object_in object.now).engine r.history) }
    ensures turns { IfOk result (λ r. All (λ t. t.process < (object_in object.now).processes) r.schedule.items) }

    // The gate let each process take each of these turns, before it had refused it one as often in a row as the limit says.
    ensures passed { IfOk result (λ r. AreTurnsLet (G.passes gate.now) limit (object_in object.now).processes r.schedule.items) }

    // The gate was told of each answer.
    ensures told { IfOk result (λ r. AreAnswersTold (G.hears gate.now) (object_in object.now).processes r.history) }

    ensures fault { IfErr result (IsServeFault (G.passes gate.now) (G.refuses gate.now) (G.hears gate.now) limit (object_in object.now) (map script_call_of scripts.now)) }
{
    let (desk, seats) = opened_desk(alloc, object, scripts)?;
    let workers = gather(rt, alloc, &desk, gate, limit, seats)?;
    let back = handed_back(alloc, workers)?;
    finish(alloc, desk, object, scripts, &back)
}

/// Closes the desk, makes the record of its machine, and compares the answers that were handed back with the record.
fn finish(
    alloc: Global,
    desk: Desk<CodeEngine>,
    object: &Object,
    scripts: &[ScriptCall],
    back: &HandedBack,
) -> Result<Record, ServeFault>
    requires sound { IsSoundObject (object_in object.now) }
    requires some { 0 < (object_in object.now).processes }
    requires desk { kept_desk desk ≡ desk_of (object_in object.now) (map script_call_of scripts.now) }
    requires each { length back.now.answers.items ≡ (object_in object.now).processes }
    ensures record { IfOk result (λ r. IsRecordOf (object_in object.now) (map script_call_of scripts.now) (record_of r)) }
    ensures ended { IfOk result (λ r. HaveEnded (object_in object.now).processes (map script_call_of scripts.now) r.history) }
    ensures begun { IfOk result (λ r. DoFit (object_in object.now).engine r.history) }
    ensures turns { IfOk result (λ r. All (λ t. t.process < (object_in object.now).processes) r.schedule.items) }
    ensures seats { OnOk result (AreSeats (desk_of (object_in object.now) (map script_call_of scripts.now)) back.now.seats.items) }
    ensures agree { IfOk result (λ r. All (Agrees r.history r.schedule.items) back.now.seats.items) }
    ensures fault { IfErr result (IsFinishFault (object_in object.now) (map script_call_of scripts.now) back.now.seats.items (lists_in back.now)) }
{
    let machine = desk.close(back.seats.as_slice())?;
    let record = record_of_machine(alloc, object, machine)?;
    match first_lost(
        object.processes(),
        scripts,
        back.answers.as_slice(),
        record.history.events(),
    ) {
        Some(process) => Err(ServeFault::Lost(process)),
        None => Ok(record),
    }
}
