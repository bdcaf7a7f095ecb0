//! The desk of an object.

ghost use Rattle.std.specs.Prelude.{◌≡◌, ◌<◌, ◌≤◌, All, IfOk, map};
ghost use Rattle.ob_code_correct.specs.Compiled.{IsFitting};
ghost use Rattle.ob_desk_floor.specs.Desk.{seats_of};
ghost use Rattle.ob_desk_floor.specs.Submission.{submission_of};
ghost use Rattle.ob_object_compile.specs.Sound.{IsSoundObject};
ghost use Rattle.ob_object_compile.specs.View.{object_in};
ghost use Rattle.ob_desk_serve.specs.PromisesOfServe.{desk_of, kept_desk};
ghost use Rattle.ob_text_words.specs.ScriptCalls.{object_call, script_call_of};
ghost use Rattle.wf_play.specs.Played.{scripts_of};

use ob_code_engine::CodeEngine;
use ob_desk_floor::{Desk, Opening, Seat, Submission};
use ob_interface::{MOST_PROCESSES, NoMemory};
use ob_layout::encode;
use ob_object_compile::Object;
use ob_text_words::script_call::ScriptCall;
use std::alloc::{AllocError, Global};

/// The tag of the seats.
const TAG: u64 = 0;

/// The desk at which the object's processes take their turns, with the calls of the scripts submitted, and its seats.
pub fn opened_desk(
    alloc: Global,
    object: &Object,
    scripts: &[ScriptCall],
) -> Result<(Desk<CodeEngine>, Vec<Seat>), NoMemory>
    requires sound { IsSoundObject (object_in object.now) }
    requires some { 0 < (object_in object.now).processes }
    requires few { (object_in object.now).processes ≤ MOST_PROCESSES }
    requires callers { All (λ c. c.process < (object_in object.now).processes) scripts.now }
    requires fits { All (λ c. IsFitting (object_in object.now).engine.exports (object_call (script_call_of c))) scripts.now }
    ensures desk { IfOk result (λ r. kept_desk r.0 ≡ desk_of (object_in object.now) (map script_call_of scripts.now)) }
    ensures seats { IfOk result (λ r. r.1.items ≡ seats_of (object_in object.now).processes 0) }
{
    let engine = object.engine().copy(alloc)?;
    let opening = Opening {
        words: encode(alloc, object.opening())?,
        carried: object.carried(),
    };
    let calls = submissions(alloc, scripts)?;
    Desk::open(alloc, engine, object.processes(), opening, calls, TAG)
}

/// The calls of scripts, as processes make them.
pub fn submissions(alloc: Global, scripts: &[ScriptCall]) -> Result<Vec<Submission>, AllocError>
    ensures { IfOk result (λ v. map submission_of v.items ≡ scripts_of (map script_call_of scripts.now)) }
{
    let mut submissions = Vec::with_capacity(alloc, scripts.len())?;
    for script in scripts {
        submissions.push(Submission {
            process: script.process,
            call: script.asked(alloc)?,
        })?;
    }
    Ok(submissions)
}
