//! Calls that are made as they come.

ghost use Rattle.std.specs.Prelude.{◌≡◌, ◌<◌, List, All, IfOk, map, string_bytes};
ghost use Rattle.ob_checked.specs.Exports.{signatures};
ghost use Rattle.ob_interface.specs.Export.{CallFits};
ghost use Rattle.ob_object_live.specs.Living.{AreTold, IsAt, OneMade, ground_of};
ghost use Rattle.ob_text_words.specs.ScriptCalls as Calls;
ghost use Rattle.ob_text_words.specs.ScriptCalls.{object_call, script_call_of};

use crate::live_call::{call_asked, push_call, push_next, push_reply};
use crate::live_parts::{Ground, Live, Told};
use crate::live_record::write_record;
use ob_interface::NoMemory;
use ob_mean::outside_call::step;
use ob_text_scripts::{ScriptFault, read_scripts};
use ob_text_words::script_call::ScriptCall;
use std::alloc::{AllocError, Global};
use wf_history::CallId;

impl Live {
    ghost use Rattle.std.specs.Prelude.{◌≡◌, List, [], IfOk, string_bytes};
    ghost use Rattle.ob_object_live.specs.Living.{IsAnswered, IsAt, ground_of, record_at};
    ghost use Rattle.ob_text_record.specs.RecordText.{record_text};
    ghost use Rattle.ob_text_words.specs.ScriptCalls as Calls;

    /// Before any call.
    pub fn begin(alloc: Global, ground: Ground) -> Result<Live, NoMemory>
        ensures { IfOk result (λ l. IsAt (ground_of ground) [] l) }
    {
        let state = ground.opening.copy(alloc)?;
        let made = vec![in alloc; 0u64; ground.processes]?;
        Ok(Live {
            ground,
            state,
            made,
            events: String::new(alloc),
            order: String::new(alloc),
        })
    }

    /// Makes the calls of a text, one at a time, where it is a script, and tells their replies. What is told so behind what was told before is
    /// what is told of all calls that were made so far.
    pub fn answer(self, alloc: Global, text: &[u8]) -> Result<(Live, Told), NoMemory>
        ensures { (calls : List Calls.ScriptCall) → IsAt (ground_of self.ground) calls self
            → IfOk result (λ r. IsAnswered (ground_of self.ground) calls text.now r.1 r.0) }
    {
        let processes = self.ground.processes;
        match read_scripts(alloc, &self.ground.checked, processes, text) {
            Ok(scripts) => answer_calls(alloc, self, scripts.calls()),
            Err(ScriptFault::NoMemory) => Err(NoMemory),
            Err(fault) => Ok((self, Told::Fault(fault))),
        }
    }

    /// The record of all calls that were made so far.
    pub fn record(&self, alloc: Global) -> Result<String, AllocError>
        ensures { (calls : List Calls.ScriptCall) → IsAt (ground_of self.now.ground) calls self.now
            → IfOk result (λ text. string_bytes text ≡ record_text (ground_of self.now.ground).program (record_at (ground_of self.now.ground) calls)) }
    {
        write_record(
            alloc,
            &self.ground,
            self.events.as_str(),
            self.order.as_str(),
            &self.state,
        )
    }
}

/// Makes calls, one at a time, and tells their replies.
fn answer_calls(alloc: Global, live: Live, calls: &[ScriptCall]) -> Result<(Live, Told), NoMemory>
    requires below { All (λ c. c.process < (ground_of live.ground).processes) (map script_call_of calls.now) }
    requires fit { All (λ c. CallFits (signatures (ground_of live.ground).program) (object_call c)) (map script_call_of calls.now) }
    ensures { (before : List Calls.ScriptCall) → IsAt (ground_of live.ground) before live
        → IfOk result (λ r. AreTold (ground_of live.ground) before (map script_call_of calls.now) r.1 r.0) }
{
    let mut live = live;
    let mut lines = String::new(alloc);
    for call in calls {
        live = answer_call(alloc, live, call, &mut lines)?;
    }
    Ok((live, Told::Lines(lines)))
}

/// Makes a call, and appends the line of its reply.
fn answer_call(
    alloc: Global,
    live: Live,
    call: &ScriptCall,
    lines: &mut String,
) -> Result<Live, NoMemory>
    requires below { call.now.process < (ground_of live.ground).processes }
    requires fit { CallFits (signatures (ground_of live.ground).program) (object_call (script_call_of call.now)) }
    ensures same { IfOk result (λ next. ground_of next.ground ≡ ground_of live.ground) }
    ensures more { (before : List Calls.ScriptCall) → IsAt (ground_of live.ground) before live
        → IfOk result (OneMade (ground_of live.ground) before (script_call_of call.now) (string_bytes lines.old) (string_bytes lines.new)) }
{
    let Live {
        ground,
        state,
        mut made,
        mut events,
        mut order,
    } = live;
    let asked = call_asked(alloc, call)?;
    let (state, reply) = step(
        alloc,
        ground.checked.program(),
        state,
        &asked,
        ground.budget,
    )?;
    let Some(number) = made[call.process].checked_add(1) else {
        return Err(NoMemory);
    };
    made[call.process] = number;
    let id = CallId {
        process: call.process,
        number,
    };
    push_call(&mut events, ground.checked.exports(), id, call, &reply)?;
    push_next(&mut order, id)?;
    push_reply(lines, id, &reply)?;
    Ok(Live {
        ground,
        state,
        made,
        events,
        order,
    })
}
