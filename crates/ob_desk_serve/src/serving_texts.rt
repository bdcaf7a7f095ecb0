//! Workers served from texts.

ghost use Rattle.std.specs.Prelude.{◌≡◌, ◌≢◌, ℕ, ◌<◌, ◌≤◌, ◌^◌, All, Err, IfErr, IfOk, length, map, string_bytes};
ghost use Rattle.ob_code_correct.specs.Compiled.{IsFitting};
ghost use Rattle.ob_desk_serve.specs.PromisesOfServeTexts.{AreReadCalls, IsServeRefusal, IsServedBy, IsServedPrinted, IsUngatedRefusal, calls_texts};
ghost use Rattle.ob_object_compile.specs.Asked.{TellsAtOnce};
ghost use Rattle.ob_object_compile.specs.Compilation.{IsShort};
ghost use Rattle.ob_object_compile.specs.Sound.{IsSoundObject};
ghost use Rattle.ob_object_compile.specs.View.{asked_of, object_in};
ghost use Rattle.ob_object_perform.specs.Performance.{IsRefusal};
ghost use Rattle.ob_text_words.specs.ScriptCalls.{object_call, script_call_of};

use crate::{Gate, Open, ServeFault, serve};
use ob_object_compile::{Asked, Object};
use ob_object_perform::performing::read_texts;
use ob_object_perform::{PerformFault, Texts};
use ob_text_record::write_record;
use ob_text_words::script_call::ScriptCall;
use std::alloc::{AllocError, Global};
use std::sync::Wait;
use std::thread::Threads;
use thiserror::Error;
use wf_history::History;

/// Why workers give no record of texts: the first fault, in the order of the variants.
#[derive(Clone, Copy, Debug, Error)]
pub enum ServeTextFault {
    /// A fault of the texts, as of a run.
    #[error("{0}")]
    Texts(PerformFault),
    /// A fault of the workers.
    #[error("{0}")]
    Serve(ServeFault),
    /// Want of memory.
    #[error("NoMemory")]
    NoMemory,
}

impl From<PerformFault> for ServeTextFault {
    ghost use Rattle.std.specs.Prelude.{◌≡◌};
    ghost use Rattle.ob_desk_serve.specs.PromisesOfServeTexts.{of_texts};

    ghost from_gives = { λ e f. f ≡ of_texts e };

    fn from(fault: PerformFault) -> ServeTextFault {
        match fault {
            PerformFault::NoMemory => ServeTextFault::NoMemory,
            other => ServeTextFault::Texts(other),
        }
    }
}

impl From<ServeFault> for ServeTextFault {
    ghost use Rattle.std.specs.Prelude.{◌≡◌};
    ghost use Rattle.ob_desk_serve.specs.PromisesOfServeTexts.{of_serve};

    ghost from_gives = { λ e f. f ≡ of_serve e };

    fn from(fault: ServeFault) -> ServeTextFault {
        match fault {
            ServeFault::NoMemory => ServeTextFault::NoMemory,
            other => ServeTextFault::Serve(other),
        }
    }
}

impl From<AllocError> for ServeTextFault {
    ghost use Rattle.std.specs.Prelude.{◌≡◌};
    ghost use Rattle.ob_desk_serve.specs.declared.serving_texts.ServeTextFault.TheVariants as Faults;

    ghost from_gives = { λ _ f. f ≡ Faults.NoMemory };

    fn from(_: AllocError) -> ServeTextFault {
        ServeTextFault::NoMemory
    }
}

/// The text of the record of workers, one for each process, that make the calls of the scripts on the object that is asked for.
/// No gate stands in their way.
pub fn serve_text<R: Threads + Wait + Sync>(
    rt: &R,
    alloc: Global,
    asked: Asked<'_>,
    scripts: &[u8],
) -> Result<String, ServeTextFault>
    ensures served { IfOk result (λ lines. IsServedPrinted (asked_of asked.entry) scripts.now (string_bytes lines)) }
    ensures refused { IfErr result (IsUngatedRefusal (asked_of asked.entry) scripts.now) }

    // No fault is that of a gate which refused.
    ensures open { (p : ℕ) → result ≢ Err (ServeTextFault.Serve (ServeFault.Refused p)) }
    ensures at_once { TellsAtOnce (asked_of asked.entry) (λ e. result ≡ Err (ServeTextFault.Texts (PerformFault.Compile e))) }
{
    serve_text_with(rt, alloc, asked, scripts, &Open, 1)
}

/// The same with a gate, which each worker asks before each turn. A worker that it refuses `limit` times in a row gives up.
pub fn serve_text_with<R: Threads + Wait + Sync, G: Gate + Sync>(
    rt: &R,
    alloc: Global,
    asked: Asked<'_>,
    scripts: &[u8],
    gate: &G,
    limit: u64,
) -> Result<String, ServeTextFault>
    requires { 1 ≤ limit }

    // By this gate and this limit: it let the workers take each turn that is printed and was told of each answer, and where V1 is
    // told, it refused as often.
    ensures served { IfOk result (λ lines. IsServedBy (G.passes gate.now) (G.hears gate.now) limit (asked_of asked.entry) scripts.now (string_bytes lines)) }
    ensures refused { IfErr result (IsServeRefusal (G.passes gate.now) (G.refuses gate.now) (G.hears gate.now) limit (asked_of asked.entry) scripts.now) }
    ensures at_once { TellsAtOnce (asked_of asked.entry) (λ e. result ≡ Err (ServeTextFault.Texts (PerformFault.Compile e))) }
{
    let (object, calls) = read_calls(alloc, asked, scripts)?;
    let record = serve(rt, alloc, &object, calls.as_slice(), gate, limit)?;
    count_events(&record.history);
    Ok(write_record(alloc, object.checked(), &record)?)
}

/// Nothing happens: a history has fewer events than numbers of its length.
fn count_events(history: &History)
    ensures { length history.now < 2 ^ 64 }
{
    let _ = history.len();
}

/// The object that is asked for, and the calls of the scripts: what workers are given.
pub fn read_calls(
    alloc: Global,
    asked: Asked<'_>,
    scripts: &[u8],
) -> Result<(Object, Vec<ScriptCall>), PerformFault>
    ensures ready { IfOk result (λ r. AreReadCalls (asked_of asked.entry) scripts.now (object_in r.0) (map script_call_of r.1.items)) }
    ensures sound { IfOk result (λ r. IsSoundObject (object_in r.0)) }
    ensures callers { IfOk result (λ r. All (λ c. c.process < (object_in r.0).processes) r.1.items) }
    ensures fits { IfOk result (λ r. All (λ c. IsFitting (object_in r.0).engine.exports (object_call (script_call_of c))) r.1.items) }
    ensures refused { IfErr result (IsRefusal IsShort (calls_texts (asked_of asked.entry) scripts.now)) }
    ensures at_once { TellsAtOnce (asked_of asked.entry) (λ e. result ≡ Err (PerformFault.Compile e)) }
{
    let texts = Texts {
        asked,
        scripts,
        schedule: b"",
    };
    let (object, calls, _) = read_texts(alloc, texts)?;
    Ok((object, calls.into_calls()))
}
