//! The object that is asked for, called as calls come.

ghost use Rattle.std.specs.Prelude.{◌≡◌, Err, IfErr, IfOk, OnOk};
ghost use Rattle.ob_object_compile.specs.Asked as Asking;
ghost use Rattle.ob_object_compile.specs.Asked.{TellsAtOnce};
ghost use Rattle.ob_object_compile.specs.Compilation.{IsRefusal, IsShort};
ghost use Rattle.ob_object_compile.specs.View.{asked_of};
ghost use Rattle.ob_object_live.specs.LiveParts.{BeginsAt};
ghost use Rattle.ob_object_live.specs.LiveRuns.{IsLiveRun};

use crate::conversation::{Conversation, TalkFault};
use crate::live_parts::{Ground, Live};
use crate::talking::talk;
use ob_object_compile::{Asked, CompileFault, compile_asked};
use std::alloc::Global;

/// The object that is asked for, before any call.
pub fn live_object(alloc: Global, asked: Asked<'_>) -> Result<Live, CompileFault>
    ensures begun { IfOk result (BeginsAt (asked_of asked.entry)) }
    ensures refused { IfErr result (IsRefusal IsShort (asked_of asked.entry)) }
    ensures at_once { TellsAtOnce (asked_of asked.entry) (λ e. result ≡ Err e) }
{
    let object = compile_asked(alloc, asked)?;
    let (processes, checked, _, engine, opening, carried) = object.into_parts();
    let ground = Ground {
        checked,
        processes,
        budget: engine.budget(),
        opening,
        carried,
    };
    Ok(Live::begin(alloc, ground)?)
}

/// Answers lines by an object that was asked for, each before the next one is heard, and behind the last one tells the record.
pub fn live_talk<C: Conversation>(
    alloc: Global,
    live: Live,
    conversation: &mut C,
) -> Result<(), TalkFault>
    ensures { (asked : Asking.Asked) → BeginsAt asked live → OnOk result (IsLiveRun C.hears C.tells asked conversation.old conversation.new) }
{
    talk(alloc, live, conversation)
}
