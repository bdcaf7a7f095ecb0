//! Lines of calls, each answered before the next one is heard.

ghost use Rattle.std.specs.Prelude.{◌≡◌, List, IfOk, OnOk, string_bytes};
ghost use Rattle.ob_object_live.specs.Living.{IsAt, ground_of};
ghost use Rattle.ob_object_live.specs.Talks.{TalksOn, TellsLine, fault_code, fault_text, record_told};
ghost use Rattle.ob_text_words.specs.ScriptCalls.{ScriptCall};

use crate::conversation::{Conversation, TalkFault};
use crate::live_parts::{Live, Told};
use crate::live_record::remarked;
use ob_text_scripts::ScriptFault;
use ob_text_words::numbers::push_number;
use std::alloc::{AllocError, Global};
use std::io;

/// Answers lines, each before the next one is heard, and behind the last one tells the record.
pub fn talk<C: Conversation>(
    alloc: Global,
    live: Live,
    conversation: &mut C,
) -> Result<(), TalkFault>
    ensures { (calls : List ScriptCall) → IsAt (ground_of live.ground) calls live
        → OnOk result (TalksOn C.hears C.tells (ground_of live.ground) calls 1 conversation.old conversation.new) }
{
    let mut live = live;
    for number in 1..u64::MAX {
        let line = conversation.next_line(alloc)?;
        if line.is_empty() {
            return tell_record(alloc, &live, conversation);
        }
        live = tell_line(alloc, live, number, &line, conversation)?;
    }
    Err(TalkFault::Input(io::ErrorKind::Other))
}

/// Answers a line of this number.
fn tell_line<C: Conversation>(
    alloc: Global,
    live: Live,
    number: u64,
    line: &[u8],
    conversation: &mut C,
) -> Result<Live, TalkFault>
    ensures { (calls : List ScriptCall) → IsAt (ground_of live.ground) calls live
        → IfOk result (TellsLine C.tells (ground_of live.ground) calls number line.now conversation.old conversation.new) }
{
    let (next, told) = live.answer(alloc, line)?;
    match told {
        Told::Lines(lines) => conversation.tell(lines.as_bytes())?,
        Told::Fault(fault) => {
            let text = fault_line(alloc, number, fault)?;
            conversation.tell(text.as_bytes())?;
        }
    }
    Ok(next)
}

/// Tells the record, each line of it as a remark.
fn tell_record<C: Conversation>(
    alloc: Global,
    live: &Live,
    conversation: &mut C,
) -> Result<(), TalkFault>
    ensures { (calls : List ScriptCall) → IsAt (ground_of live.now.ground) calls live.now
        → OnOk result (C.tells conversation.old (record_told (ground_of live.now.ground) calls) conversation.new) }
{
    let record = live.record(alloc)?;
    let text = remarked(alloc, record.as_bytes())?;
    conversation.tell(&text)
}

/// The line that tells the fault of a line of this number.
fn fault_line(alloc: Global, number: u64, fault: ScriptFault) -> Result<String, AllocError>
    ensures { IfOk result (λ text. string_bytes text ≡ fault_text number fault) }
{
    let mut text = String::from_str(alloc, fault_code(fault))?;
    push_number(&mut text, number)?;
    text.push_str("\n")?;
    Ok(text)
}

fn fault_code(fault: ScriptFault) -> &'static str
    ensures { result.now ≡ fault_code fault }
{
    match fault {
        ScriptFault::Form(_) => "L1 line ",
        ScriptFault::Procedure(_) => "L2 line ",
        ScriptFault::Arguments(_) => "L3 line ",
        ScriptFault::Process(_) => "L4 line ",
        ScriptFault::NoMemory => "NoMemory line ",
    }
}
