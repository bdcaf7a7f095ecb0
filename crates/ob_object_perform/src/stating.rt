//! The machine behind a run, and its text.

ghost use Rattle.std.specs.Prelude.{◌≡◌, Err, IfErr, IfOk, string_bytes};
ghost use Rattle.ob_object_compile.specs.Asked.{TellsAtOnce};
ghost use Rattle.ob_object_compile.specs.Compilation.{IsShort};
ghost use Rattle.ob_object_compile.specs.View.{object_in};
ghost use Rattle.ob_object_perform.specs.Performance.{IsReady, IsRefusal, IsRunFault, ShowsNone};
ghost use Rattle.ob_object_perform.specs.Texts.{texts_of};
ghost use Rattle.ob_object_perform.specs.Behind.{IsStateBehind, IsStatePrinted, sizes_in};

use crate::performing::read_texts;
use crate::{PerformFault, Texts};
use ob_code_engine::CodeEngine;
use ob_layout::encode;
use ob_object_compile::Object;
use ob_object_run::laws::states_are_objects;
use ob_text_record::write_state;
use ob_text_scripts::Scripts;
use ob_text_words::Item;
use std::alloc::Global;
use wf_object::Machine;
use wf_play::laws::too_long_items_are_no_run;
use wf_play::{PlayFault, play};

/// The text of the state in which the machine stands behind the run that texts make.
pub fn state_text(alloc: Global, texts: Texts<'_>) -> Result<String, PerformFault>
    ensures state { IfOk result (λ lines. IsStatePrinted (texts_of texts.entry) (string_bytes lines)) }
    ensures refused { IfErr result (IsRefusal IsShort (texts_of texts.entry)) }
    ensures at_once { TellsAtOnce (texts_of texts.entry).asked (λ e. result ≡ Err (PerformFault.Compile e)) }
{
    let (object, calls, items) = read_texts(alloc, texts)?;
    let machine = machine_behind(alloc, object, calls, items)?;
    Ok(write_state(alloc, &machine)?)
}

/// The machine of an object behind calls and items.
fn machine_behind(
    alloc: Global,
    object: Object,
    calls: Scripts,
    items: Vec<Item>,
) -> Result<Machine<CodeEngine>, PlayFault>
    requires { IsReady (object_in object) calls items.items }
    ensures sizes { IfOk result (λ machine. machine.sizes ≡ sizes_in (object_in object)) }
    ensures behind { IfOk result (λ machine. IsStateBehind (object_in object) calls items.items machine.state) }
    ensures fault { IfErr result (IsRunFault (object_in object) calls items.items) }
    ensures none { IfErr result (ShowsNone (object_in object) calls items.items) }
{
    // Both do nothing: a state is an object over its engine, and an item that is too long is none of a run.
    states_are_objects();
    too_long_items_are_no_run::<CodeEngine>();
    let (processes, _, _, engine, opening, _) = object.into_parts();
    let words = encode(alloc, &opening)?;
    play(
        alloc,
        engine,
        processes,
        words.as_slice(),
        calls.into_calls(),
        items.as_slice(),
    )
}
