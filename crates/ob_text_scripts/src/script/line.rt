//! What a line of a script says.

ghost use Rattle.std.specs.Prelude.{◌≡◌, ◌↔◌, ℕ, [], ◌∷◌, true, false, map, IsTrue, IfOk, IfErr, OnErr, List};
ghost use Rattle.ob_interface.specs.View.{signature_of};
ghost use Rattle.ob_text_words.specs.Values.{AreValues, types_of};
ghost use Rattle.ob_text_scripts.specs.Script.{IsSkipped, Makes};
ghost use Rattle.ob_text_scripts.specs.ScriptLine.{HasFault, MakesOrSkips};
ghost use Rattle.ob_text_words.specs.Finding.{FindsAs};
ghost use Rattle.ob_text_words.specs.ScriptCalls.{script_call_of};

use crate::script::ScriptFault;
use ob_interface::export::{Export, Formal};
use ob_interface::scalar::Scalar;
use ob_text_words::export_names::export_named;
use ob_text_words::numbers::read_process;
use ob_text_words::parameter_words::read_values;
use ob_text_words::script_call::ScriptCall;
use ob_text_words::words::is_name;
use smallvec::SmallVec;
use std::alloc::{AllocError, Global};

/// The call that a line of these words makes; `None` for a line with nothing to say.
pub(super) fn read_line(
    alloc: Global,
    exports: &[Export],
    processes: usize,
    number: usize,
    words: &[&[u8]],
) -> Result<Option<ScriptCall>, ScriptFault>
    ensures call { IfOk result (MakesOrSkips (map signature_of exports.now) processes (map (λ w. w.now) words.now)) }
    ensures fault { IfErr result (λ e. HasFault (map signature_of exports.now) processes (map (λ w. w.now) words.now) number e) }
    ensures says { OnErr result (IsSkipped (map (λ w. w.now) words.now) → ⊥) }
{
    let Some((first, behind)) = words.split_first() else {
        return Ok(None);
    };
    if begins_comment(first) {
        return Ok(None);
    }
    let call = read_call(alloc, exports, processes, number, first, behind)?;
    Ok(Some(call))
}

/// The call that a first word and the words behind it make.
fn read_call(
    alloc: Global,
    exports: &[Export],
    processes: usize,
    number: usize,
    first: &[u8],
    behind: &[&[u8]],
) -> Result<ScriptCall, ScriptFault>
    ensures call { IfOk result (λ call. Makes (map signature_of exports.now) processes (first.now ∷ map (λ w. w.now) behind.now) (script_call_of call)) }
    ensures fault { IfErr result (λ e. HasFault (map signature_of exports.now) processes (first.now ∷ map (λ w. w.now) behind.now) number e) }
{
    let Some(process) = read_process(first) else {
        return Err(ScriptFault::Form(number));
    };
    let Some((name, rest)) = behind.split_first() else {
        return Err(ScriptFault::Form(number));
    };
    if !is_name(name) {
        return Err(ScriptFault::Form(number));
    }
    if process >= processes {
        return Err(ScriptFault::Process(number));
    }
    let Some((proc, export)) = export_named(exports, name) else {
        return Err(ScriptFault::Procedure(number));
    };
    let Some(args) = read_arguments(alloc, &export.formals, rest)? else {
        return Err(ScriptFault::Arguments(number));
    };
    Ok(ScriptCall {
        process,
        proc,
        args,
    })
}

/// The arguments that words say for parameters; `None` where they don't fit. Where no parameter takes a value and there is no
/// word, nothing is read.
#[inline]
#[tactic(auto, using(crate::proofs::NothingSaid::nothing_said))]
fn read_arguments(
    alloc: Global,
    formals: &[Formal],
    words: &[&[u8]],
) -> Result<Option<SmallVec<Scalar, 2>>, AllocError>
    ensures { IfOk result (FindsAs (λ values. values.items) (AreValues (types_of false formals.now) (map (λ w. w.now) words.now))) }
{
    if words.is_empty() && take_no_value(formals) {
        return Ok(Some(SmallVec::new(alloc)));
    }
    let Some(args) = read_values(alloc, formals, false, words)? else {
        return Ok(None);
    };
    Ok(Some(SmallVec::from_slice(alloc, &args)?))
}

/// Whether parameters take no value: each is a VAR parameter.
fn take_no_value(formals: &[Formal]) -> bool
    ensures { result ≡ true → types_of false formals.now ≡ [] }
{
    formals.iter().all(|formal| formal.is_var)
}

/// Whether a first word says that its line is a comment.
fn begins_comment(word: &[u8]) -> bool
    ensures { IsTrue result ↔ ((rest : List ℕ) × (word.now ≡ 35 ∷ rest)) }
{
    word.first() == Some(&b'#')
}
