//! What is asked of a state, by an export of the module.

ghost use Rattle.std.specs.Prelude.{◌≡◌, ◌↔◌, ◌∷◌, [], ℕ, true, IsTrue, MatchOption, IfOk, map};
ghost use Rattle.ob_interface.specs.declared.scalar.ScalarType.TheVariants.{Boolean};
ghost use Rattle.ob_interface.specs.View.{signature_of};
ghost use Rattle.ob_object_outcomes.specs.Questions.{IsQuestion, question_call, yes};
ghost use Rattle.wf_history.specs.View.{kept_call, kept_reply};

use ob_interface::NoMemory;
use ob_interface::export::{Export, Formal};
use ob_interface::scalar::{Scalar, ScalarType};
use ob_text_words::export_names::export_named;
use std::alloc::Global;
use wf_history::{KeptCall, KeptReply, KeptScalars};

/// The number of the export of a name, if it has no value parameter and one VAR parameter, a BOOLEAN.
pub(crate) fn question_named(exports: &[Export], name: &[u8]) -> Option<usize>
    ensures { MatchOption result ((number : ℕ) → ¬ IsQuestion (map signature_of exports.now) name.now number) (IsQuestion (map signature_of exports.now) name.now) }
{
    let Some((number, export)) = export_named(exports, name) else {
        return None;
    };
    if is_one_truth(&export.formals) {
        return Some(number);
    }
    None
}

/// Whether these are the parameters of a question.
fn is_one_truth(formals: &[Formal]) -> bool
    ensures { IsTrue result ↔ (formals.now ≡ record { is_var = true; scalar_type = Boolean } ∷ []) }
{
    match formals {
        [formal] => formal.is_var && formal.scalar_type == ScalarType::Boolean,
        _ => false,
    }
}

/// The call of a question.
pub(crate) fn call_of(alloc: Global, number: usize) -> Result<KeptCall, NoMemory>
    ensures { IfOk result (λ call. kept_call call ≡ question_call number) }
{
    Ok(KeptCall {
        proc: number,
        args: KeptScalars::from_slice(alloc, &[])?,
    })
}

/// The reply of a question that the state passes.
pub(crate) fn passed(alloc: Global) -> Result<KeptReply, NoMemory>
    ensures { IfOk result (λ reply. kept_reply reply ≡ yes) }
{
    Ok(KeptReply::Done(KeptScalars::from_slice(alloc, &[Scalar::Bool(true)])?))
}
