//! The calls of a record, made by the module's code.

ghost use Rattle.std.specs.Prelude.{◌≡◌, IfOk, IfSome};
ghost use Rattle.ob_checked.specs.CheckedModule.{program_in};
ghost use Rattle.ob_code_scheme.specs.Types.{IsStateOf};
ghost use Rattle.ob_code_scheme.specs.WellFormed.{IsWellFormed};
ghost use Rattle.ob_code_calls.specs.Standing.{StandsAt};
ghost use Rattle.ob_interface.specs.View.{call_of};
ghost use Rattle.ob_store.specs.View.{state_of};
ghost use Rattle.wf_history.specs.View.{seen_call};

use ob_checked::checked::Checked;
use ob_code::generation::generate;
use ob_code_calls::{CodeCalls, CodedState};
use ob_code_machine::CodeFault;
use ob_interface::NoMemory;
use ob_interface::call::{Call, Reply};
use ob_layout::Layout;
use ob_object_run::CallMaker;
use ob_store::state::State;
use smallvec::SmallVec;
use std::alloc::{AllocError, Global};
use wf_history::SeenCall;

/// The most turns that code can give a call.
const MOST_TURNS: u64 = 1_000_000;

/// A module's code, in the state that the calls so far have led to.
#[derive(Drop)]
pub(crate) struct ByCode {
    coded: CodedState,
}

/// The code of a module in a state, each call with so many turns. There is none where there are too many instructions, or too many turns.
pub(crate) fn by_code(
    alloc: Global,
    checked: &Checked,
    opening: &State,
    budget: u64,
) -> Result<Option<ByCode>, NoMemory>
    requires well { IsWellFormed (program_in checked.now) }
    requires typed { IsStateOf (program_in checked.now).variables (state_of opening.now) }
    ensures { IfOk result (λ o. IfSome o (λ b. StandsAt (program_in checked.now) budget (state_of opening.now) b.coded)) }
{
    if budget > MOST_TURNS {
        return Ok(None);
    }
    let layout = Layout::of(alloc, checked)?;
    let code = match generate(alloc, checked, &layout) {
        Ok(code) => code,
        Err(CodeFault::TooLong) => return Ok(None),
        Err(CodeFault::NoMemory) => return Err(NoMemory),
    };
    let calls = CodeCalls::new(alloc, checked, &layout, code, budget)?;
    let coded = CodedState::begin(alloc, calls, opening)?;
    Ok(Some(ByCode { coded }))
}

/// The call of a history, to be made.
fn call_in(alloc: Global, call: SeenCall) -> Result<Call, AllocError>
    ensures { IfOk result (λ c. call_of c ≡ seen_call call.entry) }
{
    Ok(Call {
        proc: call.proc,
        args: SmallVec::from_slice(alloc, call.args.lent().as_slice())?,
    })
}

impl CallMaker for ByCode {
    ghost use Rattle.ob_code_correct.specs.Compiled.{Fits};
    ghost use Rattle.ob_object_calls.specs.ByCode.{IsAt};

    ghost takes = { Fits };

    ghost stands = { IsAt };

    fn make(&mut self, alloc: Global, call: SeenCall) -> Result<Reply, NoMemory> {
        let asked = call_in(alloc, call)?;
        Ok(self.coded.call(&asked))
    }
}
