//! What makes the calls of an order.

use ob_interface::NoMemory;
use ob_interface::call::Reply;
use std::alloc::Global;
use wf_history::SeenCall;

/// Makes calls on a module's object one at a time, each in the state that those before have led to.
pub trait CallMaker {
    ghost use Rattle.std.specs.Prelude.{ℕ, IfOk};
    ghost use Rattle.ob_interface.specs.Call.{ObjectCall};
    ghost use Rattle.ob_interface.specs.View.{reply_of};
    ghost use Rattle.ob_object_run.specs.InTurn.{IsMadeInTurn, Takeable};
    ghost use Rattle.ob_meaning.specs.ByPositionStore.{Activation};
    ghost use Rattle.ob_typing.specs.Program.{Program};
    ghost use Rattle.wf_history.specs.View.{seen_call};

    // The calls of a program that it takes.
    ghost takes: { Program → ObjectCall → Type 0 };

    // It makes this program's calls, each with so many turns, and stands in this state of its variables.
    ghost stands: { Program → ℕ → Activation → Self → Type 0 };

    /// Makes a call, and gives its reply.
    fn make(&mut self, alloc: Global, call: SeenCall) -> Result<Reply, NoMemory>
        requires { Takeable takes stands self.old (seen_call call) }
        ensures { (program : Program) (budget : ℕ) (before : Activation) → stands program budget before self.old
            → IfOk result (λ reply. IsMadeInTurn stands program budget (seen_call call.entry) before self.new (reply_of reply)) };
}
