//! Which words a step touches, of those that processes share.

ghost use Rattle.std.specs.Prelude.{ℕ};
ghost use Rattle.wf_table.specs.declared.process.Sizes.{Sizes};
ghost use Rattle.wf_table.specs.StepTable.{Process};
ghost use Rattle.wf_theorems.specs.Touches.{EveryStepTouchesOneWord, StepTouchesOneWord};

use wf_object::engine::Engine;

/// Each step reads or writes at most the one shared word that the line of its label tells, apart from reading words that its process
/// alone writes: it does the same to cells that differ in other words, and leaves all other words as they are. So it is in a body too, in
/// each state of a run.
pub fn each_step_touches_one_word<E: Engine>()
    ensures rows { (e : E) (z : Sizes) (p : ℕ) (q : Process E.Run) → StepTouchesOneWord (E.meaning e) z p q }
    ensures runs { (e : E) → EveryStepTouchesOneWord (E.meaning e) (E.lawful e) (E.fits e) (E.ready e) }
{}
