//! What holds of the texts of values, as a function that does nothing: its contract is the law.

ghost use Rattle.ob_text_record.specs.Laws.{SameStatesHaveSameTexts};
ghost use Rattle.ob_typing.specs.Program.{Program};

/// The lines of a state by position are those of the same state by name.
#[tactic(auto, using(crate::proofs::SameTexts::same_state_text))]
pub fn texts_agree()
    ensures { (program : Program) → SameStatesHaveSameTexts program }
{}
