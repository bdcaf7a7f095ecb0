//! What holds of layouts, as functions that do nothing: their contracts are the laws.

ghost use Rattle.std.specs.Prelude.{◌≡◌};
ghost use Rattle.ob_typing.specs.Program.{Program};
ghost use Rattle.ob_code_scheme.specs.Temporaries.{stack_words};
ghost use Rattle.ob_code_scheme.specs.WellFormed.{IsWellFormed};
ghost use Rattle.ob_code_scheme.specs.Memory.{DecodesEncoded, EncodesDecoded, PlacesApart};
ghost use Rattle.ob_layout.specs.Layout.{layout_of};
ghost use Rattle.ob_layout.specs.Places.{WordsHoldScalars};

/// A state is read back from its words.
pub fn states_are_read_back()
    ensures { DecodesEncoded }
{}

/// What is read from words is a state, and the words are its own.
pub fn words_are_of_one_state()
    ensures { EncodesDecoded }
{}

/// The words of a state have at the word of a scalar's place its value, TRUE as 1 and FALSE as 0.
pub fn words_hold_scalars()
    ensures { WordsHoldScalars }
{}

/// Places of the module of which neither is a part of the other have no word in common: each has as many as its type, from its own on.
pub fn places_are_apart()
    ensures { PlacesApart }
{}

/// Within the limits of the language the words of a stack are counted to their end.
#[tactic(auto, using(crate::proofs::Stacks::stacks_are_counted))]
pub fn stacks_are_counted()
    ensures { (program : Program) → IsWellFormed program → (layout_of program).stack_words ≡ stack_words program.procedures }
{}
