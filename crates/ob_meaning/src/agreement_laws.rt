//! What holds of the two meanings, as functions that do nothing: their contracts are the laws.

ghost use Rattle.std.specs.Prelude.{◌≡◌, map};
ghost use Rattle.ob_grammar.specs.Tree.{Module};
ghost use Rattle.ob_typing.specs.Declarations.{WellTyped};
ghost use Rattle.ob_typing.specs.Program.{Program, exports};
ghost use Rattle.ob_meaning.specs.Exported.{exports_of, seen};
ghost use Rattle.ob_meaning.specs.AgreementLaws.{SameCalls, SameOpenings, SameEffects};
ghost use Rattle.ob_meaning.specs.Resolved.{IsResolved};

/// A call in the text comes to the same by position as by name, and what variables have afterwards are values of
/// their types.
#[tactic(auto, using(crate::proofs::SameStatements::calls_same))]
pub fn calls_agree()
    ensures { (program : Program) → IsResolved program → SameCalls program }
{}

/// So does the opening.
pub fn openings_agree()
    ensures { (program : Program) → IsResolved program → SameOpenings program }
{}

/// The program of a well typed module is resolved.
pub fn well_typed_is_resolved()
    ensures { (m : Module) (program : Program) → WellTyped m program → IsResolved program }
{}

/// The exports of a well typed module's program are those of its text, in text order, with their parameters.
pub fn exports_are_those_of_the_text()
    ensures { (m : Module) (program : Program) → WellTyped m program → map seen (exports program) ≡ exports_of m }
{}

/// A call from outside that fits the exports comes to the same by position as by name: one state and one reply.
pub fn calls_from_outside_agree()
    ensures { (program : Program) → IsResolved program → SameEffects program }
{}
