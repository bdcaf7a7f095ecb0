//! What holds of the rules, as functions that do nothing: their contracts are the laws.

ghost use Rattle.std.specs.Prelude.{◌≡◌, ◌⊎◌};
ghost use Rattle.ob_grammar.specs.Tree.{Module};
ghost use Rattle.ob_grammar.specs.Texts.{HasText};
ghost use Rattle.ob_typing.specs.declared.rule.BrokenRule.{BrokenRule};
ghost use Rattle.ob_typing.specs.Program.{Program};
ghost use Rattle.ob_typing.specs.Declarations.{WellTyped};
ghost use Rattle.ob_typing.specs.DeclarationFaults.{Breaks};
ghost use Rattle.ob_typing.specs.Limits.{KeepsLimits};

/// A module is well typed as one program at most.
#[tactic(auto, using(crate::proofs::OneVerdict::one_program))]
pub fn one_program()
    ensures { (m : Module) (p q : Program) → WellTyped m p → WellTyped m q → p ≡ q }
{}

/// A well typed module breaks no rule.
#[tactic(auto, using(crate::proofs::OneVerdict::no_fault))]
pub fn well_typed_breaks_no_rule()
    ensures { (m : Module) (p : Program) (fault : BrokenRule) → WellTyped m p → Breaks m fault → ⊥ }
{}

/// A module breaks one rule first, at one place.
#[tactic(auto, using(crate::proofs::OneVerdict::first_rule))]
pub fn one_fault()
    ensures { (m : Module) (f g : BrokenRule) → Breaks m f → Breaks m g → f ≡ g }
{}

/// The program of a well typed module keeps the limits on parameters, frames, the module's variables and exports.
#[tactic(auto, using(crate::proofs::Within::keeps_limits))]
pub fn well_typed_keeps_limits()
    ensures { (m : Module) (program : Program) → WellTyped m program → KeepsLimits program }
{}

/// The module of a text is well typed, or breaks a rule.
pub fn one_or_other()
    ensures { (m : Module) → HasText m → ((p : Program) × WellTyped m p) ⊎ ((fault : BrokenRule) × Breaks m fault) }
{}
