//! Laws of checked programs. What a function here ensures is proved; it does nothing.

ghost use Rattle.std.specs.Prelude.{List, ℕ};
ghost use Rattle.ob_checked.specs.CheckedModule.{program_in};
ghost use Rattle.ob_grammar.specs.EndNamesAndNesting.{KeepsConditions};
ghost use Rattle.ob_grammar.specs.Texts.{HasText};
ghost use Rattle.ob_grammar.specs.Tree.{Module};
ghost use Rattle.ob_typing.specs.Declarations.{WellTyped};
ghost use Rattle.ob_typing.specs.ModuleText.{IsModule};
ghost use Rattle.ob_typing.specs.Program.{Program};
ghost use Rattle.ob_code_scheme.specs.WellFormed.{IsWellFormed};

use ob_checked::checked::Checked;

/// The program of a well typed module is well formed, where the module has a text and keeps the conditions beside the grammar.
pub fn well_typed_is_well_formed()
    ensures { (m : Module) (program : Program) → HasText m → KeepsConditions m → WellTyped m program → IsWellFormed program }
{}

/// So is the program that a text stands for.
pub fn modules_are_well_formed()
    ensures { (text : List ℕ) (program : Program) → IsModule text program → IsWellFormed program }
{}

/// So is the program of a checked module.
pub fn checked_is_well_formed(checked: &Checked)
    ensures { ∥ IsWellFormed (program_in checked.now) ∥₁ }
{
    well_typed_is_well_formed();
    let _typed = checked.program();
    let _tree = checked.module().tree();
}
