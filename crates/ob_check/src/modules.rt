//! A module, from its tree to its checked program.

ghost use Rattle.std.specs.Prelude.{◌≡◌, IfOk, IfErr};
ghost use Rattle.ob_typing.specs.Declarations.{WellTyped};
ghost use Rattle.ob_typing.specs.Program as Programs;
ghost use Rattle.ob_grammar.specs.View.{module_of};
ghost use Rattle.ob_checked.specs.CheckedModule.{tree_in, program_in};
ghost use Rattle.ob_check.specs.CheckingModules.{IsRefused};
ghost use Rattle.ob_typing.specs.Verdict.{Right};
ghost use Rattle.ob_typing.specs.ModuleVerdicts as Verdicts;
ghost use Rattle.ob_checked.specs.View.{program_of};
ghost use Rattle.ob_rules.specs.Checking.{Fails};

use crate::exports::exports_of;
use crate::procedures::declarations;
use ob_checked::checked::Checked;
use ob_checked::program::Program;
use ob_grammar::module::Module;
use ob_grammar::tree::ModuleTree;
use ob_rules::declarations::Room;
use ob_rules::statements::body;
use ob_scopes::fault::CheckFault;
use ob_scopes::scopes::Scopes;
use std::alloc::Global;

/// The most words of a module's variables.
const MODULE_WORDS: usize = 4096;

/// A module that is well typed, or the rule that it breaks first.
pub fn check(alloc: Global, module: Module) -> Result<Checked, CheckFault>
    ensures tree { IfOk result (λ c. tree_in c ≡ module_of «module») }
    ensures typed { IfOk result (λ c. WellTyped (module_of «module») (program_in c)) }
    ensures alone { IfOk result (λ c. (other : Programs.Program) → WellTyped (module_of «module») other → other ≡ program_in c) }
    ensures fault { IfErr result (λ f. IsRefused f (module_of «module»)) }
{
    let program = program(alloc, module.tree())?;
    let exports = exports_of(alloc, &program)?;
    Ok(Checked::new(module, program, exports))
}

/// The checked program of a module.
fn program(alloc: Global, tree: &ModuleTree) -> Result<Program, CheckFault>
    ensures typed { IfOk result (λ p. Verdicts.checked (module_of tree.now) ≡ Right (program_of p)) }
    ensures fault { IfErr result (λ f. Fails f (Verdicts.checked (module_of tree.now))) }
{
    let mut scopes = Scopes::new(alloc)?;
    let room = Room {
        names: 0,
        taken: 0,
        limit: MODULE_WORDS,
    };
    let declared = declarations(alloc, &mut scopes, &tree.declarations, 0, room)?;
    let body = body(alloc, &scopes, &tree.body)?;
    Ok(Program {
        types: scopes.into_types(),
        variables: declared.variables,
        procedures: declared.procedures,
        body,
    })
}
