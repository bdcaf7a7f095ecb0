//! A module that is well typed.

ghost use Rattle.std.specs.Prelude.{◌≡◌, map};
ghost use Rattle.std.proofs.Props.{props};
ghost use Rattle.ob_grammar.specs.View.{module_of};
ghost use Rattle.ob_interface.specs.View.{signature_of};
ghost use Rattle.ob_typing.specs.Declarations.{WellTyped};
ghost use Rattle.ob_checked.specs.Exports.{signatures};
ghost use Rattle.ob_checked.specs.View.{program_of};

use crate::program::Program;
use ob_grammar::module::Module;
use ob_grammar::tree::ModuleTree;
use ob_interface::export::Export;

/// A module that is well typed, with its tree unchanged, the program that it is well typed as, and what callers know of its
/// exports.
pub struct Checked {
    module: Module,
    program: Program,
    exports: Vec<Export>,
    ghost listed: { map signature_of exports.items ≡ signatures (program_of program) } by { Prim.hlevel props },
    ghost typed: { ∥ WellTyped (module_of «module») (program_of program) ∥₁ },
}

/// Written here, so that it is proved here once, and not in each crate that lets one go.
impl Drop for Checked {
    fn drop(self) {
        let Checked {
            module: _,
            program: _,
            exports: _,
        } = self;
    }
}

impl Checked {
    ghost use Rattle.std.specs.Prelude.{◌≡◌, map};
    ghost use Rattle.ob_grammar.specs.EndNamesAndNesting.{KeepsConditions};
    ghost use Rattle.ob_grammar.specs.View.{module_of};
    ghost use Rattle.ob_interface.specs.View.{signature_of};
    ghost use Rattle.ob_typing.specs.Declarations.{WellTyped};
    ghost use Rattle.ob_typing.specs.Limits.{KeepsLimits};
    ghost use Rattle.ob_checked.specs.View.{program_of};
    ghost use Rattle.ob_checked.specs.CheckedModule.{tree_in, program_in};
    ghost use Rattle.ob_checked.specs.Exports.{signatures};

    /// A module with the program that it is well typed as, and the exports of that.
    pub fn new(module: Module, program: Program, exports: Vec<Export>) -> Checked
        requires typed { WellTyped (module_of «module») (program_of program) }
        requires listed { map signature_of exports.items ≡ signatures (program_of program) }
        ensures tree { tree_in result ≡ module_of «module» }
        ensures program { program_in result ≡ program_of program }
    {
        Checked {
            module,
            program,
            exports,
        }
    }

    /// The module that was checked.
    pub fn module(&self) -> &Module
        ensures { module_of result.now ≡ tree_in self.now }
    {
        &self.module
    }

    /// The module alone, for another check.
    pub fn into_module(self) -> Module
        ensures { module_of result ≡ tree_in self }
    {
        let Checked {
            module,
            program: _,
            exports: _,
        } = self;
        module
    }

    /// Its tree, in which nothing stands too deep.
    pub fn tree(&self) -> &ModuleTree
        ensures tree { module_of result.now ≡ tree_in self.now }
        ensures keeps { KeepsConditions (tree_in self.now) }
    {
        self.module.tree()
    }

    /// The program that the module is well typed as.
    pub fn program(&self) -> &Program
        ensures program { program_of result.now ≡ program_in self.now }
        ensures typed { ∥ WellTyped (tree_in self.now) (program_in self.now) ∥₁ }
    {
        &self.program
    }

    /// The exports of the program in text order, numbered from 0, each with the modes and types of its parameters. No parameter
    /// of an export is structured, as the limits say.
    pub fn exports(&self) -> &[Export]
        ensures { map signature_of result.now ≡ signatures (program_in self.now) }
    {
        &self.exports
    }

    /// The program keeps the limits on parameters, frames, the module's variables and exports.
    pub fn keeps_limits(&self)
        ensures { KeepsLimits (program_in self.now) }
    {
        ob_typing::laws::well_typed_keeps_limits();
        let _typed = &self.program;
    }
}
