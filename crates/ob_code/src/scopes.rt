//! Where the variables of a module and of one of its procedures lie.

use ob_checked::program::Owner;
use ob_layout::Layout;
use ob_layout::frames::Space;

/// The layout of a program, and the number of one of its procedures.
#[derive(Clone, Copy)]
pub struct Scopes<'l> {
    pub layout: &'l Layout,
    pub procedure: usize,
}

impl<'l> Scopes<'l> {
    ghost use Rattle.std.specs.Prelude.{◌≡◌};
    ghost use Rattle.ob_code_scheme.specs.Scheme as Scheme;
    ghost use Rattle.ob_code_scheme.specs.Types as Sizes;
    ghost use Rattle.ob_checked.specs.View.{owner_of};
    ghost use Rattle.ob_code.specs.Scoped.{own_in, scope_in, space_in};

    /// What lies at a position of the module's variables, or of the procedure's parameters and variables.
    pub fn variable(&self, owner: Owner, position: usize) -> Space
        ensures space { space_in self.now result ≡ Sizes.space_at (scope_in self.now (owner_of owner)) position }
        ensures word { result.word ≡ Sizes.word_in (scope_in self.now (owner_of owner)) position }
    {
        match owner {
            Owner::Module => self.layout.variable(position),
            Owner::Own => self.layout.own(self.procedure, position),
        }
    }

    /// How many instructions an own variable's address takes: one more where its word holds the address.
    pub fn own_size(&self, position: usize) -> usize
        ensures { result ≡ Scheme.own_size (Sizes.space_at (own_in self.now) position) }
    {
        let space = self.layout.own(self.procedure, position);
        if space.is_var { 2 } else { 1 }
    }
}
