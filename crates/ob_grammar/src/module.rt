//! A module that some text has.

use crate::tree::ModuleTree;
use std::marker::Model;

/// The tree of a module. Tokens with spellings derive it, the names behind END agree, and nothing in it stands too deep:
/// whoever makes one has to show that, as the parser does.
#[derive(Drop)]
pub struct Module {
    tree: ModuleTree,
}

impl Model for Module {
    ghost use Rattle.std.specs.Coded.{codes};
    ghost use Rattle.ob_grammar.specs.contracts.tree.Declarations as declarations;
    ghost use Rattle.ob_grammar.specs.contracts.tree.Stmt as statements;
    ghost use Rattle.ob_grammar.specs.declared.tree.ModuleTree.{ModuleTree};

    ghost Value = { ModuleTree };

    ghost coded = { Prim.hlevel (codes, declarations.the_row.coded, statements.the_row.coded) };

    ghost use Rattle.ob_grammar.specs.EndNamesAndNesting.{KeepsConditions};
    ghost use Rattle.ob_grammar.specs.Texts.{HasText};
    ghost use Rattle.ob_grammar.specs.View.{module_of};

    ghost view = { λ m. m.tree };

    ghost invariant = { λ m. HasText (module_of m.tree) × KeepsConditions (module_of m.tree) };
}

impl Module {
    ghost use Rattle.std.specs.Prelude.{◌≡◌};
    ghost use Rattle.ob_grammar.specs.EndNamesAndNesting.{KeepsConditions};
    ghost use Rattle.ob_grammar.specs.Texts.{HasText};
    ghost use Rattle.ob_grammar.specs.View.{module_of};

    /// A tree of which that is known.
    pub fn new(tree: ModuleTree) -> Module
        requires has_text { HasText (module_of tree) }
        requires keeps { KeepsConditions (module_of tree) }
        ensures { result ≡ tree }
    {
        Module { tree }
    }

    /// The tree, part by part.
    pub fn tree(&self) -> &ModuleTree
        ensures tree { result.now ≡ self.now }
        ensures has_text { HasText (module_of self.now) }
        ensures keeps { KeepsConditions (module_of self.now) }
    {
        &self.tree
    }

    /// The tree alone, which anyone may change.
    pub fn into_tree(self) -> ModuleTree
        ensures { result ≡ self }
    {
        self.tree
    }
}
