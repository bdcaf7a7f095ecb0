//! The object of a module's text over the module's tree: no code is made.

use ob_checked::checked::Checked;
use ob_layout::Layout;
use ob_store::state::State;

/// What a text was compiled to without code, for so many processes and with a budget of turns for each call: the checked module,
/// whose tree an engine runs, its layout, the state in which the object begins, and whether that was carried over.
#[derive(Drop)]
pub struct TreeObject {
    processes: usize,
    checked: Checked,
    layout: Layout,
    budget: u64,
    opening: State,
    carried: bool,
}

impl TreeObject {
    ghost use Rattle.std.specs.Prelude.{◌≡◌};
    ghost use Rattle.ob_checked.specs.CheckedModule.{program_in, tree_in};
    ghost use Rattle.ob_code_correct.specs.Compiled as Compiled;
    ghost use Rattle.ob_layout.specs.Layout.{parts_of};
    ghost use Rattle.ob_object_compile.specs.View.{tree_object_in};
    ghost use Rattle.ob_store.specs.View.{state_of};

    /// An object of these parts, for `compile_tree` alone.
    pub(crate) fn made_of(
        processes: usize,
        checked: Checked,
        layout: Layout,
        budget: u64,
        opening: State,
        carried: bool,
    ) -> TreeObject
        ensures processes { (tree_object_in result).processes ≡ processes }
        ensures tree { (tree_object_in result).tree ≡ tree_in checked }
        ensures program { (tree_object_in result).program ≡ program_in checked }
        ensures layout { (tree_object_in result).layout ≡ parts_of layout }
        ensures engine { (tree_object_in result).engine ≡ Compiled.parts_of (program_in checked) budget }
        ensures opening { (tree_object_in result).opening ≡ state_of opening }
        ensures carried { (tree_object_in result).carried ≡ carried }
    {
        TreeObject {
            processes,
            checked,
            layout,
            budget,
            opening,
            carried,
        }
    }

    /// How many processes share it.
    pub fn processes(&self) -> usize
        ensures { result ≡ (tree_object_in self.now).processes }
    {
        self.processes
    }

    /// The turns that each call has.
    pub fn budget(&self) -> u64
        ensures { result ≡ (tree_object_in self.now).engine.budget }
    {
        self.budget
    }

    /// The checked module, with the tree of the text.
    pub fn checked(&self) -> &Checked
        ensures program { program_in result.now ≡ (tree_object_in self.now).program }
        ensures tree { tree_in result.now ≡ (tree_object_in self.now).tree }
    {
        &self.checked
    }

    /// The words of its variables and procedures.
    pub fn layout(&self) -> &Layout
        ensures { parts_of result.now ≡ (tree_object_in self.now).layout }
    {
        &self.layout
    }

    /// The state in which it begins.
    pub fn opening(&self) -> &State
        ensures { state_of result.now ≡ (tree_object_in self.now).opening }
    {
        &self.opening
    }

    /// Whether that state was carried over, and no body ran.
    pub fn carried(&self) -> bool
        ensures { result ≡ (tree_object_in self.now).carried }
    {
        self.carried
    }
}
