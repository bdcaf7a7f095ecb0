//! The object of a module's text.

use ob_checked::checked::Checked;
use ob_code_engine::CodeEngine;
use ob_layout::Layout;
use ob_store::state::State;

/// What a text was compiled to, for so many processes and with a budget of turns for each call: the checked module, its layout,
/// the engine over its code, the state in which the object begins, and whether that was carried over.
#[derive(Drop)]
pub struct Object {
    processes: usize,
    checked: Checked,
    layout: Layout,
    engine: CodeEngine,
    opening: State,
    carried: bool,
}

impl Object {
    ghost use Rattle.std.specs.Prelude.{◌≡◌};
    ghost use Rattle.ob_checked.specs.CheckedModule.{program_in, tree_in};
    ghost use Rattle.ob_layout.specs.Layout.{parts_of};
    ghost use Rattle.ob_object_compile.specs.View.{object_in};
    ghost use Rattle.ob_store.specs.View.{state_of};

    /// An object of these parts, for `compile` alone.
    pub(crate) fn of(
        processes: usize,
        checked: Checked,
        layout: Layout,
        engine: CodeEngine,
        opening: State,
        carried: bool,
    ) -> Object
        ensures processes { (object_in result).processes ≡ processes }
        ensures tree { (object_in result).tree ≡ tree_in checked }
        ensures program { (object_in result).program ≡ program_in checked }
        ensures layout { (object_in result).layout ≡ parts_of layout }
        ensures engine { (object_in result).engine ≡ engine.parts }
        ensures opening { (object_in result).opening ≡ state_of opening }
        ensures carried { (object_in result).carried ≡ carried }
    {
        Object {
            processes,
            checked,
            layout,
            engine,
            opening,
            carried,
        }
    }

    /// How many processes share it.
    pub fn processes(&self) -> usize
        ensures { result ≡ (object_in self.now).processes }
    {
        self.processes
    }

    /// The turns that each call has.
    pub fn budget(&self) -> u64
        ensures { result ≡ (object_in self.now).engine.budget }
    {
        self.engine.budget()
    }

    /// The checked module, with the tree of the text.
    pub fn checked(&self) -> &Checked
        ensures program { program_in result.now ≡ (object_in self.now).program }
        ensures tree { tree_in result.now ≡ (object_in self.now).tree }
    {
        &self.checked
    }

    /// The words of its variables and procedures.
    pub fn layout(&self) -> &Layout
        ensures { parts_of result.now ≡ (object_in self.now).layout }
    {
        &self.layout
    }

    /// The engine over its code.
    pub fn engine(&self) -> &CodeEngine
        ensures { result.now.parts ≡ (object_in self.now).engine }
    {
        &self.engine
    }

    /// The state in which it begins.
    pub fn opening(&self) -> &State
        ensures { state_of result.now ≡ (object_in self.now).opening }
    {
        &self.opening
    }

    /// Whether that state was carried over, and no body ran.
    pub fn carried(&self) -> bool
        ensures { result ≡ (object_in self.now).carried }
    {
        self.carried
    }

    /// The number of processes, the checked module, the layout, the engine, the opening state, and whether that was carried over.
    pub fn into_parts(self) -> (usize, Checked, Layout, CodeEngine, State, bool)
        ensures processes { result.0 ≡ (object_in self).processes }
        ensures program { program_in result.1 ≡ (object_in self).program }
        ensures tree { tree_in result.1 ≡ (object_in self).tree }
        ensures layout { parts_of result.2 ≡ (object_in self).layout }
        ensures engine { result.3.parts ≡ (object_in self).engine }
        ensures opening { state_of result.4 ≡ (object_in self).opening }
        ensures carried { result.5 ≡ (object_in self).carried }
    {
        let Object {
            processes,
            checked,
            layout,
            engine,
            opening,
            carried,
        } = self;
        (processes, checked, layout, engine, opening, carried)
    }
}
