//! The compilation of a module's text without code.

ghost use Rattle.std.specs.Prelude.{◌≡◌, Err, IfOk, IfErr};
ghost use Rattle.ob_grammar.specs.Texts.{IsTextOf};
ghost use Rattle.ob_grammar.specs.Tree as Tree;
ghost use Rattle.ob_object_compile.specs.Asked.{TellsAtOnce};
ghost use Rattle.ob_object_compile.specs.Compilation.{IsAny, IsObjectOf, IsRefusal};
ghost use Rattle.ob_object_compile.specs.View.{asked_of, tree_object_in};
ghost use Rattle.ob_typing.specs.ModuleText.{IsModule};
ghost use Rattle.ob_typing.specs.Program.{Program};

use crate::asked_object::Asked;
use crate::compiling::{CompileFault, MOST_BUDGET, is_carried, opening_of};
use crate::tree_object::TreeObject;
use ob_check::module_text::checked_text;
use ob_interface::MOST_PROCESSES;
use ob_layout::Layout;
use std::alloc::Global;

/// The object that is asked for over the module's tree, as `compile_asked` gives it over code. No code is made, so it may have any
/// length, and there is no G1.
pub fn compile_tree(alloc: Global, asked: Asked<'_>) -> Result<TreeObject, CompileFault>
    ensures object { IfOk result (λ o. IsObjectOf IsAny (asked_of asked.entry) (tree_object_in o)) }

    // Each text has one program and one tree.
    ensures alone { IfOk result (λ o. (other : Program) → IsModule asked.entry.text.now other → other ≡ (tree_object_in o).program) }
    ensures one_tree { IfOk result (λ o. (other : Tree.Module) → IsTextOf asked.entry.text.now other → other ≡ (tree_object_in o).tree) }
    ensures refused { IfErr result (IsRefusal IsAny (asked_of asked.entry)) }
    ensures at_once { TellsAtOnce (asked_of asked.entry) (λ e. result ≡ Err e) }
{
    let Asked {
        text,
        processes,
        budget,
        beginning,
    } = asked;
    if processes == 0 || processes > MOST_PROCESSES {
        return Err(CompileFault::Processes);
    }
    if budget > MOST_BUDGET {
        return Err(CompileFault::Budget);
    }
    let checked = checked_text(alloc, text)?;
    let layout = Layout::of(alloc, &checked)?;
    let opening = opening_of(alloc, &checked, beginning)?;
    let carried = is_carried(beginning);
    Ok(TreeObject::made_of(processes, checked, layout, budget, opening, carried))
}
