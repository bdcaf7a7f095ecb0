//! The compilation of a module's text.

ghost use Rattle.std.specs.Prelude.{◌≡◌, ◌≤◌, Err, IfOk, IfErr, OnOk};
ghost use Rattle.ob_carry.specs.View.{entries_of};
ghost use Rattle.ob_checked.specs.CheckedModule.{program_in};
ghost use Rattle.ob_code_correct.specs.Compiled as Compiled;
ghost use Rattle.ob_layout.specs.Layout.{layout_of, parts_of};
ghost use Rattle.ob_grammar.specs.Texts.{IsTextOf};
ghost use Rattle.ob_grammar.specs.Tree as Tree;
ghost use Rattle.ob_meaning.specs.ByNameObject.{most_turns};
ghost use Rattle.ob_object_compile.specs.Asked.{TellsAtOnce, by_body, by_values, is_carried};
ghost use Rattle.ob_object_compile.specs.Compilation.{IsCompilation, IsRefusal, IsShort, default_budget};
ghost use Rattle.ob_object_compile.specs.CompilationParts.{BeginsByPosition, IsBeginningFault, IsEngineFault};
ghost use Rattle.ob_object_compile.specs.View.{asked_of, beginning_of, object_in};
ghost use Rattle.ob_store.specs.View.{state_of};
ghost use Rattle.ob_typing.specs.ModuleText.{IsModule};
ghost use Rattle.ob_typing.specs.Program.{Program};

use crate::asked_object::{Asked, Beginning};
use crate::object::Object;
use ob_carry::carrying::{CarryFault, carry};
use ob_carry::fields_by_name::NamedField;
use ob_check::module_text::{TextFault, checked_text};
use ob_checked::checked::Checked;
use ob_code::generate;
use ob_code_engine::CodeEngine;
use ob_code_machine::CodeFault;
use ob_interface::{MOST_PROCESSES, NoMemory};
use ob_layout::Layout;
use ob_mean::openings::{MOST_TURNS, OpenFault, opening};
use ob_store::state::State;
use std::alloc::Global;
use thiserror::Error;

/// The most turns that a call's budget may have.
pub const MOST_BUDGET: u64 = MOST_TURNS;

/// The turns of a call where no budget is told.
pub const DEFAULT_BUDGET: u64 = 100_000;

/// The code's numbers of turns are those of the definitions.
pub fn budgets()
    ensures most { MOST_BUDGET ≡ most_turns }
    ensures told { DEFAULT_BUDGET ≡ default_budget }
{}

/// Why a text has no object: the first fault, in the order of the variants.
#[derive(Clone, Copy, Debug, Error)]
pub enum CompileFault {
    /// N1: the number of processes is not 1 to 16.
    #[error("N1")]
    Processes,
    /// N3: the budget has more turns than there may be.
    #[error("N3")]
    Budget,
    /// The text is no module.
    #[error("{0}")]
    Text(TextFault),
    /// G1: the code has over 65,535 instructions.
    #[error("G1")]
    TooLong,
    /// O2: the module has no opening state.
    #[error("{0}")]
    Open(OpenFault),
    /// M1 or M2: values that are carried over are none of the module's variables.
    #[error("{0}")]
    Carry(CarryFault),
    /// Want of memory.
    #[error("NoMemory")]
    NoMemory,
}

impl From<TextFault> for CompileFault {
    ghost use Rattle.std.specs.Prelude.{◌≡◌};
    ghost use Rattle.ob_object_compile.specs.CompilationParts.{of_text};

    ghost from_gives = { λ e f. f ≡ of_text e };

    fn from(fault: TextFault) -> CompileFault {
        match fault {
            TextFault::NoMemory => CompileFault::NoMemory,
            other => CompileFault::Text(other),
        }
    }
}

impl From<CodeFault> for CompileFault {
    ghost use Rattle.std.specs.Prelude.{◌≡◌};
    ghost use Rattle.ob_object_compile.specs.CompilationParts.{of_code};

    ghost from_gives = { λ e f. f ≡ of_code e };

    fn from(fault: CodeFault) -> CompileFault {
        match fault {
            CodeFault::TooLong => CompileFault::TooLong,
            CodeFault::NoMemory => CompileFault::NoMemory,
        }
    }
}

impl From<OpenFault> for CompileFault {
    ghost use Rattle.std.specs.Prelude.{◌≡◌};
    ghost use Rattle.ob_object_compile.specs.CompilationParts.{of_open};

    ghost from_gives = { λ e f. f ≡ of_open e };

    fn from(fault: OpenFault) -> CompileFault {
        match fault {
            OpenFault::NoMemory => CompileFault::NoMemory,
            other => CompileFault::Open(other),
        }
    }
}

impl From<CarryFault> for CompileFault {
    ghost use Rattle.std.specs.Prelude.{◌≡◌};
    ghost use Rattle.ob_object_compile.specs.CompilationParts.{of_carry};

    ghost from_gives = { λ e f. f ≡ of_carry e };

    fn from(fault: CarryFault) -> CompileFault {
        match fault {
            CarryFault::NoMemory => CompileFault::NoMemory,
            other => CompileFault::Carry(other),
        }
    }
}

impl From<NoMemory> for CompileFault {
    ghost use Rattle.std.specs.Prelude.{◌≡◌};
    ghost use Rattle.ob_object_compile.specs.declared.compiling.CompileFault.TheVariants as Faults;

    ghost from_gives = { λ _ f. f ≡ Faults.NoMemory };

    fn from(_: NoMemory) -> CompileFault {
        CompileFault::NoMemory
    }
}

/// The object of a module's text for n processes, whose calls have so many turns each. It begins by the module's body. The code
/// comes before the opening: so G1 is told before a fault of the opening.
pub fn compile(alloc: Global, text: &[u8], n: usize, budget: u64) -> Result<Object, CompileFault>
    ensures object { IfOk result (λ o. IsCompilation (by_body text.now n budget) (object_in o)) }

    // Each text has one program and one tree.
    ensures alone { IfOk result (λ o. (other : Program) → IsModule text.now other → other ≡ (object_in o).program) }
    ensures one_tree { IfOk result (λ o. (other : Tree.Module) → IsTextOf text.now other → other ≡ (object_in o).tree) }
    ensures refused { IfErr result (IsRefusal IsShort (by_body text.now n budget)) }
    ensures at_once { TellsAtOnce (by_body text.now n budget) (λ e. result ≡ Err e) }
{
    compile_asked(
        alloc,
        Asked {
            text,
            processes: n,
            budget,
            beginning: Beginning::Body,
        },
    )
}

/// The same of an object that begins with values by the names of its variables, and runs no body. Where they are none of its
/// variables' M1 or M2 is told, where a fault of the opening would be.
pub fn compile_from(
    alloc: Global,
    text: &[u8],
    n: usize,
    budget: u64,
    values: &[NamedField],
) -> Result<Object, CompileFault>
    ensures object { IfOk result (λ o. IsCompilation (by_values text.now n budget (entries_of values.now)) (object_in o)) }
    ensures alone { IfOk result (λ o. (other : Program) → IsModule text.now other → other ≡ (object_in o).program) }
    ensures one_tree { IfOk result (λ o. (other : Tree.Module) → IsTextOf text.now other → other ≡ (object_in o).tree) }
    ensures refused { IfErr result (IsRefusal IsShort (by_values text.now n budget (entries_of values.now))) }
    ensures at_once { TellsAtOnce (by_values text.now n budget (entries_of values.now)) (λ e. result ≡ Err e) }
{
    compile_asked(
        alloc,
        Asked {
            text,
            processes: n,
            budget,
            beginning: Beginning::Carried(values),
        },
    )
}

/// The object that is asked for.
pub fn compile_asked(alloc: Global, asked: Asked<'_>) -> Result<Object, CompileFault>
    ensures object { IfOk result (λ o. IsCompilation (asked_of asked.entry) (object_in o)) }
    ensures alone { IfOk result (λ o. (other : Program) → IsModule asked.entry.text.now other → other ≡ (object_in o).program) }
    ensures one_tree { IfOk result (λ o. (other : Tree.Module) → IsTextOf asked.entry.text.now other → other ≡ (object_in o).tree) }
    ensures refused { IfErr result (IsRefusal IsShort (asked_of asked.entry)) }
    ensures at_once { TellsAtOnce (asked_of asked.entry) (λ e. result ≡ Err e) }
{
    let Asked {
        text,
        processes,
        budget,
        beginning,
    } = asked;
    if processes == 0 || processes > MOST_PROCESSES {
        return Err(CompileFault::Processes);
    }
    if budget > MOST_BUDGET {
        return Err(CompileFault::Budget);
    }
    let checked = checked_text(alloc, text)?;
    let (layout, engine) = engine_of(alloc, &checked, budget)?;
    let opening = opening_of(alloc, &checked, beginning)?;
    let carried = is_carried(beginning);
    Ok(Object::of(processes, checked, layout, engine, opening, carried))
}

/// The layout of a checked module, and the engine over its code.
fn engine_of(
    alloc: Global,
    checked: &Checked,
    budget: u64,
) -> Result<(Layout, CodeEngine), CompileFault>
    requires { budget ≤ most_turns }
    ensures layout { IfOk result (λ r. parts_of r.0 ≡ layout_of (program_in checked.now)) }
    ensures engine { IfOk result (λ r. r.1.parts ≡ Compiled.parts_of (program_in checked.now) budget) }
    ensures short { OnOk result (IsShort (program_in checked.now)) }
    ensures fault { IfErr result (IsEngineFault (program_in checked.now)) }
{
    let layout = Layout::of(alloc, checked)?;
    let code = generate(alloc, checked, &layout)?;
    let engine = CodeEngine::new(alloc, checked, &layout, code, budget)?;
    Ok((layout, engine))
}

/// The state in which an object of a checked module begins.
pub(crate) fn opening_of(
    alloc: Global,
    checked: &Checked,
    beginning: Beginning<'_>,
) -> Result<State, CompileFault>
    ensures state { IfOk result (λ s. BeginsByPosition (beginning_of beginning.entry) (program_in checked.now) (state_of s)) }
    ensures fault { IfErr result (IsBeginningFault (beginning_of beginning.entry) (program_in checked.now)) }
{
    match beginning {
        Beginning::Body => Ok(opening(alloc, checked)?),
        Beginning::Carried(values) => Ok(carry(alloc, checked, values)?),
    }
}

/// Whether values are carried over.
pub(crate) fn is_carried(beginning: Beginning<'_>) -> bool
    ensures { result ≡ is_carried (beginning_of beginning.entry) }
{
    match beginning {
        Beginning::Body => false,
        Beginning::Carried(_) => true,
    }
}
