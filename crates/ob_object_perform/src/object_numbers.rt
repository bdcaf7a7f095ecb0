//! The numbers of an object.

ghost use Rattle.std.specs.Prelude.{◌≡◌, ◌*◌, ◌^◌, ◌<◌, ◌≤◌, suc};
ghost use Rattle.ob_meaning.specs.ByNameObject.{most_turns};
ghost use Rattle.ob_object_perform.specs.Numbers.{numbers_of, sizes_in};
ghost use Rattle.ob_object_compile.specs.Compilation.{most_instructions};
ghost use Rattle.ob_object_compile.specs.View.{object_in};
ghost use Rattle.wf_table.specs.Bound.{bound};
ghost use Rattle.wf_table.specs.Ranges.{IsSized};
ghost use Rattle.wf_table.specs.StepTable.{block_words};

use ob_interface::MOST_PROCESSES;
use ob_object_compile::Object;
use wf_object::Engine;
use wf_table::Sizes;

/// How many words an object has of each sort, and how many own steps a call takes at most.
#[derive(Clone, Copy)]
pub struct Numbers {
    /// Words of the module's variables.
    pub variables: usize,
    /// Words of a reply: the most VAR parameters of an export.
    pub results: usize,
    /// Words of an announced call: its export, and the most value parameters of one.
    pub arguments: usize,
    /// Words of a block: the variables, and for each process the reply to its last call.
    pub block: usize,
    /// Instructions of the code.
    pub code: usize,
    /// Words of the stack of a body.
    pub stack: usize,
    /// The most own steps of a call outside bodies.
    pub outside: u128,
    /// The most own steps of a call in all.
    pub steps: u128,
}

/// The numbers of an object.
pub fn numbers_of(object: &Object) -> Numbers
    requires some { 0 < (object_in object.now).processes }
    requires few { (object_in object.now).processes ≤ MOST_PROCESSES }
    ensures { result ≡ numbers_of (object_in object.now) }
{
    let sizes = sizes_of(object);
    let code = object.engine().code().instructions().len();
    let outside = steps_outside(sizes);
    Numbers {
        variables: sizes.variables,
        results: sizes.replies,
        arguments: sizes.arguments,
        block: words_of_block(sizes),
        code,
        stack: object.layout().stack_words(),
        outside,
        steps: outside + steps_inside(sizes.processes, object.engine().budget(), code),
    }
}

/// The numbers of words that the machine of the object works with.
fn sizes_of(object: &Object) -> Sizes
    requires some { 0 < (object_in object.now).processes }
    requires few { (object_in object.now).processes ≤ MOST_PROCESSES }
    ensures sizes { result ≡ sizes_in (object_in object.now) }
    ensures sized { IsSized result }
{
    let engine = object.engine();
    Sizes {
        processes: object.processes(),
        variables: engine.variable_words(),
        replies: engine.reply_words(),
        arguments: engine.announce_words(),
    }
}

/// The words of a block.
fn words_of_block(sizes: Sizes) -> usize
    requires { IsSized sizes }
    ensures { result ≡ block_words sizes }
{
    sizes.variables + sizes.processes * (sizes.replies + 2)
}

/// The most own steps of a call outside bodies.
fn steps_outside(sizes: Sizes) -> u128
    requires { IsSized sizes }
    ensures bound { result ≡ bound sizes }
    ensures few { result < 2 ^ 70 }
{
    let processes = sizes.processes as u128;
    let variables = sizes.variables as u128;
    let replies = sizes.replies as u128;
    let arguments = sizes.arguments as u128;
    let block = variables + processes * (replies + 2);
    let served = processes * (arguments + 2 * variables + replies + 10);
    2 * (2 * block + served + 10) + arguments + replies + 20
}

/// The most own steps of a call in bodies: in two for each process, what a budget of turns pays for over a code of so many instructions.
fn steps_inside(processes: usize, budget: u64, instructions: usize) -> u128
    requires few { processes ≤ MOST_PROCESSES }
    requires budget { budget ≤ most_turns }
    requires short { instructions ≤ most_instructions }
    ensures steps { result ≡ 2 * processes * (suc budget * instructions) }
    ensures few { result < 2 ^ 70 }
{
    let body = (budget as u128 + 1) * instructions as u128;
    2 * processes as u128 * body
}
