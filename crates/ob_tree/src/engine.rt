//! The engine over a program's tree.

ghost use Rattle.std.specs.Prelude.{◌≡◌, ◌≤◌, option_copied, slice_get};
ghost use Rattle.ob_checked.specs.CheckedModule.{program_in};
ghost use Rattle.ob_code_correct.specs.CodeMeaning.{most, result_count, value_count};
ghost use Rattle.ob_code_correct.specs.Compiled.{entrances_from};
ghost use Rattle.ob_layout.specs.Layout.{layout_of, parts_of};
ghost use Rattle.ob_code_scheme.specs.Temporaries as Temporaries;
ghost use Rattle.ob_code_scheme.specs.WellFormed.{IsWellFormed};
ghost use Rattle.ob_meaning.specs.ByNameObject.{most_turns};
ghost use Rattle.ob_tree_law.specs.TreeEngine.{work_room};

use crate::body_run::TreeRun;
use crate::reserve::room_for_work;
use ob_checked::checked::Checked;
use ob_code_correct::well_formed_laws::checked_is_well_formed;
use ob_code_engine::Entrance;
use ob_code_engine::call_words::{arguments_in, lay, split, trap_in, values_of};
use ob_code_engine::entrance::{entrances, most_results, most_values};
use ob_interface::NoMemory;
use ob_interface::call::{Call, Reply};
use ob_interface::scalar::Scalar;
use ob_layout::Layout;
use smallvec::SmallVec;
use std::alloc::Global;
use wf_object::{Engine, EngineTurn};

/// The tree of a checked module as an engine: a body is a call of an export, with a budget of turns, and a step does what one instruction
/// of the code does. It borrows the module and its layout.
#[derive(Drop)]
pub struct TreeEngine<'a> {
    alloc: Global,
    checked: &'a Checked,
    layout: &'a Layout,
    exports: Vec<Entrance>,
    stack_words: u32,
    /// The tasks that a work list has room for.
    tasks: usize,
    budget: u32,
    results: usize,
    values: usize,
    ghost laid: { ∥ parts_of layout.now ≡ layout_of (program_in checked.now) ∥₁ },
    ghost well: { ∥ IsWellFormed (program_in checked.now) ∥₁ },
    ghost listed: { ∥ exports.items ≡ entrances_from 0 (program_in checked.now).procedures ∥₁ },
    ghost stack: { stack_words ≡ Temporaries.stack_words (program_in checked.now).procedures },
    ghost room: { tasks ≡ work_room (program_in checked.now) },
    ghost most_results: { results ≡ most result_count exports.items },
    ghost most_values: { values ≡ most value_count exports.items },
    ghost few_turns: { budget ≤ most_turns },
}

/// The entrance of a number.
fn entrance_at(exports: &[Entrance], number: usize) -> Option<&Entrance>
    ensures { option_copied result ≡ slice_get exports.now number }
{
    exports.get(number)
}

impl<'a> TreeEngine<'a> {
    ghost use Rattle.std.specs.Prelude.{IfOk};
    ghost use Rattle.ob_code_correct.specs.CodeMeaning as Words;
    ghost use Rattle.ob_code_correct.specs.Compiled as Compiled;
    ghost use Rattle.ob_tree.specs.View.{tree_parts_in};

    /// The engine of a checked module, by its layout, with a budget of turns for each call.
    pub fn new(
        alloc: Global,
        checked: &'a Checked,
        layout: &'a Layout,
        budget: u64,
    ) -> Result<TreeEngine<'a>, NoMemory>
        requires layout { parts_of layout.now ≡ layout_of (program_in checked.now) }
        requires budget { budget ≤ most_turns }
        ensures { IfOk result (λ e. tree_parts_in e ≡ Compiled.parts_of (program_in checked.now) budget) }
    {
        checked_is_well_formed(checked);
        let tasks = room_for_work(checked);
        let exports = entrances(alloc, checked.program())?;
        Ok(TreeEngine {
            alloc,
            checked,
            layout,
            results: most_results(exports.as_slice()),
            values: most_values(exports.as_slice()),
            exports,
            stack_words: layout.stack_words() as u32,
            tasks,
            budget: budget as u32,
        })
    }

    /// The turns that each call has.
    pub fn budget(&self) -> u64
        ensures { result ≡ (tree_parts_in self.now).budget }
    {
        u64::from(self.budget)
    }

    /// The export of a number.
    fn export_at(&self, number: usize) -> Option<&Entrance>
        ensures { option_copied result ≡ slice_get (entrances_from 0 (program_in self.now.checked.now).procedures) number }
    {
        entrance_at(self.exports.as_slice(), number)
    }

    /// The export of the number that a word is.
    fn export(&self, word: i64) -> Option<&Entrance>
        ensures { option_copied result ≡ Words.entrance_at (entrances_from 0 (program_in self.now.checked.now).procedures) word }
    {
        if word < 0 {
            return None;
        }
        self.export_at(word as usize)
    }

    /// The values that words stand for as results of an export; none where there is no such export.
    fn results_of(&self, number: usize, words: &[i64]) -> SmallVec<Scalar, 8>
        ensures { result.items ≡ Words.values_of (Words.parameters_of (slice_get (entrances_from 0 (program_in self.now.checked.now).procedures) number)) words.now }
    {
        match self.export_at(number) {
            Some(export) => values_of(self.alloc, export.parameters(), words),
            None => SmallVec::new(self.alloc),
        }
    }
}

impl<'a> Engine for TreeEngine<'a> {
    ghost use Rattle.ob_code_correct.specs.Compiled.{Fits, parts_of as code_parts};
    ghost use Rattle.ob_code_correct.specs.Parts.{IsEffectOf, IsLawfulFor};
    ghost use Rattle.ob_tree_law.specs.TreeEngine.{IsTreeReady, tree_engine};
    ghost use Rattle.ob_tree_law.proofs.Whole.{tree_parts_lawful};

    type Run = TreeRun<'a>;

    ghost meaning = { λ e. tree_engine (program_in e.checked.now) e.budget };

    ghost lawful = { λ e. IsLawfulFor (code_parts (program_in e.checked.now) e.budget) };

    ghost fits = { λ e. Fits (program_in e.checked.now) };

    ghost ready = { λ e. IsTreeReady (program_in e.checked.now) };

    ghost effect = { λ e. IsEffectOf (code_parts (program_in e.checked.now) e.budget) };

    fn variable_words(&self) -> usize {
        self.layout.variable_words()
    }

    fn reply_words(&self) -> usize {
        self.results
    }

    fn announce_words(&self) -> usize {
        1 + self.values
    }

    fn new_run(&self, alloc: Global) -> Result<TreeRun<'a>, NoMemory> {
        let run = TreeRun::new(alloc, self.stack_words, self.tasks)?;
        Ok(run)
    }

    fn lay(&self, call: &Call, words: &mut [i64]) {
        // The exports stand in memory, so that their numbers are words.
        let _exports = &self.exports;
        lay(call.proc, call.args.as_slice(), words);
    }

    fn start(&self, run: &mut TreeRun<'a>, words: &[i64]) {
        let program = self.checked.program();
        let (number, rest) = split(words);
        match self.export(number) {
            Some(export) => {
                let arguments = arguments_in(self.alloc, export.parameters(), rest);
                run.start(
                    program,
                    self.layout,
                    export.procedure(),
                    arguments.as_slice(),
                    self.budget,
                );
            }
            None => run.clear(program),
        }
    }

    #[inline(always)]
    fn step(&self, run: &mut TreeRun<'a>, block: &mut [i64]) -> EngineTurn {
        run.step(self.checked.program(), self.layout, block)
    }

    fn result(&self, run: &TreeRun<'a>, i: usize) -> i64 {
        run.result(i)
    }

    fn reply(&self, call: &Call, words: &[i64]) -> Reply {
        let (status, results) = split(words);
        if status != 0 {
            return Reply::Trap(trap_in(status));
        }
        Reply::Done(self.results_of(call.proc, results))
    }

    ghost law = { λ e. tree_parts_lawful (program_in e.checked.now) e.budget e.well };
}
