//! The engine over compiled code.

ghost use Rattle.std.specs.Prelude.{◌≡◌, ◌<◌, ◌≤◌, ◌↔◌, ℕ, IsTrue, length};
ghost use Rattle.ob_code_engine.specs.CodeEngine.{engine_parts};
ghost use Rattle.ob_code_correct.specs.CodeMeaning.{most, result_count, value_count};
ghost use Rattle.ob_code_correct.specs.Parts.{HasProgram};
ghost use Rattle.ob_meaning.specs.ByNameObject.{most_turns};
ghost use Rattle.wf_table.specs.declared.engine_turn.EngineTurn.TheVariants as Turn;

use crate::call_words::{lay, reply_in, split, trap_in};
use crate::entrance::{Entrance, are_same, copied, entrances, most_results, most_values};
use crate::step_answer::turn_of;
use ob_checked::checked::Checked;
use ob_code_correct::well_formed_laws::checked_is_well_formed;
use ob_code_machine::{Body, Code};
use ob_interface::NoMemory;
use ob_interface::call::{Call, Reply};
use ob_interface::export::Formal;
use ob_layout::Layout;
use std::alloc::Global;
use std::marker::Model;
use wf_object::{Engine, EngineTurn};

/// The code of a checked module as an engine: a body is a call of an export, with a budget of turns, and a step is one
/// instruction. A run has a stack of the words that the layout counts.
#[derive(Drop)]
pub struct CodeEngine {
    alloc: Global,
    code: Code,
    exports: Vec<Entrance>,
    block_words: u32,
    stack_words: u32,
    budget: u32,
    results: usize,
    values: usize,
    ghost most_results: { results ≡ most result_count exports.items },
    ghost most_values: { values ≡ most value_count exports.items },
    ghost few_turns: { budget ≤ most_turns },
    ghost compiled: { ∥ HasProgram (engine_parts block_words exports.items code stack_words budget) ∥₁ },
}

impl Model for CodeEngine {
    ghost use Rattle.ob_code_engine.specs.CodeEngine.{CompiledParts, compiled_code, engine_parts};

    ghost Value = { CompiledParts };

    ghost coded = { compiled_code };

    ghost view = { λ e. record { parts = engine_parts e.block_words e.exports.items e.code e.stack_words e.budget; compiled = e.compiled } };
}

impl CodeEngine {
    ghost use Rattle.std.specs.Prelude.{IfOk, option_copied, slice_get};
    ghost use Rattle.ob_checked.specs.CheckedModule.{program_in};
    ghost use Rattle.ob_code_correct.specs.CodeMeaning as Words;
    ghost use Rattle.ob_code_correct.specs.Compiled as Compiled;
    ghost use Rattle.ob_code_correct.specs.Parts.{IsCompiledTo};
    ghost use Rattle.ob_layout.specs.Layout as Layouts;
    ghost use Rattle.ob_code_scheme.specs.Scheme.{code_of};
    ghost use Rattle.ob_interface.specs.Call.{Answers};
    ghost use Rattle.ob_interface.specs.View.{reply_of};
    ghost use Rattle.ob_code_engine.specs.CodeEngine.{HasSameNumbers};
    ghost use Rattle.wf_table.specs.Meaning.{steps};

    /// The engine of a checked module, by its layout and its code, with a budget of turns for each call.
    pub fn new(
        alloc: Global,
        checked: &Checked,
        layout: &Layout,
        code: Code,
        budget: u64,
    ) -> Result<CodeEngine, NoMemory>
        requires layout { Layouts.parts_of layout.now ≡ Layouts.layout_of (program_in checked.now) }
        requires code { code ≡ code_of (program_in checked.now) }
        requires budget { budget ≤ most_turns }
        ensures parts { IfOk result (λ e. e.parts ≡ Compiled.parts_of (program_in checked.now) budget) }
        ensures compiled { IfOk result (λ e. ∥ IsCompiledTo (program_in checked.now) e.parts ∥₁) }
    {
        checked_is_well_formed(checked);
        let exports = entrances(alloc, checked.program())?;
        Ok(CodeEngine {
            alloc,
            results: most_results(exports.as_slice()),
            values: most_values(exports.as_slice()),
            code,
            exports,
            block_words: layout.variable_words() as u32,
            stack_words: layout.stack_words() as u32,
            budget: budget as u32,
        })
    }

    /// An equal engine.
    pub fn copy(&self, alloc: Global) -> Result<CodeEngine, NoMemory>
        ensures { IfOk result (λ e. e ≡ self.now) }
    {
        Ok(CodeEngine {
            alloc,
            code: self.code.copy(alloc)?,
            exports: copied(alloc, self.exports.as_slice())?,
            block_words: self.block_words,
            stack_words: self.stack_words,
            budget: self.budget,
            results: self.results,
            values: self.values,
        })
    }

    /// Whether the other has as many words in a block and in a stack, and as many turns.
    fn has_same_numbers(&self, other: &CodeEngine) -> bool
        ensures { IsTrue result ↔ HasSameNumbers self.now.parts other.now.parts }
    {
        self.block_words == other.block_words
            && self.stack_words == other.stack_words
            && self.budget == other.budget
    }

    /// Whether the other is the same: equal code, the same exports, as many words in a block and in a stack, and as many turns.
    pub fn is_same(&self, other: &CodeEngine) -> bool
        ensures { IsTrue result ↔ (self.now ≡ other.now) }
    {
        self.has_same_numbers(other)
            && is_same_code(&self.code, &other.code)
            && are_same(self.exports.as_slice(), other.exports.as_slice())
    }

    /// The code that it runs.
    pub fn code(&self) -> &Code
        ensures { result.now ≡ self.now.parts.code }
    {
        &self.code
    }

    /// The turns that each call has.
    pub fn budget(&self) -> u64
        ensures turns { result ≡ self.now.parts.budget }
        ensures few { result ≤ most_turns }
    {
        u64::from(self.budget)
    }

    /// How calls enter the code, for each export in text order.
    pub fn exports(&self) -> &[Entrance]
        ensures { result.now ≡ self.now.parts.exports }
    {
        &self.exports
    }

    /// The export of a number.
    fn export_at(&self, number: usize) -> Option<&Entrance>
        ensures { option_copied result ≡ slice_get self.now.parts.exports number }
    {
        self.exports.as_slice().get(number)
    }

    /// The export of the number that a word is.
    fn export(&self, word: i64) -> Option<&Entrance>
        ensures { option_copied result ≡ Words.entrance_at self.now.parts.exports word }
    {
        if word < 0 {
            return None;
        }
        self.export_at(word as usize)
    }

    /// The parameters of an export; none where there is no such export.
    fn parameters_of(&self, number: usize) -> &[Formal]
        ensures value { result.now ≡ Words.parameters_of (slice_get self.now.parts.exports number) }
        ensures few { length result.now ≤ 8 }
    {
        match self.export_at(number) {
            Some(export) => export.parameters(),
            None => &[],
        }
    }

    /// Steps of a body on a block, at most so many, up to the first behind which it doesn't go on: how many they are, and what the
    /// last one answers.
    pub fn run_on(&self, run: &mut Body, block: &mut [i64], most: u64) -> (u64, EngineTurn)
        ensures few { result.0 ≤ most }
        ensures some { 0 < most → 0 < result.0 }
        ensures on { (j : ℕ) → j < result.0 → (steps (Words.code_meaning self.now.parts) j run.old block.old).turn ≡ Turn.On }
        ensures taken { record { turn = result.1; run = run.new; block = block.new } ≡ steps (Words.code_meaning self.now.parts) result.0 run.old block.old }
        ensures all { record { turn = result.1; run = run.new; block = block.new } ≡ steps (Words.code_meaning self.now.parts) most run.old block.old }
    {
        let (taken, turn) = run.run_on(&self.code, block, most);
        (taken, turn_of(turn))
    }

    /// The reply of a call of an export that has ended, from the words of its results; nothing where there is no such export.
    fn reply_from(&self, number: usize, words: &[i64]) -> Reply
        ensures { reply_of result ≡ Answers (Words.values_of (Words.parameters_of (slice_get self.now.parts.exports number)) words.now) }
    {
        reply_in(self.alloc, self.parameters_of(number), words)
    }
}

/// Whether the instructions are the same, and the places where procedures begin.
fn is_same_code(code: &Code, other: &Code) -> bool
    ensures { IsTrue result ↔ (code.now ≡ other.now) }
{
    code.instructions() == other.instructions() && code.entries() == other.entries()
}

impl Engine for CodeEngine {
    ghost use Rattle.ob_code_correct.specs.CodeMeaning.{code_meaning};
    ghost use Rattle.ob_code_correct.specs.Compiled.{HasReserve, IsFitting};
    ghost use Rattle.ob_code_correct.specs.Parts.{IsEffectOf, IsLawfulFor};
    ghost use Rattle.ob_code_correct.proofs.PartsLaw.{parts_lawful};

    type Run = Body;

    ghost meaning = { λ e. code_meaning e.parts };

    ghost lawful = { λ e. IsLawfulFor e.parts };

    ghost fits = { λ e. IsFitting e.parts.exports };

    ghost ready = { λ e. HasReserve e.parts };

    ghost effect = { λ e. IsEffectOf e.parts };

    fn variable_words(&self) -> usize {
        self.block_words as usize
    }

    fn reply_words(&self) -> usize {
        self.results
    }

    fn announce_words(&self) -> usize {
        1 + self.values
    }

    fn new_run(&self, alloc: Global) -> Result<Body, NoMemory> {
        Body::with_reserve(alloc, self.stack_words)
    }

    fn lay(&self, call: &Call, words: &mut [i64]) {
        // The exports stand in memory, so that their numbers are words.
        let _exports = &self.exports;
        lay(call.proc, call.args.as_slice(), words);
    }

    fn start(&self, run: &mut Body, words: &[i64]) {
        let (number, rest) = split(words);
        match self.export(number) {
            Some(export) => {
                run.start_on_words(
                    &self.code,
                    export.procedure(),
                    self.block_words,
                    export.parameters(),
                    rest,
                    self.budget,
                );
            }
            None => {
                let behind = self.code.entries().len();
                run.start(&self.code, behind, self.block_words, &[], self.budget);
            }
        }
    }

    #[inline(always)]
    fn step(&self, run: &mut Body, block: &mut [i64]) -> EngineTurn {
        turn_of(run.step(&self.code, block))
    }

    fn steps(&self, run: &mut Body, block: &mut [i64], most: u64) -> (u64, EngineTurn) {
        self.run_on(run, block, most)
    }

    fn result(&self, run: &Body, i: usize) -> i64 {
        run.result(i)
    }

    fn reply(&self, call: &Call, words: &[i64]) -> Reply {
        let (status, results) = split(words);
        if status != 0 {
            return Reply::Trap(trap_in(status));
        }
        self.reply_from(call.proc, results)
    }

    ghost law = { λ e. parts_lawful e.parts e.compiled };
}
