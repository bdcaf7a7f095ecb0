//! The body of one call: the stack machine at work on a block of words.

ghost use Rattle.std.specs.Prelude.{◌≡◌, ◌<◌, ◌+◌, IfOk, slice_get, slice_index_or, true, false, pos};
ghost use Rattle.ob_code_machine.specs.Machine as Machine;
ghost use Rattle.ob_code_machine.specs.Body.{ShowsOnAnyBlock, empty, entered, shown, at, step_of};
ghost use Rattle.ob_code_machine.specs.Parameters.{arguments_in};
ghost use Rattle.ob_code_words.specs.declared.instr.Instr.TheVariants as Instrs;

mod leaps;

use crate::argument::Argument;
use crate::code::Code;
use crate::entering::{push_arguments, push_parameters, result_count, var_count};
use crate::saved::{Callers, Saved};
use crate::turn::BodyTurn;
use ob_code_words::effect::{Answer, effect, store};
use ob_code_words::instr::Instr;
use ob_code_words::stack::Stack;
use ob_interface::NoMemory;
use ob_interface::export::Formal;
use std::alloc::Global;
use std::marker::Model;

/// The body of one call. Its stack and the places to return to are reserved once: no call but
/// `with_reserve` takes memory.
#[derive(Drop)]
pub struct Body {
    pc: usize,
    fp: usize,
    stack: Stack,
    callers: Callers,
    turns: u32,
    is_over: bool,
}

impl Model for Body {
    ghost use Rattle.ob_code_machine.specs.Body.{Run, run_view};

    ghost Value = { Run };

    ghost view = { λ b. run_view b.pc b.fp b.stack b.callers b.turns b.is_over };
}

impl Body {
    /// A body that is over, with room for so many words.
    pub fn with_reserve(alloc: Global, stack_words: u32) -> Result<Body, NoMemory>
        ensures { IfOk result (λ b. b ≡ record { reserve = stack_words; is_over = true; body = empty }) }
    {
        Ok(Body {
            pc: 0,
            fp: 0,
            stack: Stack::new(alloc, stack_words)?,
            callers: Callers::new(alloc)?,
            turns: 0,
            is_over: true,
        })
    }

    /// Holds nothing, and is over.
    fn clear(&mut self)
        ensures { self.new ≡ record { reserve = self.old.reserve; is_over = true; body = empty } }
    {
        self.pc = 0;
        self.fp = 0;
        self.stack.truncate(0);
        self.callers.clear();
        self.turns = 0;
        self.is_over = true;
    }

    /// Begins at an entry; the frame begins behind so many results.
    fn begin(&mut self, entry: u16, results: usize, budget: u32)
        ensures { self.new ≡ record { reserve = self.old.reserve; is_over = false; body = record self.old.body { pc = entry; fp = results; turns = budget } } }
    {
        self.pc = usize::from(entry);
        self.fp = results;
        self.turns = budget;
        self.is_over = false;
    }

    /// Starts a procedure of the code, on blocks of so many words, with a budget of turns; what the body
    /// held before is gone. Where there is no such procedure, or no room for results and arguments, the
    /// body is over.
    pub fn start(
        &mut self,
        code: &Code,
        procedure: usize,
        variables: u32,
        arguments: &[Argument],
        budget: u32,
    )
        ensures { self.new ≡ entered self.old.reserve variables (slice_get code.now.entries procedure) arguments.now budget }
    {
        self.clear();
        let Some(entry) = code.entry(procedure) else {
            return;
        };
        let results = result_count(arguments);
        if self.stack.room() < arguments.len() || self.stack.room() - arguments.len() < results {
            return;
        }
        self.stack.push_zeros(results);
        push_arguments(&mut self.stack, variables, arguments);
        self.begin(entry, results, budget);
    }

    /// The same, with the arguments that words hand over for parameters.
    #[tactic(auto, using(crate::proofs::Parameters::results_are, crate::proofs::Parameters::as_many))]
    pub fn start_on_words(
        &mut self,
        code: &Code,
        procedure: usize,
        variables: u32,
        parameters: &[Formal],
        words: &[i64],
        budget: u32,
    )
        ensures { self.new ≡ entered self.old.reserve variables (slice_get code.now.entries procedure) (arguments_in parameters.now words.now) budget }
    {
        self.clear();
        let Some(entry) = code.entry(procedure) else {
            return;
        };
        let results = var_count(parameters);
        if self.stack.room() < parameters.len() || self.stack.room() - parameters.len() < results {
            return;
        }
        self.stack.push_zeros(results);
        push_parameters(&mut self.stack, variables, parameters, words);
        self.begin(entry, results, budget);
    }

    /// One instruction, on a block. A body that is over is stuck. It stands within the loops over it, and so does each instruction.
    #[inline(always)]
    pub fn step(&mut self, code: &Code, block: &mut [i64]) -> BodyTurn
        ensures turn { result ≡ (step_of code.now.instructions self.old block.old).turn }
        ensures body { self.new ≡ (step_of code.now.instructions self.old block.old).run }
        ensures block { block.new ≡ (step_of code.now.instructions self.old block.old).block }
    {
        if self.is_over {
            return BodyTurn::Stuck;
        }
        match code.instruction(self.pc) {
            Some(instr) => self.act(instr, block),
            None => BodyTurn::Stuck,
        }
    }

    /// The word of a result of a body that has returned; 0 where there is none.
    pub fn result(&self, i: usize) -> i64
        ensures { result ≡ slice_index_or self.now.body.stack i (pos 0) }
    {
        if i < self.stack.height() {
            return self.stack.word(i);
        }
        0
    }

    /// One jump leads to what each instruction does.
    #[inline(always)]
    fn act(&mut self, instr: Instr, block: &mut [i64]) -> BodyTurn
        requires { self.old.body.pc < 65535 }
        ensures { record { turn = result; run = self.new; block = block.new } ≡ shown self.old block.old (Machine.act self.old.reserve instr (at self.old block.old)) }
    {
        match instr {
            Instr::Jump { target } => self.jump(target),
            Instr::JumpIfFalse { target } => self.jump_if_false(target),
            Instr::AndJump { target } => self.jump_if_decided(0, target),
            Instr::OrJump { target } => self.jump_if_decided(1, target),
            Instr::Call { entry, parameters } => self.call(entry, parameters),
            Instr::Return => self.leave(),
            Instr::Turn => self.take_turn(),
            _ => self.compute(instr, block),
        }
    }

    #[inline(always)]
    fn jump(&mut self, target: u16) -> BodyTurn
        ensures { ShowsOnAnyBlock result self.old self.new (λ c. Machine.goes_to c target c.body.stack) }
    {
        self.pc = usize::from(target);
        BodyTurn::On
    }

    #[inline(always)]
    fn jump_if_false(&mut self, target: u16) -> BodyTurn
        requires { self.old.body.pc < 65535 }
        ensures { ShowsOnAnyBlock result self.old self.new (Machine.jump_if_false target) }
    {
        let Some(word) = self.stack.top() else {
            return BodyTurn::Stuck;
        };
        let below = self.stack.height() - 1;
        self.stack.truncate(below);
        if word == 0 {
            self.pc = usize::from(target);
        } else {
            self.pc += 1;
        }
        BodyTurn::On
    }

    /// AND and OR: where the word on top decides, it is the value, and the right side is left out.
    #[inline(always)]
    fn jump_if_decided(&mut self, decides: i64, target: u16) -> BodyTurn
        requires { self.old.body.pc < 65535 }
        ensures { ShowsOnAnyBlock result self.old self.new (Machine.jump_if_decided decides target) }
    {
        let Some(word) = self.stack.top() else {
            return BodyTurn::Stuck;
        };
        if word == decides {
            self.pc = usize::from(target);
        } else {
            let below = self.stack.height() - 1;
            self.stack.truncate(below);
            self.pc += 1;
        }
        BodyTurn::On
    }

    fn call(&mut self, entry: u16, parameters: u16) -> BodyTurn
        requires { self.old.body.pc < 65535 }
        ensures { ShowsOnAnyBlock result self.old self.new (Machine.called entry parameters) }
    {
        if self.callers.len() >= Callers::LIMIT {
            self.is_over = true;
            return BodyTurn::Trapped(4);
        }
        if self.turns == 0 {
            self.is_over = true;
            return BodyTurn::Trapped(5);
        }
        let height = self.stack.height();
        if height < usize::from(parameters) {
            return BodyTurn::Stuck;
        }
        self.turns -= 1;
        self.callers.push(Saved {
            pc: self.pc + 1,
            fp: self.fp,
        });
        self.fp = height - usize::from(parameters);
        self.pc = usize::from(entry);
        BodyTurn::On
    }

    /// Takes a turn.
    #[inline(always)]
    fn take_turn(&mut self) -> BodyTurn
        requires { self.old.body.pc < 65535 }
        ensures { ShowsOnAnyBlock result self.old self.new Machine.turned }
    {
        if self.turns == 0 {
            self.is_over = true;
            return BodyTurn::Trapped(5);
        }
        self.turns -= 1;
        self.pc += 1;
        BodyTurn::On
    }

    #[inline(always)]
    fn leave(&mut self) -> BodyTurn
        ensures { ShowsOnAnyBlock result self.old self.new Machine.returned }
    {
        if self.stack.height() < self.fp {
            return BodyTurn::Stuck;
        }
        self.stack.truncate(self.fp);
        match self.callers.pop() {
            Some(caller) => {
                self.pc = caller.pc;
                self.fp = caller.fp;
                BodyTurn::On
            }
            None => {
                self.is_over = true;
                BodyTurn::Returned
            }
        }
    }

    /// PUT.
    #[inline(always)]
    fn put(&mut self, block: &mut [i64]) -> BodyTurn
        requires { self.old.body.pc < 65535 }
        ensures { record { turn = result; run = self.new; block = block.new } ≡ shown self.old block.old (Machine.computed self.old.reserve Instrs.Put (at self.old block.old)) }
    {
        match store(block, &mut self.stack) {
            Answer::Done => {
                self.pc += 1;
                BodyTurn::On
            }
            Answer::Trap(number) => {
                self.is_over = true;
                BodyTurn::Trapped(number)
            }
            Answer::Stuck => BodyTurn::Stuck,
        }
    }

    /// An instruction without a jump.
    #[inline(always)]
    fn compute(&mut self, instr: Instr, block: &mut [i64]) -> BodyTurn
        requires { self.old.body.pc < 65535 }
        ensures { record { turn = result; run = self.new; block = block.new } ≡ shown self.old block.old (Machine.computed self.old.reserve instr (at self.old block.old)) }
    {
        match effect(instr, self.fp, block, &mut self.stack) {
            Answer::Done => {
                self.pc += 1;
                BodyTurn::On
            }
            Answer::Trap(number) => {
                self.is_over = true;
                BodyTurn::Trapped(number)
            }
            Answer::Stuck => BodyTurn::Stuck,
        }
    }
}
