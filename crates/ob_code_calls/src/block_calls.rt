//! Calls on a block, by the code of a module.

ghost use Rattle.std.specs.Prelude.{◌≡◌, ◌+◌, ◌*◌, length};

use crate::fitting_arguments::do_fit;
use crate::room::Room;
use crate::running::{begin, has_replied, reply_to, run_on};
use ob_checked::checked::Checked;
use ob_code_correct::well_formed_laws::checked_is_well_formed;
use ob_code_engine::CodeEngine;
use ob_code_machine::Code;
use ob_interface::NoMemory;
use ob_interface::call::{Call, Reply};
use ob_interface::scalar::Scalar;
use ob_layout::Layout;
use ob_layout::laws::stacks_are_counted;
use std::alloc::Global;
use wf_object::Engine;
use wf_table::EngineTurn;

/// The code of a module, each call with so many turns.
pub struct CodeCalls {
    alloc: Global,
    engine: CodeEngine,
    /// The words of a stack.
    reserve: usize,
    /// The most instructions of a call: each turn, and the call itself, pays for as many as the code has.
    most: u64,
    ghost same_reserve: { reserve ≡ engine.parts.reserve },
    ghost enough: { most ≡ (engine.parts.budget + 1) * length engine.parts.code.instructions },
}

/// Written here, so that it is proved here once, and not in each crate that lets one go.
impl Drop for CodeCalls {
    fn drop(self) {
        let CodeCalls {
            alloc: _,
            engine: _,
            reserve: _,
            most: _,
        } = self;
    }
}

impl CodeCalls {
    ghost use Rattle.std.specs.Prelude.{◌≤◌, ◌↔◌, IfOk, IsTrue, List};
    ghost use Rattle.ob_checked.specs.CheckedModule.{program_in};
    ghost use Rattle.ob_interface.specs.Call.{Answers};
    ghost use Rattle.ob_code_calls.specs.Calls.{IsMade, IsMadeThrough, asked, block_behind, left_by, meaning_of, paid};
    ghost use Rattle.ob_code_calls.specs.Parts.{parts_in, IsRoomFor};
    ghost use Rattle.ob_code_correct.specs.Compiled.{IsFitting, parts_of};
    ghost use Rattle.ob_code_correct.specs.Parts.{IsCompiledTo, IsLawfulFor};
    ghost use Rattle.ob_layout.specs.Layout as Layouts;
    ghost use Rattle.ob_code_scheme.specs.Layout.{IsEncoding};
    ghost use Rattle.ob_code_scheme.specs.Scheme.{code_of};
    ghost use Rattle.ob_interface.specs.View.{call_of, reply_of};
    ghost use Rattle.ob_interface.specs.declared.scalar.Scalar as Scalars;
    ghost use Rattle.ob_meaning.specs.ByNameObject.{most_turns};
    ghost use Rattle.ob_meaning.specs.ByPositionStore.{Activation};
    ghost use Rattle.ob_typing.specs.Program.{Program};
    ghost use Rattle.wf_table.specs.Meaning.{body, kept};

    /// The code of a checked module, by its layout, each call with so many turns.
    pub fn new(
        alloc: Global,
        checked: &Checked,
        layout: &Layout,
        code: Code,
        budget: u64,
    ) -> Result<CodeCalls, NoMemory>
        requires layout { Layouts.parts_of layout.now ≡ Layouts.layout_of (program_in checked.now) }
        requires code { code ≡ code_of (program_in checked.now) }
        requires budget { budget ≤ most_turns }
        ensures { IfOk result (λ c. parts_in c ≡ parts_of (program_in checked.now) budget) }
    {
        checked_is_well_formed(checked);
        stacks_are_counted();
        let reserve = layout.stack_words();
        let instructions = code.instructions().len() as u64;
        let engine = CodeEngine::new(alloc, checked, layout, code, budget)?;
        Ok(CodeCalls {
            alloc,
            engine,
            reserve,
            most: (budget + 1) * instructions,
        })
    }

    /// Room for calls.
    pub fn room(&self, alloc: Global) -> Result<Room, NoMemory>
        ensures { IfOk result (IsRoomFor (parts_in self.now)) }
    {
        Ok(Room {
            run: self.engine.new_run(alloc)?,
            reserve: self.reserve,
            call: vec![in alloc; 0; self.engine.announce_words()]?,
            results: vec![in alloc; 0; self.engine.reply_words()]?,
        })
    }

    /// Whether room is as large as these calls need it.
    pub fn has_room(&self, room: &Room) -> bool
        ensures { IsTrue result → IsRoomFor (parts_in self.now) room.now }
    {
        room.reserve == self.reserve
            && room.call.len() == self.engine.announce_words()
            && room.results.len() == self.engine.reply_words()
    }

    /// Whether a call is one of the module's: of an export, and with an argument of its type for each value parameter.
    pub fn fits(&self, proc: usize, arguments: &[Scalar]) -> bool
        ensures { IsTrue result → IsFitting (parts_in self.now).exports (asked proc arguments.now) }
    {
        match self.engine.exports().get(proc) {
            Some(export) => do_fit(export.parameters(), arguments),
            None => false,
        }
    }

    /// The body of a call on a block, from its beginning to where it ends: what its last instruction answers, and how many there were.
    #[inline(always)]
    fn run_through(
        &self,
        room: &mut Room,
        block: &mut [i64],
        proc: usize,
        arguments: &[Scalar],
    ) -> (EngineTurn, u64)
        requires room { IsRoomFor (parts_in self.now) room.old }
        requires fits { ∥ IsFitting (parts_in self.now).exports (asked proc arguments.now) ∥₁ }
        requires block { length block.old ≡ (parts_in self.now).variables }
        ensures room { IsRoomFor (parts_in self.now) room.new }
        ensures body { record { turn = result.0; run = room.new.run; block = block.new }
            ≡ body (meaning_of (parts_in self.now)) (paid (parts_in self.now)) block.old (asked proc arguments.now) }
    {
        let words = room.call.as_mut_slice();
        begin(&self.engine, &mut room.run, proc, arguments, words);
        run_on(&self.engine, &mut room.run, block, self.most)
    }

    /// A call that is made on the block of a state: the trap with which it ends, if it traps, and how many instructions it took. Where it
    /// traps, what it has written is left in the block: the words of the state are those that it had before.
    #[inline(always)]
    pub fn make(
        &self,
        room: &mut Room,
        block: &mut [i64],
        proc: usize,
        arguments: &[Scalar],
    ) -> (Option<u8>, u64)
        requires room { IsRoomFor (parts_in self.now) room.old }
        requires fits { IsFitting (parts_in self.now).exports (asked proc arguments.now) }
        requires lawful { ∥ IsLawfulFor (parts_in self.now) block.old ∥₁ }
        ensures room { IsRoomFor (parts_in self.now) room.new }
        ensures made { (program : Program) (before : Activation) → IsCompiledTo program (parts_in self.now) → IsEncoding program.variables before block.old
            → IsMadeThrough program (parts_in self.now) (asked proc arguments.now) before block.old block.new room.new.run result.0 }
        ensures left { block.new ≡ left_by (parts_in self.now) block.old (asked proc arguments.now) }
    {
        let (turn, steps) = self.run_through(room, block, proc, arguments);
        // A body that is over, and has not trapped, has returned.
        match turn {
            EngineTurn::Trapped(number) => (Some(number), steps),
            _ => (None, steps),
        }
    }

    /// The reply of a call of an export whose body has returned.
    pub fn reply(&self, room: &mut Room, proc: usize) -> Reply
        requires room { IsRoomFor (parts_in self.now) room.old }
        ensures room { IsRoomFor (parts_in self.now) room.new }
        ensures reply { (arguments : List Scalars.Scalar)
            → reply_of result ≡ (meaning_of (parts_in self.now)).reply (asked proc arguments) (kept (meaning_of (parts_in self.now)) room.old.run) }
    {
        let words = room.results.as_mut_slice();
        reply_to(self.alloc, &self.engine, &room.run, proc, words)
    }

    /// Whether a call of an export whose body has returned is answered by these values.
    #[inline(always)]
    pub(crate) fn has_replied(&self, room: &Room, proc: usize, values: &[Scalar]) -> bool
        requires { IsRoomFor (parts_in self.now) room.now }
        ensures { (arguments : List Scalars.Scalar) → IsTrue result
            ↔ ((meaning_of (parts_in self.now)).reply (asked proc arguments) (kept (meaning_of (parts_in self.now)) room.now.run) ≡ Answers values.now) }
    {
        has_replied(&self.engine, &room.run, proc, values)
    }

    /// A call that is made on the block of a state, its reply, and how many instructions it took. Where it traps, what it has written is
    /// left in the block: the words of the state are those that it had before.
    pub fn call_through(&self, room: &mut Room, block: &mut [i64], call: &Call) -> (Reply, u64)
        requires room { IsRoomFor (parts_in self.now) room.old }
        requires fits { IsFitting (parts_in self.now).exports (call_of call.now) }
        requires lawful { ∥ IsLawfulFor (parts_in self.now) block.old ∥₁ }
        ensures room { IsRoomFor (parts_in self.now) room.new }
        ensures made { (program : Program) (before : Activation) → IsCompiledTo program (parts_in self.now) → IsEncoding program.variables before block.old
            → IsMade program (parts_in self.now).budget (call_of call.now) before (block_behind (reply_of result.0) block.old block.new) (reply_of result.0) }
        ensures left { block.new ≡ left_by (parts_in self.now) block.old (call_of call.now) }
    {
        let (trap, steps) = self.make(room, block, call.proc, call.args.as_slice());
        match trap {
            Some(number) => (Reply::Trap(number), steps),
            None => (self.reply(room, call.proc), steps),
        }
    }

    /// A call that is made once more on a block, for what it leaves there.
    pub fn call_again(&self, room: &mut Room, block: &mut [i64], call: &Call)
        requires room { IsRoomFor (parts_in self.now) room.old }
        requires fits { ∥ IsFitting (parts_in self.now).exports (call_of call.now) ∥₁ }
        requires block { length block.old ≡ (parts_in self.now).variables }
        ensures room { IsRoomFor (parts_in self.now) room.new }
        ensures left { block.new ≡ left_by (parts_in self.now) block.old (call_of call.now) }
    {
        let _ = self.run_through(room, block, call.proc, call.args.as_slice());
    }
}
