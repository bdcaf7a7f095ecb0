//! Calls by code on states whose variables are all scalars, each from a state that is given.

ghost use Rattle.std.specs.Prelude.{◌≡◌, ◌↔◌, IsTrue};
ghost use Rattle.ob_code_calls.specs.Parts.{parts_in};

use crate::scalars::{Scalars, lay_scalars, read_scalars};
use crate::{CodeCalls, Room};
use ob_checked::program::Variable;
use ob_interface::NoMemory;
use ob_interface::call::Reply;
use ob_interface::scalar::Scalar;
use smallvec::SmallVec;
use std::alloc::Global;
use std::cell::Cell;
use wf_history::SeenReply;

/// What a call works in: room, and the words of the variables.
#[derive(Drop)]
struct Work {
    room: Room,
    block: Vec<i64>,
}

/// Calls by the code of a module, and what they work in. That is lent to one call at a time; what finds none makes another one.
pub struct ScalarCalls {
    alloc: Global,
    calls: CodeCalls,
    words: usize,
    // A box: to lend it and to take it back moves one word.
    work: Cell<Option<Box<Work>>>,
}

/// Written here, so that it is proved here once, and not in each crate that lets one go.
impl Drop for ScalarCalls {
    fn drop(self) {
        let ScalarCalls {
            alloc: _,
            calls: _,
            words: _,
            work: _,
        } = self;
    }
}

/// A call by its export's number, and its reply, if one is known.
#[derive(Clone, Copy)]
pub struct Request<'a> {
    pub proc: usize,
    pub arguments: &'a [Scalar],
    pub known: Option<SeenReply<'a>>,
}

/// What comes of a call whose reply may be known.
#[derive(Drop)]
pub enum Led {
    /// It has the reply that is known, if one is, and leads to variables with these values.
    To(Scalars),
    /// It has another one.
    Elsewhere,
    /// The values, or the call, are none of the module.
    Nowhere,
}

impl ScalarCalls {
    ghost use Rattle.std.specs.Prelude.{List, IfOk, IfSome, map, option_map};
    ghost use Rattle.ob_checked.specs.Types.{Entry};
    ghost use Rattle.ob_checked.specs.View.{variable_of};
    ghost use Rattle.ob_code_calls.specs.Calls.{asked};
    ghost use Rattle.ob_code_calls.specs.Led.{IsLed, reply_behind};
    ghost use Rattle.ob_code_calls.specs.Parts.{IsRoomFor};
    ghost use Rattle.ob_code_calls.specs.Scalars.{AreBehind, IsCodeWith, IsMadeOf, IsMadeOn};
    ghost use Rattle.ob_code_correct.specs.Parts.{IsCompiledTo};
    ghost use Rattle.ob_interface.specs.View.{reply_of};
    ghost use Rattle.ob_interface.specs.declared.scalar.Scalar as Scalars;
    ghost use Rattle.ob_typing.specs.Program.{Program};
    ghost use Rattle.wf_history.specs.View.{seen_reply};

    /// Calls of this code, on states of so many words.
    pub fn new(alloc: Global, calls: CodeCalls, words: usize) -> ScalarCalls
        ensures { parts_in result.calls ≡ parts_in calls }
    {
        ScalarCalls {
            alloc,
            calls,
            words,
            work: Cell::new(None),
        }
    }

    /// What a call can work in.
    fn work(&self) -> Result<Box<Work>, NoMemory>
        ensures { IfOk result (λ work. IsRoomFor (parts_in self.now.calls) work.value.room) }
    {
        if let Some(work) = self.work.take() {
            if self.calls.has_room(&work.room) {
                return Ok(work);
            }
        }
        self.new_work()
    }

    /// The same, made anew.
    #[cold]
    #[inline(never)]
    fn new_work(&self) -> Result<Box<Work>, NoMemory>
        ensures { IfOk result (λ work. IsRoomFor (parts_in self.now.calls) work.value.room) }
    {
        let room = self.calls.room(self.alloc)?;
        let block = vec![in self.alloc; 0; self.words]?;
        Ok(Box::new(self.alloc, Work { room, block })?)
    }

    /// A call that is made on variables with these values: what it was made in, and its trap, where it traps; nothing where the values or
    /// the call are none of the module.
    #[inline(always)]
    fn made(
        &self,
        variables: &[Variable],
        scalars: &[Scalar],
        proc: usize,
        arguments: &[Scalar],
    ) -> Result<Option<(Box<Work>, Option<u8>)>, NoMemory>
        requires { ∥ IsCodeWith variables.now (parts_in self.now.calls) ∥₁ }
        ensures room { IfOk result (λ o. IfSome o (λ made. IsRoomFor (parts_in self.now.calls) made.0.value.room)) }
        ensures made { (program : Program) (types : List Entry) → IsCompiledTo program (parts_in self.now.calls) → map (variable_of types) variables.now ≡ program.variables
            → IfOk result (λ o. IfSome o (λ made. IsMadeOn program (parts_in self.now.calls) (asked proc arguments.now) scalars.now made.0.value made.1)) }
    {
        if !self.calls.fits(proc, arguments) {
            return Ok(None);
        }
        let mut work = self.work()?;
        let here = &mut *work;
        let block = here.block.as_mut_slice();
        if !lay_scalars(variables, scalars, block) {
            return Ok(None);
        }
        let (trap, _) = self.calls.make(&mut here.room, block, proc, arguments);
        Ok(Some((work, trap)))
    }

    /// The values of variables behind a call: those of the block that it has left, and where it traps those before it.
    #[inline(always)]
    fn left(
        &self,
        variables: &[Variable],
        scalars: &[Scalar],
        block: &[i64],
        trap: Option<u8>,
    ) -> Result<Option<Scalars>, NoMemory>
        ensures { IfOk result (λ o. IfSome o (λ after. AreBehind variables.now scalars.now block.now trap after.items)) }
    {
        match trap {
            Some(_) => Ok(Some(SmallVec::from_slice(self.alloc, scalars)?)),
            None => read_scalars(self.alloc, variables, block),
        }
    }

    /// Whether a call of an export, of which the body has returned, or trapped so, has the reply that is known, if one is.
    #[inline(always)]
    fn has_known_reply(
        &self,
        room: &Room,
        proc: usize,
        trap: Option<u8>,
        known: Option<SeenReply>,
    ) -> bool
        requires { IsRoomFor (parts_in self.now.calls) room.now }
        ensures { (arguments : List Scalars.Scalar) → IsTrue result
            ↔ IfSome (option_map seen_reply known.entry) (λ x. x ≡ reply_behind (parts_in self.now.calls) (asked proc arguments) room.now.run trap) }
    {
        let Some(reply) = known else {
            return true;
        };
        match (reply, trap) {
            (SeenReply::Done(values), None) => {
                let lent = values.lent();
                self.calls.has_replied(room, proc, lent.as_slice())
            }
            (SeenReply::Trap(number), Some(other)) => number == other,
            _ => false,
        }
    }

    /// What a call makes of variables with these values, and what it answers; nothing where the values or the call are none of the module.
    pub fn called(
        &self,
        variables: &[Variable],
        scalars: &[Scalar],
        proc: usize,
        arguments: &[Scalar],
    ) -> Result<Option<(Scalars, Reply)>, NoMemory>
        requires { ∥ IsCodeWith variables.now (parts_in self.now.calls) ∥₁ }
        ensures { (program : Program) (types : List Entry) → IsCompiledTo program (parts_in self.now.calls) → map (variable_of types) variables.now ≡ program.variables
            → IfOk result (λ o. IfSome o (λ made. IsMadeOf program (parts_in self.now.calls) (asked proc arguments.now) scalars.now made.0.items (reply_of made.1))) }
    {
        let Some((mut work, trap)) = self.made(variables, scalars, proc, arguments)? else {
            return Ok(None);
        };
        if let Some(number) = trap {
            let same = SmallVec::from_slice(self.alloc, scalars)?;
            self.work.set(Some(work));
            return Ok(Some((same, Reply::Trap(number))));
        }
        let Some(after) = read_scalars(self.alloc, variables, work.block.as_slice())? else {
            return Ok(None);
        };
        let reply = self.calls.reply(&mut work.room, proc);
        self.work.set(Some(work));
        Ok(Some((after, reply)))
    }

    /// What comes of a call on variables with these values, whose reply may be known. Where it has another one, nothing is read.
    #[inline(always)]
    pub fn led(
        &self,
        variables: &[Variable],
        scalars: &[Scalar],
        request: Request,
    ) -> Result<Led, NoMemory>
        requires { ∥ IsCodeWith variables.now (parts_in self.now.calls) ∥₁ }
        ensures { (program : Program) (types : List Entry) → IsCompiledTo program (parts_in self.now.calls) → map (variable_of types) variables.now ≡ program.variables
            → IfOk result (IsLed program (parts_in self.now.calls) (asked request.entry.proc request.entry.arguments.now) scalars.now
            (option_map seen_reply request.entry.known)) }
    {
        let Request {
            proc,
            arguments,
            known,
        } = request;
        let Some((work, trap)) = self.made(variables, scalars, proc, arguments)? else {
            return Ok(Led::Nowhere);
        };
        if !self.has_known_reply(&work.room, proc, trap, known) {
            self.work.set(Some(work));
            return Ok(Led::Elsewhere);
        }
        let after = self.left(variables, scalars, work.block.as_slice(), trap)?;
        self.work.set(Some(work));
        match after {
            Some(after) => Ok(Led::To(after)),
            None => Ok(Led::Nowhere),
        }
    }
}
