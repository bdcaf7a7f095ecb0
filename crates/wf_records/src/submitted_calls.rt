//! The calls that were submitted to a process, kept one behind the other.

ghost use Rattle.std.specs.Prelude.{◌≡◌, ◌-◌, ◌<◌, ◌≤◌, ◌++◌, ◌∷◌, [], OnOk, OnErr, length, slice_index_or};
ghost use Rattle.ob_interface.specs.View.{call_of};
ghost use Rattle.wf_records.specs.CallsKept.{IsLaid, calls_from, no_call};

use ob_interface::NoMemory;
use ob_interface::call::Call;
use ob_interface::scalar::Scalar;
use smallvec::SmallVec;
use std::alloc::Global;
use std::marker::Model;

/// A call's export, and where its arguments end. They begin where those of the call before it end.
#[derive(Clone, Copy)]
pub struct Head {
    pub proc: usize,
    pub end: usize,
}

/// Calls, and one of them at hand: made anew, so that it can be lent as a whole.
#[derive(Drop)]
pub struct CallList {
    heads: Vec<Head>,
    /// The arguments of all calls.
    arguments: Vec<Scalar>,
    /// The number of the call at hand, from 1, or 0 where none is.
    number: usize,
    hand: Call,
}

impl Model for CallList {
    ghost use Rattle.ob_interface.specs.View.{call_of};
    ghost use Rattle.wf_records.specs.CallsKept.{KeptCalls, IsKeptWell, calls_from};

    ghost Value = { KeptCalls };

    ghost view = { λ a. record { calls = calls_from 0 a.heads.items a.arguments.items; number = a.number } };

    ghost invariant = { λ a. IsKeptWell a.heads.items a.arguments.items a.number (call_of a.hand) };
}

impl CallList {
    /// No calls; it takes no memory yet.
    pub fn new(alloc: Global) -> CallList
        ensures { result ≡ record { calls = []; number = 0 } }
    {
        CallList {
            heads: Vec::new(alloc),
            arguments: Vec::new(alloc),
            number: 0,
            hand: Call {
                proc: 0,
                args: SmallVec::new(alloc),
            },
        }
    }

    /// How many calls were pushed; none is taken out again.
    pub fn len(&self) -> usize
        ensures { result ≡ length self.now.calls }
    {
        self.heads.len()
    }

    /// One more call. Nothing changes where memory runs out.
    pub fn push(&mut self, call: &Call) -> Result<(), NoMemory>
        ensures ok { OnOk result (self.new ≡ record self.old { calls = self.old.calls ++ call_of call.now ∷ [] }) }
        ensures err { OnErr result (self.new ≡ self.old) }
    {
        self.heads.try_reserve(1)?;
        self.arguments.extend_from_slice(call.args.as_slice())?;
        self.heads.push_reserved(Head {
            proc: call.proc,
            end: self.arguments.len(),
        });
        Ok(())
    }

    /// Brings the call of this number, from 1, to hand, where it isn't.
    #[inline(always)]
    pub fn bring_to_hand(&mut self, number: usize) -> Result<(), NoMemory>
        requires some { 0 < number }
        requires within { number ≤ length self.old.calls }
        ensures calls { self.new.calls ≡ self.old.calls }
        ensures number { OnOk result (self.new.number ≡ number) }
    {
        if self.number == number {
            return Ok(());
        }
        self.make(number)
    }

    /// Makes the call of this number, from 1, anew.
    #[inline(never)]
    fn make(&mut self, number: usize) -> Result<(), NoMemory>
        requires some { 0 < number }
        requires within { number ≤ length self.old.calls }
        ensures calls { self.new.calls ≡ self.old.calls }
        ensures number { OnOk result (self.new.number ≡ number) }
    {
        let i = number - 1;
        self.number = 0;
        self.hand.proc = self.heads[i].proc;
        self.hand.args.clear();
        append(
            &mut self.hand.args,
            arguments_at(&self.heads, &self.arguments, i),
        )?;
        self.number = number;
        Ok(())
    }

    /// The call at hand.
    #[inline]
    pub fn at_hand(&self) -> &Call
        requires { 0 < self.now.number }
        ensures { call_of result.now ≡ slice_index_or self.now.calls (self.now.number - 1) no_call }
    {
        &self.hand
    }
}

/// The arguments of the call of this place.
fn arguments_at<'a>(heads: &[Head], arguments: &'a [Scalar], i: usize) -> &'a [Scalar]
    requires laid { IsLaid 0 heads.now (length arguments.now) }
    requires within { i < length heads.now }
    ensures { result.now ≡ (slice_index_or (calls_from 0 heads.now arguments.now) i no_call).arguments }
{
    let start = if i == 0 { 0 } else { heads[i - 1].end };
    &arguments[start..heads[i].end]
}

/// The scalars at the end of the list. Most calls have none, and then nothing is copied.
#[inline(always)]
fn append(list: &mut SmallVec<Scalar, 8>, scalars: &[Scalar]) -> Result<(), NoMemory>
    ensures { OnOk result (list.new.items ≡ list.old.items ++ scalars.now) }
{
    if scalars.is_empty() {
        return Ok(());
    }
    list.extend_from_slice(scalars)?;
    Ok(())
}
