//! Calls that are noted, to be made again.

ghost use Rattle.std.specs.Prelude.{◌≡◌, ◌<◌, ◌⊎◌, ◌++◌, [], ◌∷◌, All, IfOk, length, map, if◌then◌else◌};
ghost use Rattle.ob_code_calls.specs.Calls.{left_by_all};
ghost use Rattle.ob_code_calls.specs.Parts.{parts_in, IsRoomFor};
ghost use Rattle.ob_code_correct.specs.Compiled.{IsFitting};
ghost use Rattle.ob_interface.specs.View.{call_of};

use crate::{CodeCalls, Room};
use ob_interface::call::Call;
use smallvec::SmallVec;
use std::alloc::{AllocError, Global};

/// An equal call.
fn copied(alloc: Global, call: &Call) -> Result<Call, AllocError>
    ensures { IfOk result (λ c. call_of c ≡ call_of call.now) }
{
    Ok(Call {
        proc: call.proc,
        args: SmallVec::from_slice(alloc, call.args.as_slice())?,
    })
}

/// Notes a call behind others, where there is memory for it.
fn note(since: &mut Vec<Call>, call: &Call) -> bool
    ensures { map call_of since.new.items ≡ (if result then map call_of since.old.items ++ call_of call.now ∷ [] else map call_of since.old.items) }
{
    let alloc = *since.allocator();
    match copied(alloc, call) {
        Ok(copy) => since.push(copy).is_ok(),
        Err(_) => false,
    }
}

/// Notes a call behind others, where they all took fewer instructions than there are words. It gives how many they took, or the greatest
/// number where the call is not noted.
pub(crate) fn noted(since: &mut Vec<Call>, call: &Call, spent: u64, words: usize) -> u64
    ensures noted { result < words → map call_of since.new.items ≡ map call_of since.old.items ++ call_of call.now ∷ [] }
    ensures either { (map call_of since.new.items ≡ map call_of since.old.items ++ call_of call.now ∷ []) ⊎ (map call_of since.new.items ≡ map call_of since.old.items) }
{
    if spent < words as u64 && note(since, call) {
        spent
    } else {
        u64::MAX
    }
}

/// Puts words back that were kept, and makes the calls again that were made since.
pub(crate) fn made_again(
    calls: &CodeCalls,
    room: &mut Room,
    block: &mut [i64],
    kept: &[i64],
    since: &[Call],
)
    requires room { IsRoomFor (parts_in calls.now) room.old }
    requires words { length block.old ≡ (parts_in calls.now).variables }
    requires as_long { length kept.now ≡ length block.old }
    requires fit { All (λ call. ∥ IsFitting (parts_in calls.now).exports call ∥₁) (map call_of since.now) }
    ensures room { IsRoomFor (parts_in calls.now) room.new }
    ensures again { block.new ≡ left_by_all (parts_in calls.now) kept.now (map call_of since.now) }
{
    block.copy_from_slice(kept);
    for call in since {
        calls.call_again(room, block, call);
    }
}
