//! Which processes need not be tried, since an equal call comes first and may be taken as well.

ghost use Rattle.std.specs.Prelude.{List, IfOk, OnOk, IsTrue};
ghost use Rattle.ob_interface.specs.Call.{ObjectCall, Reply};
ghost use Rattle.wf_history.specs.History.{Event};
ghost use Rattle.wf_order.specs.MadeCalls.{AreMade};
ghost use Rattle.wf_order.specs.Rules.{AreBehind};
ghost use Rattle.wf_order.specs.Search.{found_in, IsAt, IsWorded};
ghost use Rattle.wf_order.specs.Turns.{IsNextOf};

use crate::hints::Wanted;
use crate::made_calls::MadeCalls;
use crate::next_call::{Next, next_of};
use crate::searched_object::Object;
use crate::sooner::{Spot, are_alike, has_sooner};
use crate::step::{Here, Task, step_by};
use ob_interface::NoMemory;

/// Whether the next call of a process, which is open, is equal to another one that comes first and may be taken as well.
fn is_behind_any<'a, O: Object>(
    task: &Task<'_, 'a, O>,
    here: &Here<O::State>,
    process: usize,
    calls: &mut MadeCalls<'a, O::State>,
) -> Result<bool, NoMemory>
    requires worded { IsWorded O.meaning O.words_of here.now.found.now }
    requires made { AreMade O.meaning O.words_of (O.effect task.now.object.now) calls.old }
    ensures made { OnOk result (AreMade O.meaning O.words_of (O.effect task.now.object.now) calls.new) }
    ensures behind { (history : List (Event ObjectCall Reply)) → IsAt history task.now.rows.now here.now
        → IfOk result (λ behind. IsTrue behind → AreBehind (O.effect task.now.object.now) history (found_in O.meaning here.now.found.now) process) }
{
    let counts = here.found.counts.as_slice();
    let Some(place) = counts.get(process) else {
        return Ok(false);
    };
    let own = Spot {
        process,
        place: *place as usize,
    };
    let Some(hint) = task.hints.at(process, own.place) else {
        return Ok(false);
    };
    let mut from = 0;
    for _ in 0..counts.len() {
        let process = task.hints.first(counts, from, Wanted::Call(hint.call));
        let Some(count) = counts.get(process) else {
            return Ok(false);
        };
        from = process + 1;
        let first = Spot {
            process,
            place: *count as usize,
        };
        if !are_alike(task.rows, first, own) {
            continue;
        }
        let Some(next) = next_of(task.rows, counts, process) else {
            continue;
        };
        if let Some(_state) = step_by(task, here, &next, calls)? {
            return Ok(true);
        }
    }
    Ok(false)
}

/// Whether a next call need not be tried, since an equal one comes first and may be taken as well.
pub(crate) fn is_behind<'a, O: Object>(
    task: &Task<'_, 'a, O>,
    here: &Here<O::State>,
    next: &Next,
    calls: &mut MadeCalls<'a, O::State>,
) -> Result<bool, NoMemory>
    requires next { IsNextOf task.now.rows.now here.now.found.now.counts.items next.now }
    requires worded { IsWorded O.meaning O.words_of here.now.found.now }
    requires made { AreMade O.meaning O.words_of (O.effect task.now.object.now) calls.old }
    ensures made { OnOk result (AreMade O.meaning O.words_of (O.effect task.now.object.now) calls.new) }
    ensures behind { (history : List (Event ObjectCall Reply)) → IsAt history task.now.rows.now here.now
        → IfOk result (λ behind. IsTrue behind → AreBehind (O.effect task.now.object.now) history (found_in O.meaning here.now.found.now) next.now.process) }
{
    if has_sooner(task, here, next) {
        return Ok(true);
    }
    if next.ended.is_some() {
        return Ok(false);
    }
    is_behind_any(task, here, next.process, calls)
}
