//! The workers of a desk, started and joined.

ghost use Rattle.std.specs.Prelude.{◌≤◌, IfOk};
ghost use Rattle.std.specs.Thread.{IsSync};
ghost use Rattle.ob_desk_serve.specs.WorkersGathered.{HaveWorked};
ghost use Rattle.ob_desk_serve.specs.Joined.{AreJoined, IsJoined};

use crate::gate::Gate;
use crate::worker::{PassedBy, Worked, promise, work_once_begun};
use ob_desk_floor::{Seat, TakeTurn};
use std::alloc::{AllocError, Global};
use std::sync::{RwLock, Wait};
use std::thread;
use std::thread::{PromisedHandle, Threads};

/// A worker's thread; none where it was not started.
type Start<D, G> = Option<PromisedHandle<Worked, PassedBy<D, G>>>;

/// Starts a worker for each seat, on a thread of its own, lets them begin together, and joins all. Gives what each hands back, in
/// the order of the seats; nothing for a seat whose worker was not started.
pub fn gather<R: Threads + Wait + Sync, D: TakeTurn + Sync, G: Gate + Sync>(
    rt: &R,
    alloc: Global,
    desk: &D,
    gate: &G,
    limit: u64,
    seats: Vec<Seat>,
) -> Result<Vec<Option<Worked>>, AllocError>
    requires { 1 ≤ limit }
    ensures { IfOk result (λ v. HaveWorked (G.passes gate.now) (G.refuses gate.now) (G.hears gate.now) (D.halts desk.now) limit seats.items v.items) }
{
    let beginning = RwLock::new(());
    let begun = &beginning;
    thread::scope(
        thread::scope_env(),
        rt,
        move |scope| -> Result<Vec<Option<Worked>>, AllocError>
            requires limit { 1 ≤ limit }
            requires shared { IsSync R.row × IsSync D.row × IsSync G.row }
            ensures { IfOk result (λ v. HaveWorked (G.passes gate.entry.now) (G.refuses gate.entry.now) (G.hears gate.entry.now) (D.halts desk.entry.now) limit seats.items v.items) }
        {
            let mut starts = Vec::with_capacity(alloc, seats.len())?;
            // While this is held no worker begins.
            let held = begun.write(rt);
            for seat in seats {
                let kept = promise(desk, gate, limit, &seat);
                let started = scope.spawn_with(kept, move || {
                    work_once_begun(rt, alloc, begun, desk, gate, limit, seat)
                });
                starts.push(started.ok())?;
            }
            // Each thread that could be started is there, so that short scripts overlap too.
            drop(held);
            join_all(rt, alloc, starts)
        },
    )
}

/// What the worker of each start hands back. Where memory wants, the scope waits for the others.
fn join_all<R: Threads + Wait, D: TakeTurn, G: Gate>(
    rt: &R,
    alloc: Global,
    starts: Vec<Start<D, G>>,
) -> Result<Vec<Option<Worked>>, AllocError>
    ensures { IfOk result (λ v. AreJoined G.passes G.refuses G.hears D.halts starts.items v.items) }
{
    let mut workers = Vec::with_capacity(alloc, starts.len())?;
    for start in starts {
        workers.push(joined(rt, start))?;
    }
    Ok(workers)
}

/// What the worker hands back, if it was started.
fn joined<R: Threads + Wait, D: TakeTurn, G: Gate>(rt: &R, start: Start<D, G>) -> Option<Worked>
    ensures { IsJoined G.passes G.refuses G.hears D.halts start result }
{
    match start {
        Some(handle) => Some(handle.join(rt)),
        None => None,
    }
}
