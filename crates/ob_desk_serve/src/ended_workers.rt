//! What is made of a desk's workers when all have ended.

ghost use Rattle.std.specs.Prelude.{◌≡◌, IfErr, IfNone, IfOk, IfSome};
ghost use Rattle.ob_desk_serve.specs.NotAllEnded.{AreBack, AreSplit, IsFirst, IsGatherFault, NoneEnded, how_ended};

use crate::fault::ServeFault;
use crate::{Ended, Worked};
use ob_desk_floor::{CallAnswer, Seat};
use std::alloc::{AllocError, Global};

/// The seats that workers handed back, and the answers of each, in the order of their processes.
#[derive(Drop)]
pub struct HandedBack {
    pub seats: Vec<Seat>,
    pub answers: Vec<Vec<CallAnswer>>,
}

/// The seats and the answers, where every worker was started and ended well.
pub fn handed_back(alloc: Global, workers: Vec<Option<Worked>>) -> Result<HandedBack, ServeFault>
    ensures back { IfOk result (AreBack workers.items) }
    ensures fault { IfErr result (IsGatherFault workers.items) }
{
    let all = workers.as_slice();
    if let Some(process) = first(all, None) {
        return Err(ServeFault::NotStarted(process));
    }
    if first(all, Some(Ended::NoMemory)).is_some() {
        return Err(ServeFault::NoMemory);
    }
    if let Some(process) = first(all, Some(Ended::Refused)) {
        return Err(ServeFault::Refused(process));
    }
    Ok(split(alloc, workers)?)
}

/// The lowest process whose worker ended so; or, for none, was not started.
fn first(workers: &[Option<Worked>], which: Option<Ended>) -> Option<usize>
    ensures none { IfNone result (NoneEnded which workers.now) }
    ensures some { IfSome result (IsFirst which workers.now) }
{
    for process in 0..workers.len() {
        if ended_of(&workers[process]) == which {
            return Some(process);
        }
    }
    None
}

/// How a worker ended, if it was started.
fn ended_of(worker: &Option<Worked>) -> Option<Ended>
    ensures { result ≡ how_ended worker.now }
{
    match worker {
        Some(worked) => Some(worked.ended),
        None => None,
    }
}

/// The seats and the answers of the workers that were started.
fn split(alloc: Global, workers: Vec<Option<Worked>>) -> Result<HandedBack, AllocError>
    ensures { IfOk result (AreSplit workers.items) }
{
    let mut seats = Vec::with_capacity(alloc, workers.len())?;
    let mut answers = Vec::with_capacity(alloc, workers.len())?;
    for worker in workers {
        if let Some(worked) = worker {
            seats.push(worked.seat)?;
            answers.push(worked.answers)?;
        }
    }
    Ok(HandedBack { seats, answers })
}
