//! The replies that the calls of all scripts may have.

ghost use Rattle.std.specs.Prelude.{◌≡◌, ◌<◌, ◌++◌, length, map, get_or, [], IfOk, OnOk};
ghost use Rattle.wf_outcomes.specs.Explored.{calls_in};
ghost use Rattle.wf_outcomes.specs.OutcomeOrders.{AreCallsTold, calls_from, calls_of, id_told};
ghost use Rattle.wf_outcomes.specs.View.{call_in};

use crate::Explored;
use crate::reply_orders::{ToldReply, replies_told};
use ob_interface::NoMemory;
use std::alloc::Global;
use wf_history::CallId;
use wf_order::Object;

/// A call, and the replies that it may have.
#[derive(Drop)]
pub struct ToldCall {
    pub id: CallId,
    pub replies: Vec<ToldReply>,
}

/// Tells the calls of a process behind those that are told.
fn tell_script<O: Object>(
    alloc: Global,
    explored: &Explored<O>,
    process: usize,
    told: &mut Vec<ToldCall>,
) -> Result<(), NoMemory>
    requires process { process < length explored.now.scripts.now }
    requires told { AreCallsTold (O.effect explored.now.object.now) (calls_in explored.now.scripts.now) (O.opening explored.now.object.now) (map call_in told.old.items) }
    ensures listed { OnOk result (map id_told (map call_in told.new.items)
        ≡ map id_told (map call_in told.old.items) ++ calls_of process 1 (get_or (calls_in explored.now.scripts.now) process [])) }
    ensures told { OnOk result (AreCallsTold (O.effect explored.now.object.now) (calls_in explored.now.scripts.now) (O.opening explored.now.object.now)
        (map call_in told.new.items)) }
{
    for made in 0..explored.scripts[process].len() {
        let number = made as u64 + 1;
        let id = CallId { process, number };
        let replies = replies_told(alloc, explored, id)?;
        told.push(ToldCall { id, replies })?;
    }
    Ok(())
}

/// The replies that each call of the scripts may have, by process and number.
pub fn calls_told<O: Object>(
    alloc: Global,
    explored: &Explored<O>,
) -> Result<Vec<ToldCall>, NoMemory>
    ensures listed { IfOk result (λ told. map id_told (map call_in told.items) ≡ calls_from 0 (calls_in explored.now.scripts.now)) }
    ensures told { IfOk result (λ told. AreCallsTold (O.effect explored.now.object.now) (calls_in explored.now.scripts.now) (O.opening explored.now.object.now)
        (map call_in told.items)) }
{
    let mut told = Vec::new(alloc);
    for process in 0..explored.scripts.len() {
        tell_script(alloc, explored, process, &mut told)?;
    }
    Ok(told)
}
