//! What is known of each call before the search, so that less is asked. It says where to ask, and the answers alone count.

use crate::kept_rows::Rows;
use crate::rows::{Begun, Ended};
use crate::searched_object::Object;
use ob_interface::NoMemory;
use std::alloc::{AllocError, Global};
use wf_history::{SeenCall, SeenReply};
use wf_lookup::numbers::{SPREAD, number_of};

/// Of a call.
#[derive(Clone, Copy)]
pub(crate) struct Hint {
    /// The place at which it begins, where it has ended and the object tells it to be silent, and else one behind all events.
    quiet: u32,
    /// A number that equal calls have in common.
    pub call: u32,
    /// A number that equal calls with the same reply have in common, and those that have not ended.
    pub looks: u32,
}

/// What is looked for among the next calls.
#[derive(Clone, Copy)]
pub(crate) enum Wanted {
    /// A silent one that begins before this limit.
    Quiet(usize),
    /// One with this number of calls.
    Call(u32),
    /// One with this number of calls and replies.
    Like(u32),
}

/// The hints of each process, by the place of a call in the row. And up to which place a silent call may be left where the first end that is
/// not taken is there: up to any, where one does more than read; else up to the first end, since from there on what only reads is passed over.
#[derive(Drop)]
pub(crate) struct Hints {
    rows: Vec<Vec<Hint>>,
    pub until: usize,
}

impl Hints {
    /// Of the calls in these rows.
    pub(crate) fn of<O: Object>(alloc: Global, object: &O, rows: &Rows) -> Result<Hints, NoMemory> {
        let mut hints = Vec::with_capacity(alloc, rows.begun.len())?;
        let mut until = rows.events;
        let mut others = false;
        for (begun, ended) in rows.begun.iter().zip(rows.ended.iter()) {
            let (row, has_others) = hint_row(alloc, object, begun.as_slice(), ended.as_slice())?;
            hints.push(row)?;
            others |= has_others;
            if let Some(end) = ended.first() {
                until = until.min(end.place);
            }
        }
        if others {
            until = usize::MAX;
        }
        Ok(Hints { rows: hints, until })
    }

    /// Of a call, by its process and its place in the row.
    #[inline(always)]
    pub(crate) fn at(&self, process: usize, place: usize) -> Option<Hint> {
        self.rows.get(process)?.get(place).copied()
    }

    /// The first process, of this one and those behind it, whose next call is wanted; where there is none, one behind all of them.
    #[inline(always)]
    pub(crate) fn first(&self, counts: &[u32], from: usize, wanted: Wanted) -> usize {
        let (Some(rows), Some(left)) = (self.rows.get(from..), counts.get(from..)) else {
            return counts.len();
        };
        let mut process = from;
        for (row, count) in rows.iter().zip(left) {
            if let Some(hint) = row.get(*count as usize) {
                let is_wanted = match wanted {
                    Wanted::Quiet(limit) => (hint.quiet as usize) < limit,
                    Wanted::Call(call) => hint.call == call,
                    Wanted::Like(looks) => hint.looks == looks,
                };
                if is_wanted {
                    return process;
                }
            }
            process = process.wrapping_add(1);
        }
        counts.len()
    }
}

/// Of the calls of a process, and whether some that are silent do more than read.
fn hint_row<O: Object>(
    alloc: Global,
    object: &O,
    begun: &[Begun],
    ended: &[Ended],
) -> Result<(Vec<Hint>, bool), AllocError> {
    let mut row = Vec::with_capacity(alloc, begun.len())?;
    let mut others = false;
    for (place, call) in begun.iter().enumerate() {
        let number = number_of_call(call.call);
        let mut hint = Hint {
            quiet: u32::MAX,
            call: (number.wrapping_mul(SPREAD) >> 32) as u32,
            looks: 0,
        };
        if let Some(end) = ended.get(place) {
            let both = number
                .wrapping_mul(31)
                .wrapping_add(number_of_reply(end.reply));
            hint.looks = (both.wrapping_mul(SPREAD) >> 32) as u32;
            if object.is_silent(call.call, end.reply) {
                hint.quiet = u32::try_from(call.place).unwrap_or(u32::MAX);
                others |= !object.is_reader(call.call);
            }
        }
        row.push(hint)?;
    }
    Ok((row, others))
}

/// A number of a call: of its procedure and the first argument.
fn number_of_call(call: SeenCall) -> u64 {
    let argument = match call.args.lent().as_slice().first() {
        Some(scalar) => number_of(*scalar),
        None => 0,
    };
    (call.proc as u64).wrapping_mul(31).wrapping_add(argument)
}

/// A number of a reply: of the first value.
fn number_of_reply(reply: SeenReply) -> u64 {
    match reply {
        SeenReply::Done(values) => match values.lent().as_slice().first() {
            Some(scalar) => number_of(*scalar),
            None => 1,
        },
        SeenReply::Trap(_) => 2,
    }
}
