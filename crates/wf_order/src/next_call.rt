//! Which call of a configuration is tried next: the one that begins first.

ghost use Rattle.std.specs.Prelude.{◌≡◌, [], OnOk, MatchOption, length};
ghost use Rattle.wf_order.specs.Turns.{AreTurns, HasNone, IsFirstIn, IsNextOf};

use crate::kept_rows::Rows;
use crate::rows::{Begun, Ended};
use ob_interface::NoMemory;
use smallvec::SmallVec;

/// The next call of a process, and its end, where it ends.
#[derive(Clone, Copy)]
pub(crate) struct Next<'a> {
    pub process: usize,
    pub begun: Begun<'a>,
    pub ended: Option<Ended<'a>>,
}

/// The next call of a process, if it has one.
pub(crate) fn next_of<'a>(rows: &Rows<'_, 'a>, counts: &[u32], process: usize) -> Option<Next<'a>>
    ensures { MatchOption result (HasNone rows.now counts.now process) (λ next. (next.process ≡ process) × IsNextOf rows.now counts.now next) }
{
    let place = *counts.get(process)? as usize;
    let begun = rows.begun_at(process, place)?;
    let ended = rows.ended_at(process, place);
    Some(Next {
        process,
        begun,
        ended,
    })
}

/// A call that may be next, by its process and the place at which it begins.
#[derive(Clone, Copy, Default)]
pub(crate) struct Turn {
    pub process: usize,
    pub place: usize,
}

/// Puts the next calls that begin at a place or behind it, and before the limit, into a list without items.
pub(crate) fn turns_from(
    turns: &mut SmallVec<Turn, 8>,
    rows: &Rows,
    counts: &[u32],
    from: usize,
    limit: usize,
) -> Result<(), NoMemory>
    requires { turns.old.items ≡ [] }
    ensures { OnOk result (AreTurns rows.now counts.now (length counts.now) from limit turns.new.items) }
{
    for (process, count) in counts.iter().enumerate() {
        let Some(begun) = rows.begun_at(process, *count as usize) else {
            continue;
        };
        let place = begun.place;
        if place < limit && place >= from {
            turns.push(Turn { process, place })?;
        }
    }
    Ok(())
}

/// Of these calls the one that begins first, at a place or behind it. Where there is none, the place is the limit.
pub(crate) fn first_turn(turns: &[Turn], from: usize, limit: usize) -> Turn
    ensures { IsFirstIn turns.now from limit result }
{
    let mut first = Turn {
        process: 0,
        place: limit,
    };
    // Chosen without a jump, since the turns come in any order.
    for turn in turns {
        let turn = *turn;
        let comes_first = turn.place >= from && turn.place < first.place;
        first = if comes_first { turn } else { first };
    }
    first
}
