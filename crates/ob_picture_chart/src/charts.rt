//! What a picture shows of a run: which calls, and in which column each of their events stands.

ghost use Rattle.std.specs.Prelude.{◌≡◌, ◌+◌, ◌<◌, ◌≤◌, ◌++◌, ◌^◌, IfErr, IfOk, OnOk, length, map};
ghost use Rattle.ob_picture_chart.specs.Charts.{begun, chart_of_calls, chosen_at, chosen_sight, placed, range_of, sights_from, time_behind, times_from};
ghost use Rattle.ob_picture_chart.specs.Faults.{IsRangeFault, MayBeShown, count, most_calls};
ghost use Rattle.ob_picture_chart.specs.ChartView.{chart_in, happening_of, moment_of, sight_of};

use crate::fault::PictureFault;
use crate::moments::Moment;
use crate::order::Order;
use std::alloc::{AllocError, Global};
use wf_history::{CallId, SeenCall, SeenReply};

/// The most calls that a picture has.
pub const MOST_CALLS: usize = 400;

/// Calls by their places in the order in which the calls of a run begin, from 1; those behind the last one are none.
#[derive(Clone, Copy, PartialEq, Eq)]
pub struct CallRange {
    pub from: usize,
    pub to: usize,
}

/// What happens to a call.
#[derive(Clone, Copy)]
pub enum Happening<'a> {
    Begun(SeenCall<'a>),
    /// It takes effect, as the one of this number in the order, by a step of the process, where it is known.
    Taken(usize, Option<usize>),
    Ended(SeenReply<'a>),
}

/// What happens to a call, and in which column of the picture.
#[derive(Clone, Copy)]
pub struct Sight<'a> {
    pub column: usize,
    pub id: CallId,
    pub happening: Happening<'a>,
}

/// What a picture shows.
#[derive(Drop)]
pub struct Chart<'a> {
    pub processes: usize,
    /// How many calls begin in the whole run.
    pub total: usize,
    /// The first and the last call that are shown, by their places among those.
    pub range: CallRange,
    pub sights: Vec<Sight<'a>>,
    /// Of each column its time: where its event stands among all of the whole run, from 1.
    pub times: Vec<usize>,
    /// The calls that are shown and took effect, in their order, each with its number in the order of the whole run.
    pub order: Vec<Placed>,
    /// The call that is marked, if one is.
    pub mark: Option<Mark<'a>>,
}

/// A call that a picture marks, and a line that says why.
#[derive(Clone, Copy)]
pub struct Mark<'a> {
    pub id: CallId,
    pub words: &'a str,
}

/// A call, with its number in an order.
#[derive(Clone, Copy)]
pub struct Placed {
    pub number: usize,
    pub id: CallId,
}

/// What a picture shows of the calls of a range, or of all.
pub fn chart_of<'a>(
    alloc: Global,
    processes: usize,
    moments: &[Moment<'a>],
    order: &[CallId],
    calls: Option<CallRange>,
) -> Result<Chart<'a>, PictureFault>
    ensures chart { IfOk result (λ c. chart_in c ≡ chart_of_calls processes (map moment_of moments.now) order.now calls) }
    ensures fault { IfErr result (IsRangeFault (length (begun (map moment_of moments.now))) calls) }
    ensures shown { OnOk result (MayBeShown (length (begun (map moment_of moments.now))) calls) }
{
    let begun = begun_calls(alloc, moments)?;
    let total = begun.len();
    let range = range_in(total, calls)?;
    let chosen = Order::new(alloc, &begun[range.from - 1..range.to])?;
    let known = Order::new(alloc, order)?;
    let (sights, times) = sights_of(alloc, moments, &known, &chosen)?;
    let order = placed_of(alloc, &known, &chosen)?;
    Ok(Chart {
        processes,
        total,
        range,
        sights,
        times,
        order,
        mark: None,
    })
}

/// The calls, in the order in which they begin.
fn begun_calls(alloc: Global, moments: &[Moment]) -> Result<Vec<CallId>, AllocError>
    ensures { IfOk result (λ ids. ids.items ≡ begun (map moment_of moments.now)) }
{
    let mut ids = Vec::new(alloc);
    for moment in moments {
        if let Moment::Begins(id, _) = moment {
            ids.push(*id)?;
        }
    }
    Ok(ids)
}

/// The calls of a range that there are.
fn range_in(total: usize, calls: Option<CallRange>) -> Result<CallRange, PictureFault>
    ensures range { IfOk result (λ r. r ≡ range_of total calls) }
    ensures ordered { IfOk result (λ r. (1 ≤ r.from) × (r.from ≤ r.to + 1) × (r.to ≤ total)) }
    ensures fault { IfErr result (IsRangeFault total calls) }
    ensures shown { OnOk result (MayBeShown total calls) }
{
    match calls {
        None => few_calls(CallRange { from: 1, to: total }),
        Some(CallRange { from, to }) => {
            let to = to.min(total);
            if from == 0 || to < from {
                return Err(PictureFault::NoCalls(total));
            }
            few_calls(CallRange { from, to })
        }
    }
}

/// The range, if it has no more calls than a picture.
fn few_calls(range: CallRange) -> Result<CallRange, PictureFault>
    requires { 1 ≤ range.from }
    ensures ok { IfOk result (λ r. (r ≡ range) × (count range ≤ most_calls)) }
    ensures fault { IfErr result (λ e. (e ≡ PictureFault.TooMany (count range)) × (most_calls < count range)) }
{
    let count = range.to.saturating_sub(range.from - 1);
    if count > MOST_CALLS {
        return Err(PictureFault::TooMany(count));
    }
    Ok(range)
}

/// What happens to the chosen calls, and the times of its columns. A moment at which nothing happens to them has none.
fn sights_of<'a>(
    alloc: Global,
    moments: &[Moment<'a>],
    order: &Order,
    chosen: &Order,
) -> Result<(Vec<Sight<'a>>, Vec<usize>), AllocError>
    ensures sights { IfOk result (λ r. map sight_of r.0.items ≡ sights_from order.now.ids.now chosen.now.ids.now 0 (map moment_of moments.now)) }
    ensures times { IfOk result (λ r. r.1.items ≡ times_from order.now.ids.now chosen.now.ids.now 0 1 (map moment_of moments.now)) }
{
    let mut sights = Vec::new(alloc);
    let mut times = Vec::new(alloc);
    let mut time = 1;
    for moment in moments {
        let before = sights.len();
        push_moment(&mut sights, *moment, order, chosen, times.len())?;
        if before < sights.len() {
            times.push(time)?;
        }
        time = time_behind(time, *moment);
    }
    Ok((sights, times))
}

/// The time behind a moment: those at which nothing happens are not counted.
fn time_behind(time: usize, moment: Moment) -> usize
    requires { time + 1 < 2 ^ 64 }
    ensures { result ≡ time_behind time (moment_of moment.entry) }
{
    match moment {
        Moment::Takes(ids, _) if ids.is_empty() => time,
        _ => time + 1,
    }
}

/// What happens to the chosen calls at a moment.
fn push_moment<'a>(
    sights: &mut Vec<Sight<'a>>,
    moment: Moment<'a>,
    order: &Order,
    chosen: &Order,
    column: usize,
) -> Result<(), AllocError>
    ensures { OnOk result (map sight_of sights.new.items ≡ map sight_of sights.old.items ++ chosen_at order.now.ids.now chosen.now.ids.now column (moment_of moment.entry)) }
{
    match moment {
        Moment::Begins(id, call) => {
            push_sight(sights, chosen, column, id, Happening::Begun(call))
        }
        Moment::Takes(ids, maker) => {
            for id in ids {
                let happening = Happening::Taken(order.place(*id), maker);
                push_sight(sights, chosen, column, *id, happening)?;
            }
            Ok(())
        }
        Moment::Ends(id, reply) => push_sight(sights, chosen, column, id, Happening::Ended(reply)),
    }
}

/// Appends what happens to a call, if it is chosen.
fn push_sight<'a>(
    sights: &mut Vec<Sight<'a>>,
    chosen: &Order,
    column: usize,
    id: CallId,
    happening: Happening<'a>,
) -> Result<(), AllocError>
    ensures { OnOk result (map sight_of sights.new.items ≡ map sight_of sights.old.items ++ chosen_sight chosen.now.ids.now column id (happening_of happening.entry)) }
{
    if chosen.has(id) {
        sights.push(Sight {
            column,
            id,
            happening,
        })?;
    }
    Ok(())
}

/// The chosen calls of an order, each with its number there.
fn placed_of(alloc: Global, order: &Order, chosen: &Order) -> Result<Vec<Placed>, AllocError>
    ensures { IfOk result (λ calls. calls.items ≡ placed order.now.ids.now chosen.now.ids.now) }
{
    let mut placed = Vec::new(alloc);
    for id in order.ids {
        if chosen.has(*id) {
            placed.push(Placed {
                number: order.place(*id),
                id: *id,
            })?;
        }
    }
    Ok(placed)
}
