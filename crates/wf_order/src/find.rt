//! A legal order of a history, or where it ceases to have one.

ghost use Rattle.std.specs.Prelude.{◌≡◌, ◌<◌, ◌≤◌, ◌-◌, ℕ, List, map, length, take, Some, IfOk, IfSome, slice_get};
ghost use Rattle.ob_interface.specs.Call.{ObjectCall, Reply};
ghost use Rattle.wf_history.specs.History.{Event as AnyEvent, End, IsHistory};
ghost use Rattle.wf_history.specs.View.{event_of};
ghost use Rattle.wf_order.specs.declared.find.Verdict.TheVariants as Verdicts;
ghost use Rattle.wf_order.specs.Fronts.{IsFarthest, IsFound};
ghost use Rattle.wf_order.specs.Rows.{AreRows, begun_rows, total};
ghost use Rattle.wf_lookup.specs.Beginnings.{AreOfProcesses};
ghost use Rattle.wf_order.specs.Search.{all_counts, all_found, AreWorded, IsAnswer, IsWholeSearch};
ghost use Rattle.wf_order.specs.Verdict.{HasLegal, IsBetween, IsHalved, IsLastFound, IsVerdict, enough};

use crate::front::{Front, farthest_of, frames_behind, go_on};
use crate::hints::Hints;
use crate::kept_rows::Rows;
use crate::rows::rows_of;
use crate::search::{Answer, search};
use crate::searched_object::Object;
use crate::seen::Seen;
use crate::step::Task;
use ob_interface::NoMemory;
use std::alloc::Global;
use std::hash::RandomState;
use wf_history::{CallId, Event, History, SeenEvent};
use wf_lookup::counted_processes::processes_of;
use wf_lookup::keys::Keys;

/// What is found of a history.
#[derive(Drop)]
pub enum Verdict {
    /// These calls, in this order, are a legal order.
    Legal(Vec<CallId>),
    /// The history up to the end of this call, which is the event at this place, has no legal order, and up to the event
    /// before it has one.
    Illegal(CallId, usize),
    /// More configurations were found than were to be looked at.
    TooMany,
}

/// A history of so many processes on an object, with its rows and its silent calls, and the most configurations to be looked at.
#[derive(Drop)]
struct Question<'r, 'a, O> {
    alloc: Global,
    events: &'a [Event],
    rows: &'r Rows<'r, 'a>,
    hints: &'r Hints,
    object: &'a O,
    processes: usize,
    most: usize,
    keys: RandomState,
}

/// What a search of the first events comes to.
fn front_answer<O: Object>(question: &Question<O>, count: usize) -> Result<Answer, NoMemory>
    requires history { IsHistory (map event_of question.now.events.now) }
    requires few { AreOfProcesses question.now.processes (map event_of question.now.events.now) }
    requires within { count ≤ length question.now.events.now }
    ensures { IfOk result (IsAnswer (O.effect question.now.object.now) (O.opening question.now.object.now)
        (take count (map event_of question.now.events.now)) question.now.processes question.now.most) }
{
    let alloc = question.alloc;
    let processes = question.processes;
    let events = &question.events[..count];
    let kept = rows_of(alloc, events, processes)?;
    let rows = kept.rows();
    let task = Task {
        alloc,
        events,
        object: question.object,
        rows: &rows,
        hints: question.hints,
    };
    let mut seen = Seen::with_hasher(alloc, Keys::new(question.keys));
    search(&task, &mut seen, processes, question.most)
}

/// What the search of all events tells of the first ones, so many that each configuration that it found ends among them. From
/// those whose next calls end behind them it goes on, and then they are as they were.
fn front_by_found<O: Object>(
    question: &Question<O>,
    seen: &mut Seen<O::State>,
    count: usize,
) -> Result<Front, NoMemory>
    requires history { IsHistory (map event_of question.now.events.now) }
    requires few { AreOfProcesses question.now.processes (map event_of question.now.events.now) }
    requires rows { AreRows (map event_of question.now.events.now) question.now.processes question.now.rows.now }
    requires search { IsWholeSearch (O.effect question.now.object.now) (O.opening question.now.object.now) (map event_of question.now.events.now)
        question.now.processes (all_found O.meaning seen.old) }
    requires worded { AreWorded O.meaning O.words_of seen.old }
    requires farthest { (farthest : ℕ) × (farthest < count) × IsFarthest (map event_of question.now.events.now) (all_counts seen.old) farthest }
    requires within { count ≤ length question.now.events.now }
    ensures front { IfOk result (IsFound (O.effect question.now.object.now) (O.opening question.now.object.now) (take count (map event_of question.now.events.now))) }
    ensures same { IfOk result (λ front. seen.new.keys ≡ seen.old.keys) }
{
    let alloc = question.alloc;
    let processes = question.processes;
    let rows = question.rows.first(count);
    let task = Task {
        alloc,
        events: &question.events[..count],
        object: question.object,
        rows: &rows,
        hints: question.hints,
    };
    let size = seen.len();
    let stack = frames_behind(alloc, question.rows, seen, count)?;
    let front = go_on(&task, seen, stack, processes, question.most)?;
    seen.truncate(size);
    Ok(front)
}

/// Of what is between a beginning that has a legal order and one that has none, the part before a place or the one behind it, by a
/// search of its own.
fn halved_by_search<O: Object>(
    question: &Question<O>,
    legal: usize,
    illegal: usize,
    middle: usize,
) -> Result<Option<(usize, usize)>, NoMemory>
    requires history { IsHistory (map event_of question.now.events.now) }
    requires few { AreOfProcesses question.now.processes (map event_of question.now.events.now) }
    requires between { IsBetween (O.effect question.now.object.now) (O.opening question.now.object.now) (map event_of question.now.events.now) legal illegal }
    requires lower { legal < middle }
    requires upper { middle < illegal }
    ensures halved { IfOk result (IsHalved (O.effect question.now.object.now) (O.opening question.now.object.now)
        (map event_of question.now.events.now) question.now.processes question.now.most (illegal - legal)) }
    ensures higher { IfOk result (λ half. IfSome half (λ h. legal ≤ h.0)) }
{
    match front_answer(question, middle)? {
        Answer::Order(_) => Ok(Some((middle, illegal))),
        Answer::NoOrder => Ok(Some((legal, middle))),
        Answer::TooMany => Ok(None),
    }
}

/// The same, by what the search of all events found, where that tells it.
fn halved<O: Object>(
    question: &Question<O>,
    seen: &mut Seen<O::State>,
    legal: usize,
    illegal: usize,
    middle: usize,
) -> Result<Option<(usize, usize)>, NoMemory>
    requires history { IsHistory (map event_of question.now.events.now) }
    requires few { AreOfProcesses question.now.processes (map event_of question.now.events.now) }
    requires rows { AreRows (map event_of question.now.events.now) question.now.processes question.now.rows.now }
    requires search { IsWholeSearch (O.effect question.now.object.now) (O.opening question.now.object.now) (map event_of question.now.events.now)
        question.now.processes (all_found O.meaning seen.old) }
    requires worded { AreWorded O.meaning O.words_of seen.old }
    requires farthest { (farthest : ℕ) × (farthest ≤ legal) × IsFarthest (map event_of question.now.events.now) (all_counts seen.old) farthest }
    requires between { IsBetween (O.effect question.now.object.now) (O.opening question.now.object.now) (map event_of question.now.events.now) legal illegal }
    requires lower { legal < middle }
    requires upper { middle < illegal }
    ensures halved { IfOk result (IsHalved (O.effect question.now.object.now) (O.opening question.now.object.now)
        (map event_of question.now.events.now) question.now.processes question.now.most (illegal - legal)) }
    ensures higher { IfOk result (λ half. IfSome half (λ h. legal ≤ h.0)) }
    ensures same { IfOk result (λ half. seen.new.keys ≡ seen.old.keys) }
{
    match front_by_found(question, seen, middle)? {
        Front::Legal => Ok(Some((middle, illegal))),
        Front::Illegal => Ok(Some((legal, middle))),
        Front::Unknown => halved_by_search(question, legal, illegal, middle),
    }
}

/// The largest number of first events that have a legal order, where all have none, by what the search of all found. Those have
/// one that a configuration takes, and mostly one event more has none. Else wider and wider steps are taken, and then halves.
fn last_legal<O: Object>(
    question: &Question<O>,
    seen: &mut Seen<O::State>,
) -> Result<Option<usize>, NoMemory>
    requires history { IsHistory (map event_of question.now.events.now) }
    requires few { AreOfProcesses question.now.processes (map event_of question.now.events.now) }
    requires rows { AreRows (map event_of question.now.events.now) question.now.processes question.now.rows.now }
    requires search { IsWholeSearch (O.effect question.now.object.now) (O.opening question.now.object.now) (map event_of question.now.events.now)
        question.now.processes (all_found O.meaning seen.old) }
    requires worded { AreWorded O.meaning O.words_of seen.old }
    requires none { ¬ HasLegal (O.effect question.now.object.now) (O.opening question.now.object.now) (map event_of question.now.events.now) }
    ensures { IfOk result (IsLastFound (O.effect question.now.object.now) (O.opening question.now.object.now)
        (map event_of question.now.events.now) question.now.processes question.now.most) }
{
    let mut legal = farthest_of(question.rows, seen);
    let mut illegal = question.events.len();
    let mut step: usize = 1;
    while illegal - legal > 1 {
        // So far behind the first place, but no farther than half of the way.
        let half = (illegal - legal) / 2;
        let middle = if step == 0 || step >= half {
            legal + half
        } else {
            legal + step
        };
        let Some((more, less)) = halved(question, seen, legal, illegal, middle)? else {
            return Ok(None);
        };
        legal = more;
        illegal = less;
        step = step.saturating_mul(2);
    }
    Ok(Some(legal))
}

/// The call that ends at a place.
fn end_at(events: &[Event], place: usize) -> CallId
    requires { (id : CallId) × (reply : Reply) × (slice_get (map event_of events.now) place ≡ Some (End id reply)) }
    ensures { (reply : Reply) × (slice_get (map event_of events.now) place ≡ Some (End result reply)) }
{
    match events[place].seen() {
        SeenEvent::End(id, _) => id,
        _ => unreachable!(),
    }
}

/// What is found of the events.
fn verdict_of<O: Object>(question: &Question<O>) -> Result<Verdict, NoMemory>
    requires history { IsHistory (map event_of question.now.events.now) }
    requires few { AreOfProcesses question.now.processes (map event_of question.now.events.now) }
    requires rows { AreRows (map event_of question.now.events.now) question.now.processes question.now.rows.now }
    requires calls { total (begun_rows question.now.rows.now) ≤ length question.now.events.now }
    ensures verdict { IfOk result (IsVerdict (O.effect question.now.object.now) (O.opening question.now.object.now) (map event_of question.now.events.now) question.now.most) }
    ensures decided { enough question.now.processes (length question.now.events.now) ≤ question.now.most → IfOk result (λ verdict. ¬ (verdict ≡ Verdicts.TooMany)) }
{
    let task = Task {
        alloc: question.alloc,
        events: question.events,
        object: question.object,
        rows: question.rows,
        hints: question.hints,
    };
    let mut seen = Seen::with_hasher(question.alloc, Keys::new(question.keys));
    match search(&task, &mut seen, question.processes, question.most)? {
        Answer::Order(order) => Ok(Verdict::Legal(order)),
        Answer::TooMany => Ok(Verdict::TooMany),
        Answer::NoOrder => match last_legal(question, &mut seen)? {
            Some(place) => Ok(Verdict::Illegal(end_at(question.events, place), place)),
            None => Ok(Verdict::TooMany),
        },
    }
}

/// A legal order of a history on an object, or the end with which it ceases to have one, where no more than so many
/// configurations are to be looked at. Applied events are not looked at. The keys are those of the table of what was found.
pub fn find_order<O: Object>(
    alloc: Global,
    history: &History,
    object: &O,
    most: usize,
    keys: RandomState,
) -> Result<Verdict, NoMemory>
    ensures verdict { IfOk result (IsVerdict (O.effect object.now) (O.opening object.now) history.now most) }
    // With enough configurations no history is left undecided.
    ensures decided { (processes : ℕ) → AreOfProcesses processes history.now → enough processes (length history.now) ≤ most
        → IfOk result (λ verdict. ¬ (verdict ≡ Verdicts.TooMany)) }
{
    let events = history.events();
    // A row for each process would not fit into memory.
    let Some(processes) = processes_of(events) else {
        return Err(NoMemory);
    };
    let kept = rows_of(alloc, events, processes)?;
    let rows = kept.rows();
    let hints = Hints::of(alloc, object, &rows)?;
    let question = Question {
        alloc,
        events,
        rows: &rows,
        hints: &hints,
        object,
        processes,
        most,
        keys,
    };
    verdict_of(&question)
}
