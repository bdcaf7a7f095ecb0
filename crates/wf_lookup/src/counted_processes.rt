//! How many processes a history has, and a record of it.

ghost use Rattle.std.specs.Prelude.{◌≡◌, ◌<◌, ◌≤◌, ◌^◌, ℕ, Contains, IfSome, MatchOption, None, map};
ghost use Rattle.ob_interface.specs.Call.{ObjectCall, Reply};
ghost use Rattle.ob_interface.specs.Processes.{most_processes};
ghost use Rattle.wf_lookup.specs.Beginnings.{IsOfProcesses, needed, process_count};
ghost use Rattle.wf_history.specs.History.{Event as AnyEvent};
ghost use Rattle.wf_history.specs.View.{event_of};

use ob_interface::MOST_PROCESSES;
use wf_history::{Event, SeenEvent};

/// A number of processes, made large enough for an event.
fn enough_for(event: &Event, processes: usize) -> Option<usize>
    ensures enough { IfSome result (λ count. (processes ≤ count) × IsOfProcesses count (event_of event.now)) }
    ensures least { IfSome result (λ count. (n : ℕ) → processes ≤ n → IsOfProcesses n (event_of event.now) → count ≤ n) }
    ensures many { result ≡ None → 2 ^ 64 ≤ needed (event_of event.now) }
{
    match event.seen() {
        SeenEvent::Applied(_) => Some(processes),
        SeenEvent::Begin(id, _) | SeenEvent::End(id, _) => {
            Some(processes.max(id.process.checked_add(1)?))
        }
    }
}

/// One more than the largest process of the events, if it is a number.
pub fn processes_of(events: &[Event]) -> Option<usize>
    ensures enough { IfSome result (λ count. (event : AnyEvent ObjectCall Reply) → Contains (map event_of events.now) event → IsOfProcesses count event) }
    ensures least { IfSome result (λ count. (n : ℕ) → ((event : AnyEvent ObjectCall Reply) → Contains (map event_of events.now) event → IsOfProcesses n event) → count ≤ n) }
    ensures many { result ≡ None → 2 ^ 64 ≤ process_count (map event_of events.now) }
{
    let mut count = 0;
    for event in events {
        count = enough_for(event, count)?;
    }
    Some(count)
}

/// How many processes events need, where they are no more than a record may have.
pub fn process_count(events: &[Event]) -> Option<usize>
    ensures { MatchOption result (most_processes < process_count (map event_of events.now))
        (λ count. (count ≡ process_count (map event_of events.now)) × (count ≤ most_processes)) }
{
    let Some(named) = processes_of(events) else {
        return None;
    };
    // A record has at least one process.
    let count = named.max(1);
    if count > MOST_PROCESSES {
        return None;
    }
    Some(count)
}
