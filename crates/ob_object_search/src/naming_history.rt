//! Events of a history, copied.

ghost use Rattle.std.specs.Prelude.{◌≡◌, IfOk, length};
ghost use Rattle.ob_text_reading.specs.Names.{AreApart, AreBelow, named, named_all};
ghost use Rattle.wf_history.specs.View.{seen_event};

use crate::searching::named;
use ob_interface::NoMemory;
use std::alloc::Global;
use wf_history::{History, SeenEvent};
use wf_parts::push_seen;

/// The event, by the name of its process.
fn named_event<'a>(names: &[usize], event: SeenEvent<'a>) -> SeenEvent<'a>
    ensures { seen_event result ≡ named names.now (seen_event event.entry) }
{
    match event {
        SeenEvent::Begin(id, call) => SeenEvent::Begin(named(names, id), call),
        SeenEvent::Applied(ids) => SeenEvent::Applied(ids),
        SeenEvent::End(id, reply) => SeenEvent::End(named(names, id), reply),
    }
}

/// The history, by the names of its processes.
pub fn named_history(alloc: Global, names: &[usize], history: &History) -> Result<History, NoMemory>
    requires apart { AreApart names.now }
    requires below { AreBelow (length names.now) history.now }
    ensures { IfOk result (λ named. named ≡ named_all names.now history.now) }
{
    let events = history.events();
    let mut copy = History::new(alloc);
    for event in events {
        push_seen(alloc, &mut copy, named_event(names, event.seen()))?;
    }
    Ok(copy)
}
