//! The part of a history that has a legal order.

ghost use Rattle.std.specs.Prelude.{◌≡◌, ◌≤◌, [], IfOk, IfErr, length, map};
ghost use Rattle.ob_object_draw.specs.Parts.{IsFaultIn, IsLegalIn, IsShown, effect_in, opening_in};
ghost use Rattle.ob_text_reading.specs.Names.{AreApart, AreBelow, named_all, named_id};
ghost use Rattle.wf_history.specs.History.{IsHistory};
ghost use Rattle.wf_history.specs.View.{event_of};
ghost use Rattle.wf_order.specs.Verdict.{HasLegal};

use ob_object_search::searching::named;
use ob_object_search::{ModuleObject, Search, SearchFault};
use std::alloc::{AllocError, Global};
use wf_history::{CallId, Event, History};
use wf_order::{Verdict, find_order};
use wf_parts::copied;

/// The first events of a history, so many, by a legal order: all, or those up to the end with which there ceases to be one. Then the
/// order is one of the events before it, and the call that ends there is told.
#[derive(Drop)]
pub struct Part {
    pub count: usize,
    pub order: Vec<CallId>,
    pub ceases: Option<CallId>,
}

/// The part of a history, whose processes have these names, by the names.
pub fn legal_part(
    alloc: Global,
    object: &ModuleObject,
    names: &[usize],
    history: &History,
    search: &Search,
) -> Result<Part, SearchFault>
    requires apart { AreApart names.now }
    requires below { AreBelow (length names.now) history.now }
    ensures shown { IfOk result (λ p. IsShown (effect_in object.now) (opening_in object.now) (named_all names.now history.now) p.count p.order.items p.ceases) }
    ensures within { IfOk result (λ p. p.count ≤ length history.now) }
    ensures fault { IfErr result (IsFaultIn object.now history.now names.now search.now.most) }
{
    match find_order(alloc, history, object, search.most, search.keys)? {
        Verdict::Legal(order) => Ok(Part {
            count: history.events().len(),
            order: named_ids(alloc, names, order.as_slice())?,
            ceases: None,
        }),
        Verdict::Illegal(id, place) => {
            let order = order_before(alloc, object, &history.events()[..place], search)?;
            Ok(Part {
                count: place + 1,
                order: named_ids(alloc, names, order.as_slice())?,
                ceases: Some(named(names, id)),
            })
        }
        Verdict::TooMany => Err(SearchFault::TooMany),
    }
}

/// A legal order of events that have one.
fn order_before(
    alloc: Global,
    object: &ModuleObject,
    events: &[Event],
    search: &Search,
) -> Result<Vec<CallId>, SearchFault>
    requires whole { IsHistory (map event_of events.now) }
    requires legal { HasLegal (effect_in object.now) (opening_in object.now) (map event_of events.now) }
    ensures order { IfOk result (λ order. IsLegalIn object.now (map event_of events.now) order.items) }
    ensures fault { IfErr result (IsFaultIn object.now (map event_of events.now) [] search.now.most) }
{
    let before = copied(alloc, events)?;
    match find_order(alloc, &before, object, search.most, search.keys)? {
        Verdict::Legal(order) => Ok(order),
        Verdict::Illegal(_, _) => unreachable!(),
        Verdict::TooMany => Err(SearchFault::TooMany),
    }
}

/// The calls, by the names of their processes.
fn named_ids(alloc: Global, names: &[usize], ids: &[CallId]) -> Result<Vec<CallId>, AllocError>
    ensures { IfOk result (λ named. named.items ≡ map (named_id names.now) ids.now) }
{
    ids.iter().map(|id| named(names, *id)).collect(alloc)
}
