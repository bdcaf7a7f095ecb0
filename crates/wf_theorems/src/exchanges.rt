//! What holds of the commits of every run.

ghost use Rattle.std.specs.Prelude.{ℕ};
ghost use Rattle.ob_interface.specs.Call.{Reply};
ghost use Rattle.wf_history.specs.declared.event.CallId.{CallId};
ghost use Rattle.wf_history.specs.Legal.{NoRepeats};
ghost use Rattle.wf_table.specs.declared.process.Sizes.{Sizes};
ghost use Rattle.wf_table.specs.Object.{State};
ghost use Rattle.wf_table.specs.HelpAndOrder.{IsCommitted};
ghost use Rattle.wf_theorems.specs.Exchanges.{EndedIsInOrder, EveryRunIsCommitted, ExchangePutsOlder, ExchangePutsOwn, OrderIsInTime};
ghost use Rattle.wf_theorems.specs.Exchanges.{OrderWasAnnounced, ServedIsNew, ServedIsOpen, ServedIsWanted, ServedIsWhole, TwoExchangesPut};
ghost use Rattle.wf_theorems.specs.Exchanges.{TwoRoundsPut};

use wf_object::engine::Engine;

/// Every run of an object, whatever the schedule and the submitted calls, keeps what is said of commits.
pub fn every_commit<E: Engine>()
    ensures { (e : E) → EveryRunIsCommitted (E.meaning e) (E.lawful e) (E.fits e) (E.ready e) }
{}

/// The second commit. An exchange by process p puts its own call in the order, and that of each process k
/// whose call was announced before the last exchange. So a call is in the order once two exchanges came
/// after its FLIP, and a process that has lost two rounds finds its own call there.
pub fn second_commit<E: Engine>()
    ensures own { (e : E) → ExchangePutsOwn (E.meaning e) (E.lawful e) (E.fits e) (E.ready e) }
    ensures older { (e : E) → ExchangePutsOlder (E.meaning e) (E.lawful e) (E.fits e) (E.ready e) }
    ensures two_exchanges { (e : E) (z : Sizes) (s : State E.Run) (k : ℕ) → TwoExchangesPut z s k }
    ensures two_rounds { (e : E) → TwoRoundsPut (E.meaning e) (E.lawful e) (E.fits e) (E.ready e) }
{}

/// The order has no call twice, and each that it has was announced by a process of the object. Each call
/// that ended is in it. Of two calls of the order the later one did not end before the earlier one began.
pub fn one_order<E: Engine>()
    ensures once { (e : E) (z : Sizes) (s : State E.Run) → IsCommitted z s → NoRepeats s.records.order }
    ensures announced { (e : E) (z : Sizes) (s : State E.Run) (id : CallId) → OrderWasAnnounced z s id }
    ensures ended { (e : E) (z : Sizes) (s : State E.Run) (id : CallId) (reply : Reply) → EndedIsInOrder z s id reply }
    ensures in_time { (e : E) (z : Sizes) (s : State E.Run) → OrderIsInTime z s }
{}

/// A linked process at CHECK2 has the whole announcement of the open call of the process that it serves.
/// That call is not in the order, and is not yet made in the own block: there its toggle differs from the
/// announced one.
pub fn served_call<E: Engine>()
    ensures whole { (e : E) → ServedIsWhole (E.meaning e) (E.lawful e) (E.fits e) (E.ready e) }
    ensures is_open { (e : E) → ServedIsOpen (E.meaning e) (E.lawful e) (E.fits e) (E.ready e) }
    ensures is_new { (e : E) → ServedIsNew (E.meaning e) (E.lawful e) (E.fits e) (E.ready e) }
    ensures wanted { (e : E) → ServedIsWanted (E.meaning e) (E.lawful e) (E.fits e) (E.ready e) }
{}
