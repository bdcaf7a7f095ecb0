//! The end of a desk: seats and floor are compared, and the machine is given.

ghost use Rattle.std.specs.Prelude.{◌≡◌, ◌<◌, ℕ, All, IfErr, IfNone, IfOk, IfSome, IsFalse, IsTrue, OnOk};
ghost use Rattle.ob_desk_floor.specs.Close.{AgreeAt, AreSeats, IsCloseFault, IsClosed, IsLowestApart, IsOf};
ghost use Rattle.ob_desk_floor.specs.Desk.{desk_in};
ghost use Rattle.ob_desk_floor.specs.Agreeing.{Agrees};

use crate::agreeing::agree;
use crate::fault::CloseFault;
use crate::same_calls::{same_submissions, same_words};
use crate::seating::{first_stranger, first_uneven};
use crate::terms::Terms;
use crate::{Floor, Seat};
use wf_object::{Engine, Machine};
use wf_theorems::CodedEngine;

/// Compares the seats with what a desk keeps, the floor with that, and the seats with the floor; and gives the floor's machine.
pub fn settle<E: CodedEngine>(
    terms: &Terms<E>,
    floor: Floor<E>,
    seats: &[Seat],
) -> Result<Machine<E>, CloseFault>
    ensures is { IfOk result (λ m. m ≡ floor.machine) }
    ensures machine { IfOk result (IsClosed E.code E.meaning E.lawful E.fits E.ready (desk_in E.code terms.now)) }
    ensures floor { OnOk result (IsOf E.code (desk_in E.code terms.now) floor) }
    ensures seats { OnOk result (AreSeats (desk_in E.code terms.now) seats.now) }
    ensures agree { IfOk result (λ m. All (Agrees m.state.records.history m.state.records.schedule) seats.now) }
    ensures fault { IfErr result (IsCloseFault E.code (desk_in E.code terms.now) floor seats.now) }
{
    if let Some(process) = first_stranger(terms, seats) {
        return Err(CloseFault::Stranger(process));
    }
    if let Some(process) = first_uneven(terms, seats) {
        return Err(CloseFault::Uneven(process));
    }
    if !is_of(terms, &floor) {
        return Err(CloseFault::OtherFloor);
    }
    if let Some(process) = first_apart(&floor, seats) {
        return Err(CloseFault::Disagrees(process));
    }
    Ok(floor.into_machine())
}

/// Whether the floor is the one that the desk keeps.
fn is_of<E: CodedEngine>(terms: &Terms<E>, floor: &Floor<E>) -> bool
    ensures yes { IsTrue result → IsOf E.code (desk_in E.code terms.now) floor.now }
    ensures no { IsFalse result → ¬ (IsOf E.code (desk_in E.code terms.now) floor.now) }
{
    let machine = floor.machine();
    if floor.processes() != terms.processes() {
        return false;
    }
    if !machine.engine().is_same(terms.engine()) {
        return false;
    }
    if !same_words(machine.opening(), terms.opening()) {
        return false;
    }
    if floor.carried() != terms.carried() {
        return false;
    }
    same_submissions(floor.scripts(), terms.scripts())
}

/// The lowest process whose seats don't agree with the floor.
fn first_apart<E: Engine>(floor: &Floor<E>, seats: &[Seat]) -> Option<usize>
    ensures none { IfNone result ((p : ℕ) → p < floor.now.machine.sizes.processes → AgreeAt floor.now seats.now p) }
    ensures some { IfSome result (IsLowestApart floor.now seats.now) }
{
    let events = floor.machine().history().events();
    let counts = floor.counts();
    for process in 0..counts.len() {
        if !agree(process, counts[process], events, seats) {
            return Some(process);
        }
    }
    None
}
