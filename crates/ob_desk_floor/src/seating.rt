//! Whether seats are those of a desk.

ghost use Rattle.std.specs.Prelude.{◌≡◌, ℕ, ◌<◌, All, IfNone, IfSome, IsFalse, IsTrue, MatchOption, Some, min};
ghost use Rattle.ob_desk_floor.specs.Close.{IsLowestStranger, IsLowestUneven, IsOwn, seats_at};
ghost use Rattle.ob_desk_floor.specs.Desk.{desk_in};

use crate::Seat;
use crate::terms::Terms;
use wf_theorems::CodedEngine;

/// The lowest process of a seat that is not the desk's.
pub fn first_stranger<E: CodedEngine>(terms: &Terms<E>, seats: &[Seat]) -> Option<usize>
    ensures none { IfNone result (All (IsOwn (desk_in E.code terms.now)) seats.now) }
    ensures some { IfSome result (IsLowestStranger (desk_in E.code terms.now) seats.now) }
{
    let mut first = None;
    for seat in seats {
        if !is_own(terms, seat) {
            first = Some(lower(first, seat.process()));
        }
    }
    first
}

/// Whether the seat is the desk's.
fn is_own<E: CodedEngine>(terms: &Terms<E>, seat: &Seat) -> bool
    ensures yes { IsTrue result → IsOwn (desk_in E.code terms.now) seat.now }
    ensures no { IsFalse result → ¬ (IsOwn (desk_in E.code terms.now) seat.now) }
{
    seat.tag() == terms.tag() && seat.process() < terms.processes()
}

/// The lower one of two processes, if there are two.
fn lower(first: Option<usize>, process: usize) -> usize
    ensures { MatchOption first (result ≡ process) (λ q. result ≡ min q process) }
{
    match first {
        None => process,
        Some(other) => other.min(process),
    }
}

/// The lowest process that has not just one seat.
pub fn first_uneven<E: CodedEngine>(terms: &Terms<E>, seats: &[Seat]) -> Option<usize>
    ensures none { IfNone result ((p : ℕ) → p < (desk_in E.code terms.now).processes → seats_at p seats.now ≡ 1) }
    ensures some { IfSome result (IsLowestUneven (desk_in E.code terms.now) seats.now) }
{
    for process in 0..terms.processes() {
        if count_seats(process, seats) != 1 {
            return Some(process);
        }
    }
    None
}

/// How many seats the process has.
fn count_seats(process: usize, seats: &[Seat]) -> usize
    ensures { result ≡ seats_at process seats.now }
{
    let mut count = 0;
    for seat in seats {
        if seat.process() == process {
            count += 1;
        }
    }
    count
}
