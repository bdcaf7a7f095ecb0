//! Desks that are closed over a floor.

ghost use Rattle.std.specs.Prelude.{◌<◌, ◌≤◌, IfOk};
ghost use Rattle.ob_object_compile.specs.Sound.{IsSoundObject};
ghost use Rattle.ob_object_compile.specs.View.{object_in};

use ob_code_engine::CodeEngine;
use ob_desk_floor::{CloseFault, Floor, Opening, Seat, Terms, settle};
use ob_desk_serve::object_desk::submissions;
use ob_layout::encode;
use ob_object_compile::laws::compilations_are_sound;
use ob_object_compile::{Object, compile};
use ob_text_scripts::read_scripts;
use std::alloc::Global;
use std::test::Fail;

const COUNTER: &[u8] =
    b"MODULE C; VAR x: INTEGER; PROCEDURE Inc*; BEGIN x := x + 1 END Inc; END C.";

/// The same with other code, and with another opening.
const BY_TWO: &[u8] = b"MODULE C; VAR x: INTEGER; PROCEDURE Inc*; BEGIN x := x + 2 END Inc; END C.";

const FROM_ONE: &[u8] =
    b"MODULE C; VAR x: INTEGER; PROCEDURE Inc*; BEGIN x := x + 1 END Inc; BEGIN x := 1 END C.";

/// The turns of each call of the desk.
const BUDGET: u64 = 100;

fn object_of(alloc: Global, text: &[u8], n: usize, budget: u64) -> Result<Object, Fail>
    ensures sound { IfOk result (λ o. IsSoundObject (object_in o)) }
    ensures some { IfOk result (λ _. 0 < n) }
    ensures few { IfOk result (λ _. n ≤ 16) }
{
    compilations_are_sound();
    Ok(compile(alloc, text, n, budget)?)
}

/// A floor of the module's object, without calls, and whether its values are said to be carried over.
fn floor_of(
    alloc: Global,
    text: &[u8],
    n: usize,
    budget: u64,
    carried: bool,
) -> Result<Floor<CodeEngine>, Fail> {
    let object = object_of(alloc, text, n, budget)?;
    let engine = object.engine().copy(alloc)?;
    let words = encode(alloc, object.opening())?;
    let opening = Opening { words, carried };
    Ok(Floor::new(alloc, engine, n, &opening, Vec::new(alloc))?)
}

/// What a desk of two processes of the counter keeps, with these calls.
fn terms_of(alloc: Global, calls: &[u8]) -> Result<Terms<CodeEngine>, Fail> {
    let object = object_of(alloc, COUNTER, 2, BUDGET)?;
    let scripts = read_scripts(alloc, object.checked(), 2, calls)?;
    let calls = submissions(alloc, scripts.calls())?;
    let engine = object.engine().copy(alloc)?;
    let opening = Opening {
        words: encode(alloc, object.opening())?,
        carried: false,
    };
    Ok(Terms::new(alloc, engine, 2, opening, calls.as_slice(), 0)?)
}

fn two_seats(alloc: Global) -> Result<Vec<Seat>, Fail> {
    let mut seats = Vec::new(alloc);
    seats.push(Seat::new(alloc, 0, 0))?;
    seats.push(Seat::new(alloc, 1, 0))?;
    Ok(seats)
}

/// What closing tells of such a desk over a floor.
fn told_over(
    alloc: Global,
    calls: &[u8],
    floor: Floor<CodeEngine>,
) -> Result<Option<CloseFault>, Fail> {
    let seats = two_seats(alloc)?;
    let terms = terms_of(alloc, calls)?;
    Ok(settle(&terms, floor, seats.as_slice()).err())
}

/// The same over a floor of the text.
fn told(
    alloc: Global,
    calls: &[u8],
    text: &[u8],
    n: usize,
    budget: u64,
) -> Result<Option<CloseFault>, Fail> {
    let floor = floor_of(alloc, text, n, budget, false)?;
    told_over(alloc, calls, floor)
}

/// Whether closing tells that the floor is not the desk's.
fn is_other_floor(
    alloc: Global,
    calls: &[u8],
    text: &[u8],
    n: usize,
    budget: u64,
) -> Result<bool, Fail> {
    let fault = told(alloc, calls, text, n, budget)?;
    Ok(matches!(fault, Some(CloseFault::OtherFloor)))
}

#[test]
fn a_floor_of_the_desk(rt: HostRuntime) -> Result<(), Fail> {
    assert!(rt; told(rt.alloc(), b"", COUNTER, 2, BUDGET)?.is_none());
    Ok(())
}

#[test]
fn a_floor_that_is_not_the_desks(rt: HostRuntime) -> Result<(), Fail> {
    assert!(rt; is_other_floor(rt.alloc(), b"", COUNTER, 1, BUDGET)?);
    assert!(rt; is_other_floor(rt.alloc(), b"", BY_TWO, 2, BUDGET)?);
    assert!(rt; is_other_floor(rt.alloc(), b"", FROM_ONE, 2, BUDGET)?);
    assert!(rt; is_other_floor(rt.alloc(), b"0 Inc\n", COUNTER, 2, BUDGET)?);
    Ok(())
}

/// The same words, but said to be carried over.
#[test]
fn a_floor_of_carried_values(rt: HostRuntime) -> Result<(), Fail> {
    let floor = floor_of(rt.alloc(), COUNTER, 2, BUDGET, true)?;
    let fault = told_over(rt.alloc(), b"", floor)?;
    assert!(rt; matches!(fault, Some(CloseFault::OtherFloor)));
    Ok(())
}

/// The same code, but calls that have one turn more.
#[test]
fn a_floor_of_another_budget(rt: HostRuntime) -> Result<(), Fail> {
    assert!(rt; is_other_floor(rt.alloc(), b"", COUNTER, 2, BUDGET + 1)?);
    Ok(())
}
