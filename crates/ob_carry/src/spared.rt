//! The procedures that spare the module's variables, with all that they may call.

ghost use Rattle.std.specs.Prelude.{◌≡◌, ◌<◌, IfOk, length, true, false};
ghost use Rattle.ob_carry.specs.ReadOnlyExports.{AllKeep, HasAll, IsClosed, StaysIn, in_flags};

use crate::sparing_calls::all_calls;
use ob_checked::program::Procedure;
use ob_interface::no_memory::NoMemory;
use std::alloc::Global;

/// Whether the procedure of this number is told.
pub fn is_told(told: &[bool], number: usize) -> bool
    ensures { result ≡ in_flags told.now number }
{
    match told.get(number) {
        Some(flag) => *flag,
        None => false,
    }
}

/// Whether all of these calls are of procedures that are told.
fn all_told(told: &[bool], calls: &[usize]) -> bool
    ensures { result ≡ true → HasAll (in_flags told.now) calls.now }
{
    for call in calls {
        if !is_told(told, *call) {
            return false;
        }
    }
    true
}

/// Whether a procedure with these calls calls only those that are told.
fn stays(told: &[bool], found: &Option<Vec<usize>>) -> bool
    ensures { result ≡ true → StaysIn told.now found.now }
{
    match found {
        Some(calls) => all_told(told, calls.as_slice()),
        None => false,
    }
}

/// Whether a procedure is told and calls another one, or writes the module's variables.
fn has_to_go(told: &[bool], number: usize, found: &Option<Vec<usize>>) -> bool
    ensures inside { result ≡ true → number < length told.now }
    ensures stays { result ≡ false → in_flags told.now number ≡ true → StaysIn told.now found.now }
{
    is_told(told, number) && !stays(told, found)
}

/// Takes each procedure away that calls one that is not told. Answers whether there was none.
fn is_closed(found: &[Option<Vec<usize>>], told: &mut [bool]) -> bool
    ensures { result ≡ true → IsClosed found.now told.new }
{
    let mut closed = true;
    for (number, calls) in found.iter().enumerate() {
        if has_to_go(told, number, calls) {
            told[number] = false;
            closed = false;
        }
    }
    closed
}

/// The largest set of procedures with these calls of which each calls only others of it.
fn largest_closed(alloc: Global, found: &[Option<Vec<usize>>]) -> Result<Vec<bool>, NoMemory>
    ensures { IfOk result (λ told. IsClosed found.now told.items) }
{
    let mut told = vec![in alloc; true; found.len()]?;
    for _ in found {
        if is_closed(found, told.as_mut_slice()) {
            return Ok(told);
        }
    }
    // Each of these rounds took a procedure away, so none is left.
    Ok(Vec::new(alloc))
}

/// Which procedures spare the module's variables, with all that they may call.
pub fn spared_procedures(alloc: Global, procedures: &[Procedure]) -> Result<Vec<bool>, NoMemory>
    ensures { IfOk result (λ told. AllKeep procedures.now told.items) }
{
    let found = all_calls(alloc, procedures)?;
    largest_closed(alloc, found.as_slice())
}
