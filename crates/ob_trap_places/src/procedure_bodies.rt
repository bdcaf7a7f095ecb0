//! The bodies of procedures by their numbers.

ghost use Rattle.std.specs.Prelude.{◌≡◌, ◌≤◌, length, slice_get, Some, IfOk, IfErr};
ghost use Rattle.ob_grammar.specs.View.{declarations_of, procedures_in};
ghost use Rattle.ob_trap_places.specs.Places.{bodies_of, bodies_in};
ghost use Rattle.ob_trap_places.specs.Bodies.{body_in, bodies_of_procedure};

use ob_grammar::tree::{Declarations, Procedure, Stmt};

/// The body of the procedure of a number, in the order of headings, or how many procedures there are.
#[cycle(procedures)]
pub fn body_at(declarations: &Declarations, number: usize) -> Result<&Option<Vec<Stmt>>, usize>
    ensures found { IfOk result (λ body. slice_get (bodies_of (declarations_of declarations.now)) number ≡ Some (body_in body.now)) }
    ensures count { IfErr result (λ count. count ≡ length (bodies_of (declarations_of declarations.now))) }
    ensures none { IfErr result (λ count. count ≤ number) }
{
    body_among(&declarations.procedures, number)
}

/// The same of procedures one after the other.
#[cycle(procedures)]
fn body_among(procedures: &[Procedure], number: usize) -> Result<&Option<Vec<Stmt>>, usize>
    ensures found { IfOk result (λ body. slice_get (bodies_in (procedures_in procedures.now)) number ≡ Some (body_in body.now)) }
    ensures count { IfErr result (λ count. count ≡ length (bodies_in (procedures_in procedures.now))) }
    ensures none { IfErr result (λ count. count ≤ number) }
{
    let mut left = number;
    for procedure in procedures {
        match body_within(procedure, left) {
            Ok(body) => return Ok(body),
            Err(count) => left -= count,
        }
    }
    Err(number - left)
}

/// The same of a procedure and those within it.
#[cycle(procedures)]
fn body_within(procedure: &Procedure, number: usize) -> Result<&Option<Vec<Stmt>>, usize>
    ensures found { IfOk result (λ body. slice_get (bodies_of_procedure procedure.now) number ≡ Some (body_in body.now)) }
    ensures count { IfErr result (λ count. count ≡ length (bodies_of_procedure procedure.now)) }
    ensures none { IfErr result (λ count. count ≤ number) }
{
    if number == 0 {
        return Ok(&procedure.body);
    }
    match body_at(&procedure.declarations, number - 1) {
        Ok(body) => Ok(body),
        Err(count) => Err(count + 1),
    }
}
