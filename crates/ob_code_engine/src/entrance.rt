//! How calls enter compiled code.

ghost use Rattle.std.specs.Prelude.{◌≡◌, ◌↔◌, List, map, IfOk, IsTrue};
ghost use Rattle.ob_checked.specs.Types.{Entry, type_in};
ghost use Rattle.ob_checked.specs.View.{parameter_of, program_of};
ghost use Rattle.ob_code_correct.specs.CodeMeaning as Words;
ghost use Rattle.ob_code_correct.specs.Compiled.{entrances_from};
ghost use Rattle.ob_code_scheme.specs.Correct as Correct;

use ob_checked::program::{Parameter, Program};
use ob_checked::types::DataType;
use ob_interface::export::Formal;
use ob_interface::scalar::ScalarType;
use std::alloc::{AllocError, Global};
use std::marker::Model;

/// How a call enters the code: the number of its procedure, in the order of their headings, and of each parameter the mode
/// and the type.
#[derive(Drop)]
pub struct Entrance {
    procedure: usize,
    parameters: Vec<Formal>,
}

impl Model for Entrance {
    ghost use Rattle.ob_code_correct.specs.CodeMeaning as Words;

    ghost Value = { Words.Entrance };

    ghost view = { λ e. record { procedure = e.procedure; parameters = e.parameters.items } };
}

impl Entrance {
    /// The number of its procedure.
    pub fn procedure(&self) -> usize
        ensures { result ≡ self.now.procedure }
    {
        self.procedure
    }

    /// The mode and the type of each parameter, in text order.
    pub fn parameters(&self) -> &[Formal]
        ensures { result.now ≡ self.now.parameters }
    {
        self.parameters.as_slice()
    }
}

/// The type of a scalar; INTEGER for a structured type, as no parameter of an export has.
fn scalar_type_of(data_type: DataType) -> ScalarType
    ensures { (types : List Entry) → result ≡ Correct.scalar_type_of (type_in types data_type) }
{
    match data_type {
        DataType::Simple(scalar_type) => scalar_type,
        DataType::Structured(_) => ScalarType::Integer,
    }
}

/// The mode and the type of each parameter.
fn formals_of(alloc: Global, parameters: &[Parameter]) -> Result<Vec<Formal>, AllocError>
    ensures { (types : List Entry) → IfOk result (λ v. v.items ≡ Correct.formals_of (map (parameter_of types) parameters.now)) }
{
    let mut formals = Vec::new(alloc);
    for parameter in parameters {
        formals.push(Formal {
            is_var: parameter.is_var,
            scalar_type: scalar_type_of(parameter.data_type),
        })?;
    }
    Ok(formals)
}

/// The entrances of a program's exports, in text order.
pub fn entrances(alloc: Global, program: &Program) -> Result<Vec<Entrance>, AllocError>
    ensures { IfOk result (λ v. v.items ≡ entrances_from 0 (program_of program.now).procedures) }
{
    let mut entrances = Vec::new(alloc);
    for (number, procedure) in program.procedures.iter().enumerate() {
        if procedure.is_exported {
            let parameters = formals_of(alloc, procedure.parameters.as_slice())?;
            entrances.push(Entrance {
                procedure: number,
                parameters,
            })?;
        }
    }
    Ok(entrances)
}

/// Equal entrances.
pub fn copied(alloc: Global, entrances: &[Entrance]) -> Result<Vec<Entrance>, AllocError>
    ensures { IfOk result (λ v. v.items ≡ entrances.now) }
{
    let mut copies = Vec::new(alloc);
    for entrance in entrances {
        copies.push(Entrance {
            procedure: entrance.procedure,
            parameters: Vec::from_slice(alloc, entrance.parameters.as_slice())?,
        })?;
    }
    Ok(copies)
}

/// Whether two entrances are the same.
fn is_same(entrance: &Entrance, other: &Entrance) -> bool
    ensures { IsTrue result ↔ (entrance.now ≡ other.now) }
{
    entrance.procedure == other.procedure
        && entrance.parameters.as_slice() == other.parameters.as_slice()
}

/// Whether the entrances are the same, each as the other in its place.
pub fn are_same(entrances: &[Entrance], others: &[Entrance]) -> bool
    ensures { IsTrue result ↔ (entrances.now ≡ others.now) }
{
    if entrances.len() != others.len() {
        return false;
    }
    for place in 0..entrances.len() {
        if !is_same(&entrances[place], &others[place]) {
            return false;
        }
    }
    true
}

/// How many of the parameters are VAR.
fn result_count(parameters: &[Formal]) -> usize
    ensures { result ≡ Words.result_count parameters.now }
{
    parameters.iter().filter(|p| p.is_var).count()
}

/// The most results of an export.
pub fn most_results(entrances: &[Entrance]) -> usize
    ensures { result ≡ Words.most Words.result_count entrances.now }
{
    let mut largest = 0;
    for entrance in entrances {
        largest = largest.max(result_count(entrance.parameters()));
    }
    largest
}

/// How many of the parameters are not VAR.
fn value_count(parameters: &[Formal]) -> usize
    ensures { result ≡ Words.value_count parameters.now }
{
    parameters.iter().filter(|p| !p.is_var).count()
}

/// The most arguments of an export.
pub fn most_values(entrances: &[Entrance]) -> usize
    ensures { result ≡ Words.most Words.value_count entrances.now }
{
    let mut largest = 0;
    for entrance in entrances {
        largest = largest.max(value_count(entrance.parameters()));
    }
    largest
}
