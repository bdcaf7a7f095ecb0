//! What callers know of the exports of a program.

ghost use Rattle.std.specs.Prelude.{◌≡◌, map, IfOk, IfErr};
ghost use Rattle.ob_interface.specs.View.{signature_of};
ghost use Rattle.ob_checked.specs.Exports.{formal_of, scalar_type_of, signatures};
ghost use Rattle.ob_checked.specs.Types.{type_in};
ghost use Rattle.ob_checked.specs.View.{parameter_of, program_of, table_of};

use ob_checked::program::{Parameter, Program};
use ob_checked::types::{DataType, Types};
use ob_interface::export::{Export, Formal};
use ob_interface::scalar::ScalarType;
use ob_scopes::fault::CheckFault;
use ob_scopes::type_parts::simple_type;
use std::alloc::Global;

/// The exports of a program in text order, each with its name and with the modes and types of its parameters.
pub fn exports_of(alloc: Global, program: &Program) -> Result<Vec<Export>, CheckFault>
    ensures listed { IfOk result (λ es. map signature_of es.items ≡ signatures (program_of program.now)) }
    ensures fault { IfErr result (λ f. f ≡ CheckFault.NoMemory) }
{
    let procedures = program.procedures.as_slice();
    let mut exports = Vec::new(alloc);
    for procedure in procedures {
        if procedure.is_exported {
            let name = procedure.name.clone()?;
            let formals = formals_of(alloc, &program.types, &procedure.parameters)?;
            exports.push(Export { name, formals })?;
        }
    }
    Ok(exports)
}

/// The modes and types of parameters.
fn formals_of(
    alloc: Global,
    types: &Types,
    parameters: &[Parameter],
) -> Result<Vec<Formal>, CheckFault>
    ensures formals { IfOk result (λ fs. fs.items ≡ map formal_of (map (parameter_of (table_of types.now)) parameters.now)) }
    ensures fault { IfErr result (λ f. f ≡ CheckFault.NoMemory) }
{
    let mut formals = Vec::new(alloc);
    for parameter in parameters {
        formals.push(Formal {
            is_var: parameter.is_var,
            scalar_type: scalar_type_of(types, parameter.data_type),
        })?;
    }
    Ok(formals)
}

/// The scalar type that a type is.
fn scalar_type_of(types: &Types, data_type: DataType) -> ScalarType
    ensures { result ≡ scalar_type_of (type_in (table_of types.now) data_type) }
{
    match simple_type(types, data_type) {
        Some(scalar_type) => scalar_type,
        // No parameter of an export is structured.
        None => ScalarType::Integer,
    }
}
