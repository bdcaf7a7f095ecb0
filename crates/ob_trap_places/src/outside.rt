//! What a call from outside begins with: its results, and what is handed to the procedure.

ghost use Rattle.std.specs.Prelude.{◌≡◌, IfOk, map};
ghost use Rattle.ob_checked.specs.View.{parameter_of, table_of};
ghost use Rattle.ob_meaning.specs.ByPositionObject as Objects;
ghost use Rattle.ob_store.specs.View.{activation_in};

use ob_checked::program::Parameter;
use ob_checked::types::Types;
use ob_interface::scalar::Scalar;
use ob_mean::begun::initial;
use ob_store::store::{Held, Place};
use ob_store::value::Value;
use smallvec::SmallVec;
use std::alloc::{AllocError, Global};

/// Where the results of a call from outside stand in its store.
pub const RESULTS: usize = 1;

/// The results at their beginning: a place for each VAR parameter, 0 or FALSE throughout.
pub fn results_begun(
    alloc: Global,
    types: &Types,
    parameters: &[Parameter],
) -> Result<Vec<Held>, AllocError>
    ensures { IfOk result (λ held. activation_in held
        ≡ Objects.results_begun (map (parameter_of (table_of types.now)) parameters.now)) }
{
    let mut all = Vec::new(alloc);
    for parameter in parameters {
        if parameter.is_var {
            let value = initial(alloc, types, parameter.data_type)?;
            all.push(Held::Holds(value))?;
        }
    }
    Ok(all)
}

/// What is handed over: to a value parameter its argument, or 0 where there is none, and to a VAR parameter the place
/// of its result.
pub fn outside_handed(
    alloc: Global,
    types: &Types,
    parameters: &[Parameter],
    arguments: &[Scalar],
) -> Result<Vec<Held>, AllocError>
    ensures { IfOk result (λ held. activation_in held
        ≡ Objects.outside_handed 0 (map (parameter_of (table_of types.now)) parameters.now) arguments.now) }
{
    let mut all = Vec::new(alloc);
    let mut values = arguments.iter();
    let mut results = 0;
    for parameter in parameters {
        if parameter.is_var {
            let place = Place {
                activation: RESULTS,
                position: results,
                path: SmallVec::new(alloc),
            };
            all.push(Held::Refers(place))?;
            results += 1;
        } else {
            let argument = values.next().copied().unwrap_or(Scalar::Int(0));
            all.push(Held::Holds(Value::Single(argument)))?;
        }
    }
    Ok(all)
}
