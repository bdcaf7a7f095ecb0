//! Whether arguments fit parameters.

ghost use Rattle.std.specs.Prelude.{◌≡◌, IsTrue, map};
ghost use Rattle.std.specs.List.{All};
ghost use Rattle.ob_code_scheme.specs.Correct.{IsInRange};
ghost use Rattle.ob_interface.specs.Export.{ArgumentsFit, type_of};

use ob_interface::export::Formal;
use ob_interface::scalar::{Scalar, ScalarType};

/// Whether a scalar is of a type.
fn is_of(scalar: Scalar, scalar_type: ScalarType) -> bool
    ensures typed { IsTrue result → type_of scalar ≡ scalar_type }
    ensures ranged { IsInRange scalar }
{
    match (scalar, scalar_type) {
        (Scalar::Int(_), ScalarType::Integer) => true,
        (Scalar::Bool(_), ScalarType::Boolean) => true,
        _ => false,
    }
}

/// Whether there is an argument of its type for each parameter that is not VAR.
pub(crate) fn do_fit(parameters: &[Formal], arguments: &[Scalar]) -> bool
    ensures typed { IsTrue result → ArgumentsFit parameters.now arguments.now }
    ensures ranged { IsTrue result → All IsInRange arguments.now }
{
    let mut rest = arguments;
    for parameter in parameters {
        if !parameter.is_var {
            let Some((first, others)) = rest.split_first() else {
                return false;
            };
            if !is_of(*first, parameter.scalar_type) {
                return false;
            }
            rest = others;
        }
    }
    rest.is_empty()
}
