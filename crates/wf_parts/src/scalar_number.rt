//! A number for each scalar.

ghost use Rattle.std.specs.Prelude.{◌≡◌};
ghost use Rattle.wf_parts.specs.Label.{label_of};

use ob_interface::scalar::Scalar;

/// The number of a scalar.
pub(crate) fn label_of(scalar: Scalar) -> usize
    ensures { result ≡ label_of scalar }
{
    match scalar {
        Scalar::Int(number) if number >= 0 => 4 * number as usize,
        Scalar::Int(number) => 4 * (-1 - number) as usize + 1,
        Scalar::Bool(true) => 6,
        Scalar::Bool(false) => 2,
    }
}
