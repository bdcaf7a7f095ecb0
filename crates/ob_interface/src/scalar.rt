//! INTEGERs and BOOLEANs, and their types.

/// The type of a scalar.
#[derive(Clone, Copy, PartialEq, Eq)]
pub enum ScalarType {
    Integer,
    Boolean,
}

/// An INTEGER or a BOOLEAN.
#[derive(Clone, Copy, PartialEq, Eq)]
pub enum Scalar {
    Int(i32),
    Bool(bool),
}

impl Default for Scalar {
    ghost use Rattle.std.specs.Prelude.{◌≡◌, pos};
    ghost use Rattle.ob_interface.specs.declared.scalar.Scalar.TheVariants.{Int};

    ghost is_default = { λ s. s ≡ Int (pos 0) };

    fn default() -> Scalar {
        Scalar::Int(0)
    }
}
