//! The texts of scalars.

ghost use Rattle.std.specs.Prelude.{◌≡◌, ◌++◌, OnErr, OnOk, string_bytes};
ghost use Rattle.ob_text_words.specs.ScalarTexts.{scalar_text};

use crate::numbers::push_number;
use ob_interface::scalar::Scalar;
use std::alloc::AllocError;

/// Appends a value: a number, `TRUE` or `FALSE`.
pub fn push_value(text: &mut String, value: Scalar) -> Result<(), AllocError>
    ensures ok { OnOk result (string_bytes text.new ≡ string_bytes text.old ++ scalar_text value) }
    ensures unchanged { OnErr result (string_bytes text.new ≡ string_bytes text.old) }
{
    match value {
        Scalar::Int(integer) => push_number(text, integer),
        Scalar::Bool(true) => text.push_str("TRUE"),
        Scalar::Bool(false) => text.push_str("FALSE"),
    }
}
