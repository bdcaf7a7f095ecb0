//! The values that a line says as runs write them.

ghost use Rattle.std.specs.Prelude.{◌≡◌, IfOk, IfSome};
ghost use Rattle.ob_text_words.specs.Values.{types_of};
ghost use Rattle.ob_text_values_reading.specs.LineBeginnings.{TakesValues};

use crate::text_beginning::front_value;
use ob_interface::NoMemory;
use ob_interface::export::Formal;
use ob_interface::scalar::Scalar;
use ob_text_words::parameter_words::is_of_mode;
use smallvec::SmallVec;
use std::alloc::Global;
use wf_history::KeptScalars;

/// The values that the first line of a text says for the parameters of one mode, VAR or not, to be kept, each behind a space; with the
/// text behind that line. `None` says nothing.
#[inline(always)]
pub fn front_values<'a>(
    alloc: Global,
    formals: &[Formal],
    is_var: bool,
    text: &'a [u8],
) -> Result<Option<(KeptScalars, &'a [u8])>, NoMemory>
    ensures { IfOk result (λ read. IfSome read (λ r. TakesValues (types_of is_var formals.now) text.now r.0.items r.1.now)) }
{
    let mut values = SmallVec::<Scalar, 8>::new(alloc);
    let mut left = text;
    for formal in formals {
        if is_of_mode(is_var, formal) {
            let Some((value, behind)) = front_value(formal.scalar_type, left) else {
                return Ok(None);
            };
            values.push(value)?;
            left = behind;
        }
    }
    let Some((b'\n', rest)) = left.split_first() else {
        return Ok(None);
    };
    let kept = KeptScalars::from_slice(alloc, values.as_slice())?;
    Ok(Some((kept, rest)))
}
