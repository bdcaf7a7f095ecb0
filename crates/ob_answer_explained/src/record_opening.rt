//! How objects begin, by the bytes of the record that is named, where one is.

ghost use Rattle.std.specs.Prelude.{◌≡◌, IfErr, IfOk, option_map, option_to_list};
ghost use Rattle.ob_answer_explained.specs.Beginnings.{Begins, TellsNoneOf, begun_with};
ghost use Rattle.ob_object_compile.specs.View.{beginning_of};

use ob_carry::fields_by_name::NamedField;
use ob_object_compile::Beginning;
use ob_text_values_reading::{ValuesFault, read_values};
use std::alloc::Global;

/// The values with which an object is to begin, where a record is named.
pub fn values_in(
    alloc: Global,
    from: &Option<Vec<u8>>,
) -> Result<Option<Vec<NamedField>>, ValuesFault>
    ensures begins { IfOk result (λ values.
        Begins (option_to_list (option_map (λ bytes. bytes.items) from.now)) (begun_with (option_map (λ values. values.items) values))) }
    ensures none { IfErr result (TellsNoneOf (option_to_list (option_map (λ bytes. bytes.items) from.now))) }
{
    match from {
        None => Ok(None),
        Some(bytes) => match read_values(alloc, bytes.as_slice()) {
            Ok(values) => Ok(Some(values)),
            Err(fault) => Err(fault),
        },
    }
}

/// How an object begins: by its module's body, or with these values.
pub fn begun_with(values: &Option<Vec<NamedField>>) -> Beginning<'_>
    ensures { beginning_of result ≡ begun_with (option_map (λ values. values.items) values.now) }
{
    match values {
        None => Beginning::Body,
        Some(values) => Beginning::Carried(values.as_slice()),
    }
}
