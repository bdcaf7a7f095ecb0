//! What is told of the words of a line that makes a call.

ghost use Rattle.std.specs.Prelude.{◌≡◌, IfOk, map, option_map};
ghost use Rattle.ob_interface.specs.Export.{value_types};
ghost use Rattle.ob_interface.specs.View.{signature_of};
ghost use Rattle.ob_explain_arguments.specs.Calls.{IsMisfitTold, IsToldBehind, IsToldOf, IsToldOfCall, IsUnknownTold, misfit_told, told_of, value_told};
ghost use Rattle.ob_explain_arguments.specs.Calls.{value_word};

use crate::declared_procedures::is_declared;
use crate::misfit::{Misfit, first_misfit};
use crate::sentences::{count_sentence, unknown_text, value_sentence};
use crate::value_marks::mark_sentence;
use ob_interface::export::{Export, Formal};
use ob_interface::scalar::ScalarType;
use ob_text_words::export_names::export_named;
use std::alloc::{AllocError, Global};

/// A sentence on the value of a number, counted from 0, or on the name where there is no number.
#[derive(Drop)]
pub struct Told {
    pub value: Option<usize>,
    pub sentence: String,
}

/// What is told of the words of a line behind its process: of a name that is none of these exports of a module's text, or of values that don't fit;
/// `None` where all fit, and where no name stands there.
pub fn told_call(
    alloc: Global,
    object: &[u8],
    exports: &[Export],
    words: &[&[u8]],
) -> Result<Option<Told>, AllocError>
    ensures { IfOk result (λ told. IsToldOf object.now (map signature_of exports.now) (map (λ w. w.now) words.now) (option_map told_of told)) }
{
    let Some((_process, behind)) = words.split_first() else {
        return Ok(None);
    };
    told_behind(alloc, object, exports, behind)
}

/// What is told of a name and values.
fn told_behind(
    alloc: Global,
    object: &[u8],
    exports: &[Export],
    words: &[&[u8]],
) -> Result<Option<Told>, AllocError>
    ensures { IfOk result (λ told. IsToldBehind object.now (map signature_of exports.now) (map (λ w. w.now) words.now) (option_map told_of told)) }
{
    let Some((name, values)) = words.split_first() else {
        return Ok(None);
    };
    told_for(alloc, object, exports, name, values)
}

/// What is told of this name and these values.
fn told_for(
    alloc: Global,
    object: &[u8],
    exports: &[Export],
    name: &[u8],
    values: &[&[u8]],
) -> Result<Option<Told>, AllocError>
    ensures { IfOk result (λ told. IsToldOfCall object.now (map signature_of exports.now) name.now (map (λ w. w.now) values.now) (option_map told_of told)) }
{
    let Some((_number, export)) = export_named(exports, name) else {
        return unknown_told(alloc, object, exports, name);
    };
    told_values(alloc, &export.formals, values)
}

/// What is told of a name that is none of these exports of a module of this text.
fn unknown_told(
    alloc: Global,
    object: &[u8],
    exports: &[Export],
    name: &[u8],
) -> Result<Option<Told>, AllocError>
    ensures { IfOk result (λ told. IsUnknownTold object.now (map signature_of exports.now) name.now (option_map told_of told)) }
{
    let declared = is_declared(alloc, object, name)?;
    let sentence = unknown_text(alloc, declared, exports, name)?;
    Ok(Some(Told {
        value: None,
        sentence,
    }))
}

/// What is told of the values of a call of a procedure with these parameters.
fn told_values(
    alloc: Global,
    formals: &[Formal],
    values: &[&[u8]],
) -> Result<Option<Told>, AllocError>
    ensures { IfOk result (λ told. IsMisfitTold (value_types formals.now) (map (λ w. w.now) values.now) (option_map told_of told)) }
{
    let types = wanted_types(alloc, formals)?;
    told_fit(alloc, &types, values)
}

/// What is told of values for these types.
fn told_fit(
    alloc: Global,
    types: &[ScalarType],
    values: &[&[u8]],
) -> Result<Option<Told>, AllocError>
    ensures { IfOk result (λ told. IsMisfitTold types.now (map (λ w. w.now) values.now) (option_map told_of told)) }
{
    misfit_told(alloc, types, values, first_misfit(types, values))
}

/// The types of the values that a procedure takes.
fn wanted_types(alloc: Global, formals: &[Formal]) -> Result<Vec<ScalarType>, AllocError>
    ensures { IfOk result (λ types. types.items ≡ value_types formals.now) }
{
    formals
        .iter()
        .copied()
        .filter(|formal| !formal.is_var)
        .map(|formal| formal.scalar_type)
        .collect(alloc)
}

/// What is told of values for these types, of which this doesn't fit.
fn misfit_told(
    alloc: Global,
    types: &[ScalarType],
    values: &[&[u8]],
    misfit: Option<Misfit>,
) -> Result<Option<Told>, AllocError>
    ensures { IfOk result (λ told. option_map told_of told ≡ misfit_told types.now (map (λ w. w.now) values.now) misfit) }
{
    match misfit {
        Some(Misfit::Count) => Ok(Some(Told {
            value: None,
            sentence: count_sentence(alloc, values.len(), types)?,
        })),
        Some(Misfit::Value(number, scalar_type)) => {
            told_value(alloc, number, scalar_type, value_word(values, number))
        }
        None => Ok(None),
    }
}

/// What is told of the value of a number, for a type.
fn told_value(
    alloc: Global,
    number: usize,
    scalar_type: ScalarType,
    word: &[u8],
) -> Result<Option<Told>, AllocError>
    ensures { IfOk result (λ told. option_map told_of told ≡ Some (value_told number scalar_type word.now)) }
{
    let mut sentence = String::from_str(alloc, value_sentence(scalar_type))?;
    sentence.push_str(mark_sentence(word))?;
    Ok(Some(Told {
        value: Some(number),
        sentence,
    }))
}

/// The word for the value of a number.
fn value_word<'a>(values: &[&'a [u8]], number: usize) -> &'a [u8]
    ensures { result.now ≡ value_word (map (λ w. w.now) values.now) number }
{
    match values.get(number) {
        Some(word) => word,
        None => &[],
    }
}
