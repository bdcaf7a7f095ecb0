//! What is said of a call of no export, and of values that don't fit.

ghost use Rattle.std.specs.Prelude.{◌≡◌, ◌∷◌, ◌++◌, IfOk, OnOk, map, string_bytes};
ghost use Rattle.ob_explain_arguments.specs.Near.{lent_signature};
ghost use Rattle.ob_explain_arguments.specs.Sentences.{count_sentence, done_sentence, further_names, further_types, listed_names, listed_types};
ghost use Rattle.ob_explain_arguments.specs.Sentences.{marks_or_near, name_text, near_or_all, private_sentence, question_text, taken_text, type_name};
ghost use Rattle.ob_explain_arguments.specs.Sentences.{unknown_sentence, unknown_text, value_sentence, values_noun};
ghost use Rattle.ob_interface.specs.View.{signature_of};

use crate::near::near_export;
use crate::value_marks::mark_sentence;
use ob_interface::export::Export;
use ob_interface::scalar::ScalarType;
use ob_text_words::numbers::push_number;
use std::alloc::{AllocError, Global};

/// Of a name that is none of an export, and that the module declares or not.
pub fn unknown_text(
    alloc: Global,
    declared: bool,
    exports: &[Export],
    name: &[u8],
) -> Result<String, AllocError>
    ensures { IfOk result (λ sentence. string_bytes sentence ≡ unknown_text declared (map signature_of exports.now) name.now) }
{
    if declared {
        private_sentence(alloc, exports)
    } else {
        unknown_sentence(alloc, exports, name)
    }
}

/// Of a name that is one of a procedure which is not exported.
fn private_sentence(alloc: Global, exports: &[Export]) -> Result<String, AllocError>
    ensures { IfOk result (λ sentence. string_bytes sentence ≡ private_sentence (map signature_of exports.now)) }
{
    let mut sentence = String::from_str(
        alloc,
        "the module declares this procedure without a * behind its name, so it isn't exported",
    )?;
    push_names(&mut sentence, exports)?;
    Ok(sentence)
}

/// Of a name that is none of an export.
fn unknown_sentence(alloc: Global, exports: &[Export], name: &[u8]) -> Result<String, AllocError>
    ensures { IfOk result (λ sentence. string_bytes sentence ≡ unknown_sentence (map signature_of exports.now) name.now) }
{
    let mut sentence = String::from_str(
        alloc,
        "a call names a procedure that the module exports, which has a * behind its name there",
    )?;
    push_marks_or_near(&mut sentence, exports, name)?;
    Ok(sentence)
}

/// Appends what is said of the marks in a name, or else of the exports.
fn push_marks_or_near(
    sentence: &mut String,
    exports: &[Export],
    name: &[u8],
) -> Result<(), AllocError>
    ensures { OnOk result (string_bytes sentence.new ≡ string_bytes sentence.old ++ marks_or_near (map signature_of exports.now) name.now) }
{
    let marks = mark_sentence(name);
    if marks.is_empty() {
        push_near(sentence, exports, near_export(exports, name))
    } else {
        sentence.push_str(marks)
    }
}

/// Appends the question whether this export is meant, or else which ones there are.
fn push_near(
    sentence: &mut String,
    exports: &[Export],
    near: Option<&Export>,
) -> Result<(), AllocError>
    ensures { OnOk result (string_bytes sentence.new ≡ string_bytes sentence.old ++ near_or_all (map signature_of exports.now) (lent_signature near.entry)) }
{
    match near {
        Some(export) => push_question(sentence, export),
        None => push_names(sentence, exports),
    }
}

/// Appends the question whether an export is meant.
fn push_question(sentence: &mut String, export: &Export) -> Result<(), AllocError>
    ensures { OnOk result (string_bytes sentence.new ≡ string_bytes sentence.old ++ question_text (signature_of export.now)) }
{
    sentence.push_str("; did you mean ")?;
    push_name(sentence, export)?;
    sentence.push_str("?")?;
    Ok(())
}

/// Appends the names of exports.
fn push_names(sentence: &mut String, exports: &[Export]) -> Result<(), AllocError>
    ensures { OnOk result (string_bytes sentence.new ≡ string_bytes sentence.old ++ listed_names (map signature_of exports.now)) }
{
    let Some((first, rest)) = exports.split_first() else {
        return sentence.push_str("; this module exports none");
    };
    push_some(sentence, first, rest)
}

/// Appends a first name and further ones.
fn push_some(sentence: &mut String, first: &Export, rest: &[Export]) -> Result<(), AllocError>
    ensures { OnOk result (string_bytes sentence.new ≡ string_bytes sentence.old ++ listed_names (signature_of first.now ∷ map signature_of rest.now)) }
{
    sentence.push_str("; this module exports ")?;
    push_name(sentence, first)?;
    push_further(sentence, rest)?;
    Ok(())
}

/// Appends names behind another one.
fn push_further(sentence: &mut String, exports: &[Export]) -> Result<(), AllocError>
    ensures { OnOk result (string_bytes sentence.new ≡ string_bytes sentence.old ++ further_names (map signature_of exports.now)) }
{
    for export in exports {
        sentence.push_str(", ")?;
        push_name(sentence, export)?;
    }
    Ok(())
}

/// Appends a name in quotes.
fn push_name(sentence: &mut String, export: &Export) -> Result<(), AllocError>
    ensures { OnOk result (string_bytes sentence.new ≡ string_bytes sentence.old ++ name_text (signature_of export.now)) }
{
    sentence.push_str("`")?;
    sentence.push_str(export.name.as_str())?;
    sentence.push_str("`")
}

/// Of a call with so many values of a procedure that takes values of these types.
pub fn count_sentence(
    alloc: Global,
    values: usize,
    types: &[ScalarType],
) -> Result<String, AllocError>
    ensures { IfOk result (λ sentence. string_bytes sentence ≡ count_sentence values types.now) }
{
    let mut sentence = String::from_str(alloc, "this call has ")?;
    push_number(&mut sentence, values)?;
    sentence.push_str(values_noun(values))?;
    push_taken(&mut sentence, types)?;
    Ok(sentence)
}

/// Appends how many values a procedure takes, and of which types.
fn push_taken(sentence: &mut String, types: &[ScalarType]) -> Result<(), AllocError>
    ensures { OnOk result (string_bytes sentence.new ≡ string_bytes sentence.old ++ taken_text types.now) }
{
    sentence.push_str(", and the procedure takes ")?;
    push_number(sentence, types.len())?;
    sentence.push_str(" for its parameters without VAR")?;
    push_types(sentence, types)?;
    Ok(())
}

/// Of so many values behind done, in the reply of a procedure that gives values of these types.
pub fn done_sentence(
    alloc: Global,
    values: usize,
    types: &[ScalarType],
) -> Result<String, AllocError>
    ensures { IfOk result (λ sentence. string_bytes sentence ≡ done_sentence values types.now) }
{
    let mut sentence = String::from_str(alloc, "done has ")?;
    push_number(&mut sentence, values)?;
    sentence.push_str(values_noun(values))?;
    sentence.push_str(", and the procedure gives ")?;
    push_number(&mut sentence, types.len())?;
    sentence.push_str(" for its parameters with VAR")?;
    push_types(&mut sentence, types)?;
    Ok(sentence)
}

fn values_noun(values: usize) -> &'static str
    ensures { result.now ≡ values_noun values }
{
    if values == 1 { " value" } else { " values" }
}

/// Appends types.
fn push_types(sentence: &mut String, types: &[ScalarType]) -> Result<(), AllocError>
    ensures { OnOk result (string_bytes sentence.new ≡ string_bytes sentence.old ++ listed_types types.now) }
{
    match types {
        [] => Ok(()),
        [first, rest @ ..] => {
            sentence.push_str(": ")?;
            sentence.push_str(type_name(*first))?;
            push_further_types(sentence, rest)
        }
    }
}

/// Appends types behind another one.
fn push_further_types(sentence: &mut String, types: &[ScalarType]) -> Result<(), AllocError>
    ensures { OnOk result (string_bytes sentence.new ≡ string_bytes sentence.old ++ further_types types.now) }
{
    for scalar_type in types {
        sentence.push_str(", ")?;
        sentence.push_str(type_name(*scalar_type))?;
    }
    Ok(())
}

fn type_name(scalar_type: ScalarType) -> &'static str
    ensures { result.now ≡ type_name scalar_type }
{
    match scalar_type {
        ScalarType::Integer => "INTEGER",
        ScalarType::Boolean => "BOOLEAN",
    }
}

/// Of a word that says no value of a type.
pub fn value_sentence(scalar_type: ScalarType) -> &'static str
    ensures { result.now ≡ value_sentence scalar_type }
{
    match scalar_type {
        ScalarType::Integer => "an INTEGER is wanted here, a number from -2147483648 to 2147483647",
        ScalarType::Boolean => "a BOOLEAN is wanted here, TRUE or FALSE",
    }
}
