//! The kinds of token that are expected, as they are told.

ghost use Rattle.std.specs.Prelude.{◌≡◌, ◌++◌, IfOk, OnOk, map, string_bytes};
ghost use Rattle.ob_explain_sentences.specs.declared.groups.Phrase.{Phrase};
ghost use Rattle.ob_explain_sentences.specs.Groups.{further, groups, listed, phrase_text, phrases};

use crate::groups::{GROUPS, Phrase, group_name, has_all, without};
use crate::kinds::kind_name;
use ob_scan::Kind;
use std::alloc::{AllocError, Global};

/// Appends expected kinds.
pub fn push_expected(sentence: &mut String, alloc: Global, kinds: &[Kind]) -> Result<(), AllocError>
    ensures { OnOk result (string_bytes sentence.new ≡ string_bytes sentence.old ++ listed (phrases groups kinds.now)) }
{
    let kinds = Vec::from_slice(alloc, kinds)?;
    push_listed(sentence, &phrases(alloc, kinds)?)
}

/// What expected kinds are told by: whole groups, and all others one by one.
fn phrases(alloc: Global, kinds: Vec<Kind>) -> Result<Vec<Phrase>, AllocError>
    ensures { IfOk result (λ told. told.items ≡ phrases groups kinds.items) }
{
    let mut left = kinds;
    let mut told = Vec::new(alloc);
    for group in &GROUPS {
        if has_all(&left, *group) {
            told.push(Phrase::Whole(*group))?;
            left = without(alloc, *group, &left)?;
        }
    }
    push_singles(&mut told, &left)?;
    Ok(told)
}

/// Appends kinds, one by one.
fn push_singles(told: &mut Vec<Phrase>, kinds: &[Kind]) -> Result<(), AllocError>
    ensures { OnOk result (told.new.items ≡ told.old.items ++ map Phrase.Single kinds.now) }
{
    for kind in kinds {
        told.push(Phrase::Single(*kind))?;
    }
    Ok(())
}

/// Appends phrases, with commas between them and "or" before the last.
fn push_listed(sentence: &mut String, phrases: &[Phrase]) -> Result<(), AllocError>
    ensures { OnOk result (string_bytes sentence.new ≡ string_bytes sentence.old ++ listed phrases.now) }
{
    match phrases {
        [] => Ok(()),
        [first, rest @ ..] => {
            sentence.push_str(phrase_text(*first))?;
            push_further(sentence, rest)
        }
    }
}

/// Appends phrases behind another one.
fn push_further(sentence: &mut String, phrases: &[Phrase]) -> Result<(), AllocError>
    ensures { OnOk result (string_bytes sentence.new ≡ string_bytes sentence.old ++ further phrases.now) }
{
    for (index, phrase) in phrases.iter().enumerate() {
        sentence.push_str(if index + 1 == phrases.len() {
            " or "
        } else {
            ", "
        })?;
        sentence.push_str(phrase_text(*phrase))?;
    }
    Ok(())
}

/// How a phrase is told.
fn phrase_text(phrase: Phrase) -> &'static str
    ensures { result.now ≡ phrase_text phrase }
{
    match phrase {
        Phrase::Whole(group) => group_name(group),
        Phrase::Single(kind) => kind_name(kind),
    }
}
