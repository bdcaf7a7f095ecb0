//! The faults that a module's text has behind its slips.

ghost use Rattle.std.specs.Prelude.{◌≡◌, ◌∷◌, ◌++◌, IfOk, codes, option_map, string_bytes};
ghost use Rattle.ob_explain_sentences.specs.Remarks.{remark_of};
ghost use Rattle.ob_slips.specs.Behind.{IsNext, IsTold, more_faults, own_stage, shown_own, stage_of};
ghost use Rattle.ob_mendings.specs.Mendings.{mending_text};

use crate::slip::slip_mending;
use crate::slip_remark::text_remark;
use crate::stage::Stage;
use ob_check::TextFault;
use ob_explain_sentences::explanation::explanation;
use ob_explain_sentences::remark::Remark;
use ob_mendings::mending::{Mending, mended, mending_text};
use ob_mendings::origin::{Move, origin_in};
use ob_mendings::verdict::verdict;
use std::alloc::{AllocError, Global};

/// The most slips that are mended, so that ten faults are told.
const MOST_MENDINGS: usize = 9;

/// What is told behind a fault of a module's text, of a file of this name.
pub fn told_behind(
    alloc: Global,
    name: &str,
    text: &[u8],
    fault: TextFault,
) -> Result<String, AllocError>
    ensures { IfOk result (λ told. IsTold (own_stage name.now text.now) (string_bytes told)) }
{
    let stage = Stage {
        name,
        own: text,
        text,
        moves: &[],
    };
    told_on(alloc, stage, fault)
}

/// What is told behind a fault of the text with mendings.
fn told_on(alloc: Global, stage: Stage<'_>, fault: TextFault) -> Result<String, AllocError>
    ensures { IfOk result (λ told. IsTold (stage_of stage.entry) (string_bytes told)) }
{
    if stage.moves.len() >= MOST_MENDINGS {
        return more_faults(alloc);
    }
    let Some(mending) = slip_mending(alloc, stage.text, fault)? else {
        return more_faults(alloc);
    };
    let text = mended(alloc, stage.text, &mending)?;
    let Some(next) = verdict(alloc, &text)? else {
        return all_right(alloc, stage.text, &mending);
    };
    let moves = with_move(alloc, mending.moves(), stage.moves)?;
    let further = Stage {
        name: stage.name,
        own: stage.own,
        text: &text,
        moves: &moves,
    };
    let mut told = told_next(alloc, further, stage.text, &mending, next)?;
    let behind = told_on(alloc, further, next)?;
    told.push_str(behind.as_str())?;
    Ok(told)
}

/// That there may be more faults than those that are told.
fn more_faults(alloc: Global) -> Result<String, AllocError>
    ensures { IfOk result (λ told. string_bytes told ≡ more_faults) }
{
    String::from_str(alloc, "there may be more faults behind this one\n")
}

/// A move before those that were made before it.
fn with_move(alloc: Global, moved: Move, before: &[Move]) -> Result<Vec<Move>, AllocError>
    ensures { IfOk result (λ all. all.items ≡ moved ∷ before.now) }
{
    let mut all = Vec::new(alloc);
    all.push(moved)?;
    all.extend_from_slice(before)?;
    Ok(all)
}

/// That a text with a mending, and those before it, is right.
fn all_right(alloc: Global, text: &[u8], mending: &Mending) -> Result<String, AllocError>
    ensures { IfOk result (λ told. string_bytes told ≡ mending_text text.now mending.now ++ codes ", the text has no other fault\n") }
{
    let mut told = mending_text(alloc, text, mending)?;
    told.push_str(", the text has no other fault\n")?;
    Ok(told)
}

/// The fault of the text with mendings, of which this is the last, of a text before it.
fn told_next(
    alloc: Global,
    stage: Stage<'_>,
    before: &[u8],
    last: &Mending,
    fault: TextFault,
) -> Result<String, AllocError>
    ensures { IfOk result (λ told. IsNext (stage_of stage.entry) before.now last.now fault (string_bytes told)) }
{
    let mut told = mending_text(alloc, before, last)?;
    told.push_str(", the next fault is:\n")?;
    let remark = text_remark(alloc, stage.text, fault)?;
    told.push_str(shown_own(alloc, stage, remark)?.as_str())?;
    Ok(told)
}

/// What is said of the text with mendings, at its place in the module's own text.
fn shown_own(alloc: Global, stage: Stage<'_>, remark: Option<Remark>) -> Result<String, AllocError>
    ensures { IfOk result (λ shown. string_bytes shown ≡ shown_own (stage_of stage.entry) (option_map remark_of remark)) }
{
    match remark {
        Some(remark) => {
            let own = Remark {
                place: origin_in(stage.moves, remark.place),
                sentence: remark.sentence,
                hint: remark.hint,
            };
            explanation(alloc, stage.name, stage.own, &own)
        }
        None => Ok(String::new(alloc)),
    }
}
