//! What is told of an opening that traps: the trap, and the operation that it comes from, in its line, with its values.

ghost use Rattle.std.specs.Prelude.{◌≡◌, ℕ, List, Some, IfOk, option_map, string_bytes};
ghost use Rattle.ob_check.specs.CheckedText.{IsNumberedText, TellsTextMemoryApart, is_text_memory};
ghost use Rattle.ob_checked.specs.CheckedModule.{program_in, tree_in};
ghost use Rattle.ob_grammar.specs.View.{module_of};
ghost use Rattle.ob_meaning.specs.ByNameObject.{most_turns};
ghost use Rattle.ob_trap_places.specs.TrapOfCall.{site_of_opening};
ghost use Rattle.ob_trap_places.specs.Reaching.{cause_of, site_of};
ghost use Rattle.ob_typing.specs.ModuleText.{IsModule};
ghost use Rattle.ob_typing.specs.Program.{Program};
ghost use Rattle.ob_explained.specs.Openings.{IsOpenExplanation, IsTrapExplanation, opening_sentence, site_lines, trap_lines};

use crate::cause::{Runner, push_cause};
use ob_check::TextFault;
use ob_check::module_text::checked_text;
use ob_checked::checked::Checked;
use ob_explain_sentences::explanation::explanation;
use ob_explain_sentences::remark::Remark;
use ob_grammar::tree::ModuleTree;
use ob_mean::openings::OpenFault;
use ob_text_words::numbers::push_number;
use ob_trap_places::opening_site::site_of_opening;
use ob_trap_places::site::{Cause, Site};
use ob_trap_places::site_places::place_of;
use std::alloc::{AllocError, Global};

/// What is shown of a fault of the opening of a module, whose text has this name: the line of the fault, and the operation
/// that traps; `None` for want of memory, and where the text is that of no module whose opening traps.
pub fn open_explanation(
    alloc: Global,
    name: &str,
    text: &[u8],
    fault: OpenFault,
) -> Result<Option<String>, AllocError>
    ensures { IfOk result (λ shown. IsOpenExplanation name.now text.now fault (option_map string_bytes shown)) }
{
    match fault {
        OpenFault::Trap(_) => trap_explanation(alloc, name, text),
        OpenFault::NoMemory => Ok(None),
    }
}

/// What is shown of the trap of the opening, if it traps.
fn trap_explanation(alloc: Global, name: &str, text: &[u8]) -> Result<Option<String>, AllocError>
    ensures { IfOk result (λ shown. IsTrapExplanation name.now text.now (option_map string_bytes shown)) }
{
    match checked_text(alloc, text) {
        Ok(checked) => checked_explanation(alloc, name, text, &checked),
        Err(fault) => untold(text, fault),
    }
}

/// The same where the text is no module: nothing.
fn untold(text: &[u8], fault: TextFault) -> Result<Option<String>, AllocError>
    requires none { IsNumberedText fault → (program : Program) → IsModule text.now program → ⊥ }
    requires apart { TellsTextMemoryApart fault }
    ensures { IfOk result (λ shown. (name : List ℕ) → IsTrapExplanation name text.now (option_map string_bytes shown)) }
{
    if is_memory(fault) {
        Err(AllocError)
    } else {
        Ok(None)
    }
}

fn is_memory(fault: TextFault) -> bool
    ensures { result ≡ is_text_memory fault }
{
    matches!(fault, TextFault::NoMemory)
}

/// The same where this is the checked module of the text.
fn checked_explanation(
    alloc: Global,
    name: &str,
    text: &[u8],
    checked: &Checked,
) -> Result<Option<String>, AllocError>
    ensures { IfOk result (λ shown. option_map string_bytes shown
        ≡ site_lines name.now text.now (tree_in checked.now) (site_of_opening (program_in checked.now) most_turns)) }
{
    match site_of_opening(alloc, checked) {
        Ok(Some(site)) => site_explanation(alloc, name, text, checked.tree(), &site),
        Ok(None) => Ok(None),
        Err(_) => Err(AllocError),
    }
}

/// What is shown of the trap that comes from there.
fn site_explanation(
    alloc: Global,
    name: &str,
    text: &[u8],
    tree: &ModuleTree,
    site: &Site,
) -> Result<Option<String>, AllocError>
    ensures { IfOk result (λ shown. option_map string_bytes shown ≡ site_lines name.now text.now (module_of tree.now) (Some (site_of site.now))) }
{
    match place_of(tree, site.procedure, site.path.as_slice()) {
        Some(place) => Ok(Some(trap_lines(alloc, name, text, site, place)?)),
        None => Ok(None),
    }
}

/// The line of the fault, and the operation at this place.
fn trap_lines(
    alloc: Global,
    name: &str,
    text: &[u8],
    site: &Site,
    place: usize,
) -> Result<String, AllocError>
    ensures { IfOk result (λ told. string_bytes told ≡ trap_lines name.now text.now (site_of site.now) place) }
{
    let mut told = String::from_str(alloc, "O2 trap ")?;
    push_number(&mut told, site.number)?;
    told.push_str("\n")?;
    let remark = Remark {
        place,
        sentence: opening_sentence(alloc, site.cause)?,
        hint: None,
    };
    let lines = explanation(alloc, name, text, &remark)?;
    told.push_str(&lines)?;
    Ok(told)
}

/// What is said of the operation.
fn opening_sentence(alloc: Global, cause: Cause) -> Result<String, AllocError>
    ensures { IfOk result (λ sentence. string_bytes sentence ≡ opening_sentence (cause_of cause)) }
{
    let mut sentence = String::from_str(
        alloc,
        "the module's body traps here, so the object has no first state: ",
    )?;
    push_cause(&mut sentence, Runner::Body, cause)?;
    Ok(sentence)
}
