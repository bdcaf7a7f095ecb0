//! The names that are visible at a place of a text.

ghost use Rattle.std.specs.Prelude.{◌≡◌, IfOk};
ghost use Rattle.ob_grammar.specs.Texts.{IsTextOf};
ghost use Rattle.ob_grammar.specs.Tree as Tree;
ghost use Rattle.ob_grammar.specs.View.{declarations_of};
ghost use Rattle.ob_parser.specs.SourceFaults.{IsSourceFault, TellsNoTree};
ghost use Rattle.ob_explain_names.specs.Visible.{AreVisible, is_memory, visible};

use crate::declared::push_declarations;
use crate::known::Known;
use ob_grammar::tree::Declarations;
use ob_parser::{ParseFault, SourceFault, parse_source};
use ob_scan::ScanFault;
use std::alloc::{AllocError, Global};

/// The names that are visible at a place of a text, each behind those that it may hide; none where the text is no module.
pub fn visible_names(alloc: Global, text: &[u8], at: usize) -> Result<Vec<Known>, AllocError>
    ensures { IfOk result (λ known. AreVisible text.now at known.items) }
{
    match parse_source(alloc, text) {
        Ok(module) => names_in(alloc, &module.tree().declarations, at),
        Err(fault) => no_names(alloc, text, at, fault),
    }
}

/// The names that declarations make visible at a place.
fn names_in(alloc: Global, declarations: &Declarations, at: usize) -> Result<Vec<Known>, AllocError>
    ensures { IfOk result (λ known. known.items ≡ visible at (declarations_of declarations.now)) }
{
    let mut known = Vec::new(alloc);
    push_declarations(&mut known, alloc, declarations, at)?;
    known
        .iter()
        .copied()
        .filter(|name| name.place < at)
        .collect(alloc)
}

/// No names, but for want of memory.
#[tactic(auto, using(crate::proofs::NoNames::none_visible))]
fn no_names(
    alloc: Global,
    text: &[u8],
    at: usize,
    fault: SourceFault,
) -> Result<Vec<Known>, AllocError>
    requires fault { IsSourceFault text.now fault }
    requires none { TellsNoTree fault → (m : Tree.Module) → IsTextOf text.now m → ⊥ }
    ensures { IfOk result (λ known. AreVisible text.now at known.items) }
{
    if is_memory(fault) {
        Err(AllocError)
    } else {
        Ok(Vec::new(alloc))
    }
}

fn is_memory(fault: SourceFault) -> bool
    ensures { result ≡ is_memory fault }
{
    match fault {
        SourceFault::Scan(ScanFault::NoMemory) => true,
        SourceFault::Parse(ParseFault::NoMemory) => true,
        _ => false,
    }
}
