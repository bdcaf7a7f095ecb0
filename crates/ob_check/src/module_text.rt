//! The checked module of a text.

ghost use Rattle.std.specs.Prelude.{◌≡◌, Err, ◌<◌, length, IfOk, IfErr};
ghost use Rattle.ob_checked.specs.CheckedModule.{program_in, tree_in};
ghost use Rattle.ob_grammar.specs.Texts.{IsTextOf};
ghost use Rattle.ob_grammar.specs.Tree as Tree;
ghost use Rattle.ob_typing.specs.Program.{Program};
ghost use Rattle.ob_typing.specs.ModuleText.{IsModule};
ghost use Rattle.ob_check.specs.CheckedText.{IsTextFault, IsNumberedText, TellsTextMemoryApart};

use crate::modules::check;
use ob_checked::checked::Checked;
use ob_parser::parser::ParseFault;
use ob_parser::parser::source::{SourceFault, parse_source};
use ob_scan::ScanFault;
use ob_scan::scanner::LONGEST_TEXT;
use ob_scopes::fault::CheckFault;
use std::alloc::Global;
use thiserror::Error;

/// Why a text is no module: the first fault, in the order of the variants.
#[derive(Clone, Copy, Debug, Error)]
pub enum TextFault {
    #[error("{0}")]
    Scan(ScanFault),
    #[error("{0}")]
    Parse(ParseFault),
    #[error("{0}")]
    Check(CheckFault),
    /// Want of memory.
    #[error("NoMemory")]
    NoMemory,
}

impl From<SourceFault> for TextFault {
    ghost use Rattle.std.specs.Prelude.{◌≡◌};
    ghost use Rattle.ob_check.specs.CheckedText.{of_source};

    ghost from_gives = { λ e f. f ≡ of_source e };

    fn from(fault: SourceFault) -> TextFault {
        match fault {
            SourceFault::Scan(ScanFault::NoMemory) => TextFault::NoMemory,
            SourceFault::Scan(other) => TextFault::Scan(other),
            SourceFault::Parse(ParseFault::NoMemory) => TextFault::NoMemory,
            SourceFault::Parse(other) => TextFault::Parse(other),
        }
    }
}

impl From<CheckFault> for TextFault {
    ghost use Rattle.std.specs.Prelude.{◌≡◌};
    ghost use Rattle.ob_check.specs.CheckedText.{of_check};

    ghost from_gives = { λ e f. f ≡ of_check e };

    fn from(fault: CheckFault) -> TextFault {
        match fault {
            CheckFault::NoMemory => TextFault::NoMemory,
            other => TextFault::Check(other),
        }
    }
}

/// The checked module of a text.
pub fn checked_text(alloc: Global, text: &[u8]) -> Result<Checked, TextFault>
    ensures program { IfOk result (λ c. IsModule text.now (program_in c)) }
    ensures alone { IfOk result (λ c. (other : Program) → IsModule text.now other → other ≡ program_in c) }
    ensures none { IfErr result (λ e. IsNumberedText e → (program : Program) → IsModule text.now program → ⊥) }
    ensures fault { IfErr result (λ e. IsTextFault text.now e) }

    // Its tree is that of the text, which has no other one.
    ensures tree { IfOk result (λ c. IsTextOf text.now (tree_in c)) }
    ensures one_tree { IfOk result (λ c. (other : Tree.Module) → IsTextOf text.now other → other ≡ tree_in c) }

    // Want of memory is told by its own variant alone.
    ensures memory { IfErr result TellsTextMemoryApart }

    // A text over the scanner's bound is refused, whatever it says.
    ensures too_long { LONGEST_TEXT < length text.now → result ≡ Err (TextFault.Scan ScanFault.TooLong) }
{
    let tree = parse_source(alloc, text)?;
    Ok(check(alloc, tree)?)
}
