//! From the bytes of a text to its tree.

ghost use Rattle.std.specs.Prelude.{◌≡◌, ◌<◌, ◌≤◌, length, Err, IfOk, IfErr};
ghost use Rattle.ob_grammar.specs.Texts.{IsTextOf};
ghost use Rattle.ob_grammar.specs.Tree as trees;
ghost use Rattle.ob_syntax.specs.Places.{bare};
ghost use Rattle.ob_syntax.specs.PrintedAgain.{LeadsTo};
ghost use Rattle.ob_syntax.specs.ReadFaults.{IsReadFault, IsWant};
ghost use Rattle.ob_grammar.specs.View.{module_of};

use ob_grammar::module::Module;
use ob_parser::parser::{ParseFault, parse};
use ob_scan::scanner::LONGEST_TEXT;
use ob_scan::{ScanFault, scan};
use std::alloc::Global;
use thiserror::Error;

/// Why a text is no module.
#[derive(Clone, Copy, Debug, Error)]
pub enum ReadFault {
    /// A fault of the scanner.
    #[error("{0}")]
    Scan(ScanFault),
    /// A fault of the parser.
    #[error("{0}")]
    Parse(ParseFault),
}

impl From<ScanFault> for ReadFault {
    ghost use Rattle.std.specs.Prelude.{◌≡◌};
    ghost use Rattle.ob_syntax.specs.declared.tree_reader.ReadFault.TheVariants.{Scan};

    ghost from_gives = { λ fault e. e ≡ Scan fault };

    fn from(fault: ScanFault) -> ReadFault {
        ReadFault::Scan(fault)
    }
}

impl From<ParseFault> for ReadFault {
    ghost use Rattle.std.specs.Prelude.{◌≡◌};
    ghost use Rattle.ob_syntax.specs.declared.tree_reader.ReadFault.TheVariants.{Parse};

    ghost from_gives = { λ fault e. e ≡ Parse fault };

    fn from(fault: ParseFault) -> ReadFault {
        ReadFault::Parse(fault)
    }
}

/// The module of a text. A fault of its tokens is answered before one of the grammar, wherever it stands.
pub fn read(alloc: Global, text: &[u8]) -> Result<Module, ReadFault>
    ensures read { IfOk result (λ m. IsTextOf text.now (module_of m)) }
    ensures fault { IfErr result (λ e. IsReadFault text.now e) }

    // A text over the scanner's bound is refused, whatever it says.
    ensures too_long { LONGEST_TEXT < length text.now → result ≡ Err (ReadFault.Scan ScanFault.TooLong) }

    // A text that leads to a module but for places, as a printed one does, is read as that module or memory is wanted.
    ensures again { (m : trees.Module) → LeadsTo text.now m → length text.now ≤ LONGEST_TEXT →
        (IfOk result (λ x. bare (module_of x) ≡ bare m)) × (IfErr result IsWant) }
{
    let tokens = scan(alloc, text)?;
    let module = parse(alloc, &tokens)?;
    Ok(module)
}
