//! From a text to its module, a token at a time.

ghost use Rattle.std.specs.Prelude.{◌≡◌, ◌<◌, length, Err, IfOk, IfErr};
ghost use Rattle.ob_scan.specs.declared.fault.ScanFault.{ScanFault};
ghost use Rattle.ob_scan.specs.Limits.{longest_text};
ghost use Rattle.ob_grammar.specs.Texts.{IsTextOf};
ghost use Rattle.ob_grammar.specs.Tree as Tree;
ghost use Rattle.ob_grammar.specs.View.{module_of};
ghost use Rattle.ob_parser.specs.SourceFaults.{IsSourceFault, TellsNoTree};

use crate::parser::{ParseFault, Parser};
use ob_grammar::module::Module;
use ob_scan::{ScanFault, ScannedTokens};
use std::alloc::Global;

/// Why a text is no module by the rules of tokens and of the grammar.
#[derive(Clone, Copy)]
pub enum SourceFault {
    /// A fault of the scanner.
    Scan(ScanFault),
    /// A fault of the parser.
    Parse(ParseFault),
}

impl From<ScanFault> for SourceFault {
    ghost use Rattle.std.specs.Prelude.{◌≡◌};
    ghost use Rattle.ob_parser.specs.declared.parser.source.SourceFault.TheVariants.{Scan};

    ghost from_gives = { λ fault e. e ≡ Scan fault };

    fn from(fault: ScanFault) -> SourceFault {
        SourceFault::Scan(fault)
    }
}

/// The module of a text, whose tokens are kept no longer than until they are read. A fault of the scanner is answered
/// before one of the grammar, wherever it stands; want of memory may be answered before either.
pub fn parse_source(alloc: Global, text: &[u8]) -> Result<Module, SourceFault>
    // The text has tokens that derive the module and no other one, each name after END agrees, and nothing is too deep.
    ensures tree { IfOk result (λ m. IsTextOf text.now (module_of m)) }
    ensures alone { IfOk result (λ m. (other : Tree.Module) → IsTextOf text.now other → other ≡ module_of m) }

    // A fault is true of the text, and but for the length and want of memory there is no module.
    ensures fault { IfErr result (IsSourceFault text.now) }
    ensures none { IfErr result (λ e. TellsNoTree e → (m : Tree.Module) → IsTextOf text.now m → ⊥) }

    // A text over the scanner's bound is refused, whatever it says.
    ensures too_long { longest_text < length text.now → result ≡ Err (SourceFault.Scan ScanFault.TooLong) }
{
    let mut parser = Parser {
        alloc,
        source: ScannedTokens::new(text)?,
    };
    match parser.whole_module() {
        Ok(tree) => {
            parser.source.finish()?;
            Ok(Module::new(tree))
        }
        Err(fault) => match fault {
            ParseFault::NoMemory => Err(SourceFault::Parse(fault)),
            _ => {
                // What is left of the text may have a fault of the scanner.
                parser.source.finish()?;
                Err(SourceFault::Parse(fault))
            }
        },
    }
}
