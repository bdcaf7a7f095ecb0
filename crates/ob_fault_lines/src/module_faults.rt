//! The lines of a module's faults: of its text and of its opening.

ghost use Rattle.std.specs.Prelude.{◌≡◌, ◌++◌, OnErr, OnOk, string_bytes};
ghost use Rattle.ob_fault_lines.specs.ModuleFaultLines.{at_place, open_line, parse_line, rule_line, rule_number, scan_line, text_line};
ghost use Rattle.ob_text_words.specs.Appending.{GoesOn};

use ob_check::TextFault;
use ob_mean::openings::OpenFault;
use ob_parser::parser::ParseFault;
use ob_scan::ScanFault;
use ob_scan::scanner::LONGEST_TEXT;
use ob_scopes::fault::CheckFault;
use ob_text_words::numbers::push_number;
use ob_typing::rule::Rule;
use std::alloc::AllocError;

/// Appends the line of a fault of a module's text, without a line feed.
pub fn push_text_fault(line: &mut String, fault: TextFault) -> Result<(), AllocError>
    ensures ok { OnOk result (string_bytes line.new ≡ string_bytes line.old ++ text_line fault) }
    ensures left { OnErr result (GoesOn (string_bytes line.old) (string_bytes line.new)) }
{
    match fault {
        TextFault::Scan(fault) => push_scan_fault(line, fault),
        TextFault::Parse(fault) => push_parse_fault(line, fault),
        TextFault::Check(fault) => push_broken_rule(line, fault),
        TextFault::NoMemory => line.push_str("NoMemory"),
    }
}

/// Appends the line of a fault of a module's opening, without a line feed.
pub fn push_open_fault(line: &mut String, fault: OpenFault) -> Result<(), AllocError>
    ensures ok { OnOk result (string_bytes line.new ≡ string_bytes line.old ++ open_line fault) }
    ensures left { OnErr result (GoesOn (string_bytes line.old) (string_bytes line.new)) }
{
    match fault {
        OpenFault::Trap(trap) => {
            line.push_str("O2 trap ")?;
            push_number(line, trap)
        }
        OpenFault::NoMemory => line.push_str("NoMemory"),
    }
}

fn push_scan_fault(line: &mut String, fault: ScanFault) -> Result<(), AllocError>
    ensures ok { OnOk result (string_bytes line.new ≡ string_bytes line.old ++ scan_line fault) }
    ensures left { OnErr result (GoesOn (string_bytes line.old) (string_bytes line.new)) }
{
    match fault {
        ScanFault::StrayByte(place) => push_place(line, "S1", place),
        ScanFault::NumberTooLarge(place) => push_place(line, "S2", place),
        ScanFault::OpenComment(place) => push_place(line, "S3", place),
        ScanFault::NameTooLong(place) => push_place(line, "S4", place),
        ScanFault::TooLong => push_place(line, "S5", LONGEST_TEXT),
        ScanFault::NoMemory => line.push_str("NoMemory"),
    }
}

fn push_parse_fault(line: &mut String, fault: ParseFault) -> Result<(), AllocError>
    ensures ok { OnOk result (string_bytes line.new ≡ string_bytes line.old ++ parse_line fault) }
    ensures left { OnErr result (GoesOn (string_bytes line.old) (string_bytes line.new)) }
{
    match fault {
        ParseFault::Unexpected(place) => push_place(line, "P1", place),
        ParseFault::TooDeep(place) => push_place(line, "P2", place),
        ParseFault::NameDiffers(place) => push_place(line, "P3", place),
        ParseFault::NoMemory => line.push_str("NoMemory"),
    }
}

/// Appends the line of a rule that is broken.
fn push_broken_rule(line: &mut String, fault: CheckFault) -> Result<(), AllocError>
    ensures ok { OnOk result (string_bytes line.new ≡ string_bytes line.old ++ rule_line fault) }
    ensures left { OnErr result (GoesOn (string_bytes line.old) (string_bytes line.new)) }
{
    match fault {
        CheckFault::Broken(broken) => push_place(line, rule_number(broken.rule), broken.place),
        CheckFault::NoMemory => line.push_str("NoMemory"),
    }
}

/// The number of a rule.
fn rule_number(rule: Rule) -> &'static str
    ensures { result.now ≡ rule_number rule }
{
    match rule {
        Rule::UnknownName => "C1",
        Rule::DeclaredTwice => "C2",
        Rule::WrongKind => "C3",
        Rule::TypesDiffer => "C4",
        Rule::BadConstant => "C5",
        Rule::BadLength => "C6",
        Rule::BadActuals => "C7",
        Rule::WrongLevel => "C8",
        Rule::PassesLimit => "C9",
        Rule::BadExport => "C10",
    }
}

/// Appends a fault at a byte offset of the module's text.
fn push_place(line: &mut String, fault: &str, place: usize) -> Result<(), AllocError>
    ensures ok { OnOk result (string_bytes line.new ≡ string_bytes line.old ++ at_place fault.now place) }
    ensures left { OnErr result (GoesOn (string_bytes line.old) (string_bytes line.new)) }
{
    line.push_str(fault)?;
    line.push_str(" at ")?;
    push_number(line, place)
}
