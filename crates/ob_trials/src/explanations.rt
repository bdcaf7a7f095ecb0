//! Faults as they are shown to people.

use ob_diagnosis::module_remark::{check_remark, parse_remark, scan_remark};
use ob_explain_sentences::explanation::explanation;
use ob_parser::parser::ParseFault;
use ob_scan::ScanFault;
use ob_scopes::fault::broken;
use ob_typing::rule::Rule;
use std::test::Fail;

const TEXT: &[u8] = b"MODULE M;\n\tVAR a, a: INTEGER;\nEND M.";

#[test]
fn a_place_is_shown_below_its_line(rt: HostRuntime) -> Result<(), Fail> {
    let remark = check_remark(rt.alloc(), TEXT, broken(Rule::DeclaredTwice, 18))?.ok_or(
        "no remark",
    )?;
    let shown = explanation(rt.alloc(), "m.mod", TEXT, &remark)?;
    assert_eq!(rt;
        shown.as_str(),
        "m.mod:2:9\n\tVAR a, a: INTEGER;\n\t       ^\n`a`: a name is declared once in a scope, and this one is declared before, in line 2\n"
    );
    Ok(())
}

#[test]
fn the_end_of_a_text_is_a_place(rt: HostRuntime) -> Result<(), Fail> {
    let remark = parse_remark(rt.alloc(), TEXT, ParseFault::Unexpected(36))?.ok_or("no remark")?;
    let shown = explanation(rt.alloc(), "m.mod", TEXT, &remark)?;
    assert_eq!(rt;
        shown.as_str(),
        "m.mod:3:7\nEND M.\n      ^\nthe module can't go on like this; look here, and at what stands just before it\n"
    );
    Ok(())
}

#[test]
fn want_of_memory_has_no_place(rt: HostRuntime) -> Result<(), Fail> {
    assert!(rt; scan_remark(rt.alloc(), TEXT, ScanFault::NoMemory)?.is_none());
    assert!(rt; scan_remark(rt.alloc(), TEXT, ScanFault::TooLong)?.is_some());
    Ok(())
}
