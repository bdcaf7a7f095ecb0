//! Tokens of texts without blanks.

use ob_scan::{Kind, ScanFault, scan};
use std::test::Fail;

/// Each token is the longest that can stand at its place: `<=` and `:=` are one each.
#[test]
fn symbols_are_the_longest_ones(rt: HostRuntime) -> Result<(), Fail> {
    let tokens = scan(rt.alloc(), b"a<=b:=c")?;
    let wanted = [
        (Kind::Ident, 0, 1),
        (Kind::LessOrEqual, 1, 3),
        (Kind::Ident, 3, 4),
        (Kind::Assign, 4, 6),
        (Kind::Ident, 6, 7),
    ];
    assert_eq!(rt; tokens.as_slice().len(), wanted.len());
    for (token, (kind, start, end)) in tokens.as_slice().iter().zip(wanted) {
        assert!(rt; token.kind == kind && token.start == start && token.end == end);
    }
    Ok(())
}

/// A number ends where no digit follows, and there a name may begin.
#[test]
fn a_name_behind_a_number(rt: HostRuntime) -> Result<(), Fail> {
    let tokens = scan(rt.alloc(), b"12ab")?;
    let [number, name] = tokens.as_slice() else {
        return Err("not two tokens")?;
    };
    assert!(rt; number.kind == Kind::Number && number.start == 0 && number.end == 2);
    assert!(rt; name.kind == Kind::Ident && name.start == 2 && name.end == 4);
    Ok(())
}

/// `(*)` begins a comment that has no end, and 2147483648 is one more than the largest INTEGER: both are at fault where they begin.
#[test]
fn texts_that_have_no_tokens(rt: HostRuntime) -> Result<(), Fail> {
    let fault = scan(rt.alloc(), b"(*)").err();
    assert!(rt; matches!(fault, Some(ScanFault::OpenComment(0))));
    let fault = scan(rt.alloc(), b"2147483648").err();
    assert!(rt; matches!(fault, Some(ScanFault::NumberTooLarge(0))));
    Ok(())
}
