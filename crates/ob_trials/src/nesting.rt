//! The deepest trees are read, printed and dropped.

use crate::printing::printed;
use std::alloc::{AllocError, Global};
use std::test::Fail;

/// What stands before constructs, what opens and closes one, and what stands behind them.
type Nest = [&'static str; 4];

const PROCEDURES: Nest = ["MODULE M; ", "PROCEDURE P; ", "END P; ", "END M."];

const ARRAYS: Nest = ["MODULE M; TYPE T = ", "ARRAY 1 OF ", "", "; END M."];

const RECORDS: Nest = ["MODULE M; VAR x: ", "RECORD a: ", " END", "; END M."];

const IFS: Nest = ["MODULE M; BEGIN ", "IF a THEN ", "END ", "END M."];

const ELSES: Nest = ["MODULE M; BEGIN ", "IF a THEN ELSE ", "END ", "END M."];

const ELSIFS: Nest = [
    "MODULE M; BEGIN ",
    "IF a THEN ELSIF b THEN ",
    "END ",
    "END M.",
];

const WHILES: Nest = ["MODULE M; BEGIN ", "WHILE a DO ", "END ", "END M."];

const REPEATS: Nest = ["MODULE M; BEGIN ", "REPEAT ", "UNTIL a ", "END M."];

const PARENTHESES: Nest = ["MODULE M; VAR x: INTEGER; BEGIN x := ", "(", ")", " END M."];

const ACTUALS: Nest = ["MODULE M; BEGIN P(", "(", ")", ") END M."];

const INDICES: Nest = ["MODULE M; BEGIN x := a", "[a", "]", " END M."];

const TARGETS: Nest = ["MODULE M; BEGIN x", "[a", "]", " := 1 END M."];

const NEGATIONS: Nest = ["MODULE M; CONST c = ", "~", "", "; END M."];

/// The text of so many constructs round this.
fn nested(alloc: Global, nest: &Nest, count: usize, within: &str) -> Result<String, AllocError> {
    let [before, opening, closing, behind] = nest;
    let mut text = String::from_str(alloc, before)?;
    for _ in 0..count {
        text.push_str(opening)?;
    }
    text.push_str(within)?;
    for _ in 0..count {
        text.push_str(closing)?;
    }
    text.push_str(behind)?;
    Ok(text)
}

/// Whether the printed text of a text's module is its own printed text.
fn is_printed_again(alloc: Global, text: &[u8]) -> Result<bool, Fail> {
    let once = printed(alloc, text)?;
    let again = printed(alloc, once.as_bytes())?;
    Ok(again.as_str() == once.as_str())
}

#[test]
fn prints_the_deepest_trees(rt: HostRuntime) -> Result<(), Fail> {
    let rows = [
        (PROCEDURES, ""),
        (ARRAYS, "U"),
        (RECORDS, "T"),
        (IFS, ""),
        (ELSES, ""),
        (ELSIFS, ""),
        (WHILES, ""),
        (REPEATS, ""),
        (PARENTHESES, "1"),
        (ACTUALS, "1"),
        (INDICES, ""),
        (TARGETS, ""),
        (NEGATIONS, "1"),
    ];
    for (nest, within) in &rows {
        let text = nested(rt.alloc(), nest, 100, within)?;
        assert!(rt; is_printed_again(rt.alloc(), text.as_bytes())?, "{text}");
    }
    Ok(())
}
