//! The words of variables and of their parts.

use ob_check::modules::check;
use ob_layout::{Layout, encode};
use ob_mean::openings::opening;
use ob_syntax::tree_reader::read;
use std::test::Fail;

const PARTS: &[u8] = b"MODULE Y; VAR a: ARRAY 3 OF RECORD p: INTEGER; q: BOOLEAN END; z: INTEGER; \
    BEGIN a[2].q := TRUE; z := 9 END Y.";

#[test]
fn each_part_of_a_variable_has_its_word(rt: HostRuntime) -> Result<(), Fail> {
    let alloc = rt.alloc();
    let checked = check(alloc, read(alloc, PARTS)?)?;
    let layout = Layout::of(alloc, &checked)?;
    assert!(rt; layout.variable_words() == 7);
    assert!(rt; layout.word_of(0, &[]) == Some(0));
    assert!(rt; layout.word_of(0, &[2, 1]) == Some(5));
    assert!(rt; layout.word_of(1, &[]) == Some(6));
    assert!(rt; layout.word_of(0, &[3]).is_none());
    assert!(rt; layout.word_of(0, &[2, 2]).is_none());
    assert!(rt; layout.word_of(1, &[0]).is_none());
    assert!(rt; layout.word_of(2, &[]).is_none());
    let words = encode(alloc, &opening(alloc, &checked)?)?;
    assert_eq!(rt; words.as_slice(), [0, 0, 0, 0, 0, 1, 9].as_slice());
    Ok(())
}
