//! Which exports are known to change no variable of their module.

use ob_carry::silent_exports::read_only_exports;
use ob_check::modules::check;
use ob_syntax::tree_reader::read;
use std::test::Fail;

const COUNTER: &[u8] = b"MODULE C; TYPE Row = ARRAY 2 OF INTEGER; VAR x: INTEGER; row: Row; \
    PROCEDURE Set(VAR v: INTEGER); BEGIN v := 1 END Set; \
    PROCEDURE Get*(VAR v: INTEGER); BEGIN v := x + row[1] END Get; \
    PROCEDURE Inc*; BEGIN x := x + 1 END Inc; \
    PROCEDURE Part*; BEGIN row[0] := 1 END Part; \
    PROCEDURE Hand*; BEGIN Set(x) END Hand; \
    PROCEDURE HandPart*; BEGIN Set(row[1]) END HandPart; \
    PROCEDURE Again*; BEGIN IF x > 0 THEN Inc END END Again; \
    PROCEDURE Own*(VAR v: INTEGER); VAR own: Row; BEGIN own[0] := x; Set(own[1]); Set(v) END Own; \
    END C.";

#[test]
fn an_export_that_writes_the_module_is_not_read_only(rt: HostRuntime) -> Result<(), Fail> {
    let alloc = rt.alloc();
    let checked = check(alloc, read(alloc, COUNTER)?)?;
    let told = read_only_exports(alloc, &checked)?;
    assert_eq!(rt;
        told.as_slice(),
        [true, false, false, false, false, false, true].as_slice()
    );
    Ok(())
}

const NESTED: &[u8] = b"MODULE N; VAR x: INTEGER; \
    PROCEDURE Out*(k: INTEGER); \
        PROCEDURE In(k: INTEGER); BEGIN IF k > 0 THEN Out(k - 1) END END In; \
    BEGIN In(k) END Out; \
    PROCEDURE Put*(k: INTEGER); \
        PROCEDURE In(k: INTEGER); BEGIN IF k > 0 THEN Put(k - 1) ELSE x := k END END In; \
    BEGIN In(k) END Put; \
    PROCEDURE Down*(k: INTEGER); BEGIN WHILE k > 0 DO Down(k - 1); k := 0 END END Down; \
    PROCEDURE Round*(k: INTEGER); BEGIN REPEAT Put(k) UNTIL k >= 0 END Round; \
    END N.";

#[test]
fn procedures_within_one_another_are_told(rt: HostRuntime) -> Result<(), Fail> {
    let alloc = rt.alloc();
    let checked = check(alloc, read(alloc, NESTED)?)?;
    let told = read_only_exports(alloc, &checked)?;
    assert_eq!(rt; told.as_slice(), [true, false, true, false].as_slice());
    Ok(())
}
