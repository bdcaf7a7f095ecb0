//! Texts with their printed texts.

use ob_syntax::printer::print;
use ob_syntax::tree_reader::read;
use std::alloc::Global;
use std::test::Fail;

/// The printed text of a text's module.
pub fn printed(alloc: Global, text: &[u8]) -> Result<String, Fail> {
    let module = read(alloc, text)?;
    Ok(print(alloc, &module)?)
}

#[test]
fn prints_texts(rt: HostRuntime) -> Result<(), Fail> {
    let texts: [(&[u8], &str); 2] = [
        (
            b"MODULE M;(* c (* d *) *)VAR x:INTEGER;END M.",
            "MODULE M ; VAR x : INTEGER ; END M .\n",
        ),
        (
            b"MODULE Whole; CONST n=007; m=-n+1; \
            TYPE A=ARRAY n OF INTEGER; R=RECORD END; S=RECORD x,y: A;; z: R END; VAR a,b: A; c: S; \
            PROCEDURE P*(VAR x,y: INTEGER; z: A); CONST k=0; PROCEDURE Q; BEGIN END Q; PROCEDURE R(); END R; \
            BEGIN x:=y END P; \
            BEGIN IF a#b THEN P ELSIF a<b THEN P(); ELSIF a<=b THEN ELSE P(a, b[1].z) END; \
            WHILE ~(a>b) OR c.x[n]>=c.z.y DO a:=+a*b DIV c MOD 2&(x=y)-1 END; \
            REPEAT REPEAT UNTIL(a#b); P;UNTIL a<b OR ~c; END Whole.",
            "MODULE Whole ; CONST n = 7 ; m = - n + 1 ; \
            TYPE A = ARRAY n OF INTEGER ; R = RECORD END ; S = RECORD x , y : A ; ; z : R END ; VAR a , b : A ; c : S ; \
            PROCEDURE P * ( VAR x , y : INTEGER ; z : A ) ; CONST k = 0 ; PROCEDURE Q ; BEGIN END Q ; PROCEDURE R ( ) ; END R ; \
            BEGIN x := y END P ; \
            BEGIN IF a # b THEN P ELSIF a < b THEN P ( ) ; ELSIF a <= b THEN ELSE P ( a , b [ 1 ] . z ) END ; \
            WHILE ~ ( a > b ) OR c . x [ n ] >= c . z . y DO a := + a * b DIV c MOD 2 & ( x = y ) - 1 END ; \
            REPEAT REPEAT UNTIL ( a # b ) ; P ; UNTIL a < b OR ~ c ; END Whole .\n",
        ),
    ];
    for (text, want) in texts {
        let once = printed(rt.alloc(), text)?;
        assert!(rt; once.as_str() == want);

        let again = printed(rt.alloc(), once.as_bytes())?;
        assert!(rt; again.as_str() == want);
    }
    Ok(())
}
