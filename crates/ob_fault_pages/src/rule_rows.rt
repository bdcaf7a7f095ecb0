//! The pages of the faults of a module by the rules of the language. Made by tools/fault_pages from docs/FAULTS.md.

use crate::page::Page;

/// The pages of the faults of a module by the rules of the language.
pub const RULE_ROWS: &[Page] = &[
    Page {
        name: "C1",
        text: "\
C1: a name or a field that is not there. Names are known behind their
declaration only, and upper and lower case differ. The language's own names are
INTEGER, BOOLEAN, TRUE and FALSE.

`explain` asks whether the nearest visible name is meant: one that differs in
small letters and capitals alone, or else by one or two edits (a letter
changed, put in, left out, or swapped with the next one), where these are fewer
than half of the letters of the name that stands there; of equally near ones
the first. Where it has a hint, it asks for none.

It looks at the language's own names, at those that the module declares before
the place, and at those of each procedure in which it stands; and of a field
that is not there at the fields of the record alone.

Of these it takes only such as can stand there: types behind `:` and OF; a
variable where a statement begins before `:=`, `[` or `.`, and else a
procedure; no procedure behind `=`; and elsewhere constants and variables.

Explained as `a name is declared before it is used, and none of this name is
visible here`.

  MODULE M; BEGIN x := 1 END M.
    C1 at 16
  MODULE M; VAR x: Integer; END M.
    C1 at 17
    a name is declared before it is used, and none of this name is visible
      here; did you mean `INTEGER`?
  MODULE M; VAR total: INTEGER; BEGIN totl := 1 END M.
    C1 at 36
    a name is declared before it is used, and none of this name is visible
      here; did you mean `total`?
  MODULE M; PROCEDURE Push; END Push; BEGIN Psuh END M.
    C1 at 42
    a name is declared before it is used, and none of this name is visible
      here; did you mean `Push`?
  MODULE M; BEGIN WHILE TRUE DO BREAK END END M.
    C1 at 30
    hint: there is no BREAK; a loop ends by its condition, as in WHILE (i < n)
      & ~found DO
  MODULE M; PROCEDURE P; BEGIN RETURN END P; END M.
    C1 at 29
    hint: there is no RETURN; a procedure ends at its END, so put what is left
      of it into an IF
  MODULE M; VAR x: INTEGER; BEGIN INC(x) END M.
    C1 at 32
    hint: there is no INC; write x := x + 1
  MODULE M; VAR x: BOOL; END M.
    C1 at 17
    hint: the type of TRUE and FALSE is BOOLEAN
  .. and 7 more, in docs/FAULTS.md

All commands tell C1 to C10, the first in the text.

Shown in its text by `obl0 explain a.mod`.
",
    },
    Page {
        name: "C2",
        text: "\
C2: a name that is declared twice in one scope, or a field that stands twice in
a record, at the second one. The names of the module are in one scope; a
procedure's parameters are in its own, with what it declares, where they may
hide others.

`explain` tells in which line the name is declared before.

  MODULE M; VAR x, x: INTEGER; END M.
    C2 at 17
    a name is declared once in a scope, and this one is declared before, in
      line 1
  MODULE M; VAR x: INTEGER; PROCEDURE x; END x; END M.
    C2 at 36
    a name is declared once in a scope, and this one is declared before, in
      line 1
  MODULE M; PROCEDURE P(k: INTEGER); VAR k: INTEGER; END P; END M.
    C2 at 39
    a name is declared once in a scope, and this one is declared before, in
      line 1
  MODULE M; VAR r: RECORD f: INTEGER; f: BOOLEAN END; END M.
    C2 at 36
    a field stands once in a record, and this name stands in it before

All commands tell C1 to C10, the first in the text.

Shown in its text by `obl0 explain a.mod`.
",
    },
    Page {
        name: "C3",
        text: "\
C3: a name of another kind than is needed, or a selector on what has no such
part, at the `.` or `[`. Behind the `:` of a parameter stands the name of a
type: give the type a name.

`explain` tells what the name is declared as, as the last of the visible names
that are known before the place. It tells what is needed there, where the
tokens beside it show that: behind a `:` or OF a type, at the beginning of a
statement a variable or a procedure, behind an operator, a `(` or a keyword of
an expression a constant or a variable.

Where they don't show it, it says only that the name can't stand there. At a
`.` or a `[` it tells of a whole array or a whole record before it, by the
declaration of the variable and its selectors up to there.

  MODULE M; BEGIN INTEGER := 1 END M.
    C3 at 16
    this is a type, and a variable is needed here
  MODULE M; CONST lim = 8; BEGIN lim := 1 END M.
    C3 at 31
    this is a constant, and a variable is needed here
    hint: a constant is never changed; what changes is declared in VAR
  MODULE M; VAR x: INTEGER; y: x; END M.
    C3 at 29
    this is a variable, and the name of a type is needed here
  MODULE M; PROCEDURE P; END P; BEGIN P := 1 END M.
    C3 at 36
    this is a procedure, and a variable is needed here
    hint: there are no functions; a procedure gives its result by a VAR
      parameter: assign to that
  MODULE M; VAR x: INTEGER; BEGIN x END M.
    C3 at 32
    this is a variable, and a procedure is needed here
  MODULE M; VAR x: INTEGER; BEGIN x := INTEGER END M.
    C3 at 37
    this is a type, and a constant or a variable is needed here
  MODULE M; VAR x: INTEGER; PROCEDURE P; END P; BEGIN x := P END M.
    C3 at 57
    this is a procedure, and a constant or a variable is needed here
    hint: there are no functions; a procedure gives its results by VAR
      parameters, and a call of it is a statement
  MODULE M; VAR x: INTEGER; PROCEDURE P; TYPE T = x; END P; END M.
    C3 at 48
    this is a variable, which can't stand here
  .. and 6 more, in docs/FAULTS.md

All commands tell C1 to C10, the first in the text.

Shown in its text by `obl0 explain a.mod`.
",
    },
    Page {
        name: "C4",
        text: "\
C4: another type than is needed: at the operator that does not take its
operand, or at the first byte of the expression. Arrays and records are
assigned element by element, and two types that look alike are two: declare one
with a name and use the name.

`explain` tells which type stands there and which one is needed, as far as the
tokens around the place and the declarations of names show both. At an operator
it tells what this takes, and which operand is of the other type; in a
condition, a length, an index, an assignment or a call what the expression is.

It knows the type of a number, of TRUE and FALSE, of what begins with a sign or
`~`, of a variable with its selectors, and of a constant that is one number,
TRUE or FALSE; and of two single values, where the one is known, the other is
of the other type. The name of a type stands for what it is declared as.

Behind an operator, a sign or `~` it knows the type of what stands in
parentheses too: with a comparison, `&`, OR or `~` in them it is a BOOLEAN,
since no INTEGER has one in it, and else it is of the type of its first
operand. A whole array or record with an operator behind it is told as such,
and alone by the type that is needed.

Where it knows too little, it says less, as `this is of another type than the
one that is needed here`.

  MODULE M; VAR x: INTEGER; BEGIN x := TRUE END M.
    C4 at 37
    the expression that begins here is a BOOLEAN, and the variable before it is
      an INTEGER
    hint: write 1 for TRUE and 0 for FALSE, or declare the variable BOOLEAN
  MODULE M; VAR x: INTEGER; BEGIN x := x + TRUE END M.
    C4 at 39
    this operator takes INTEGERs, and what stands behind it is a BOOLEAN
  MODULE M; VAR x: BOOLEAN; BEGIN x := x & 1 END M.
    C4 at 39
    this operator takes BOOLEANs, and what stands behind it is an INTEGER
  MODULE M; VAR x: INTEGER; ok: BOOLEAN; BEGIN ok := x > 0 & ok END M.
    C4 at 57
    this operator takes BOOLEANs, and what stands before it is an INTEGER
    hint: a comparison beside another one, or beside & or OR, stands in
      parentheses: (a > 0) & (b < 5)
  MODULE M; VAR x: BOOLEAN; BEGIN x := x = 1 END M.
    C4 at 39
    this compares two INTEGERs or two BOOLEANs, and before it stands a BOOLEAN,
      behind it an INTEGER
    hint: a BOOLEAN is a condition by itself, as in IF b THEN and in IF ~b THEN
  MODULE M; VAR x: INTEGER; BEGIN x := -TRUE END M.
    C4 at 37
    a sign takes an INTEGER, and what stands behind it is a BOOLEAN
  MODULE M; VAR x: INTEGER; b: BOOLEAN; BEGIN b := ~(x) END M.
    C4 at 49
    ~ takes a BOOLEAN, and what stands behind it is an INTEGER
  MODULE M; VAR x: INTEGER; BEGIN IF ~x = 1 THEN END END M.
    C4 at 35
    ~ takes a BOOLEAN, and what stands behind it is an INTEGER
    hint: ~ takes the one operand behind it; that a comparison does not hold is
      written ~(a = b), or a # b
  .. and 19 more, in docs/FAULTS.md

All commands tell C1 to C10, the first in the text.

Shown in its text by `obl0 explain a.mod`.
",
    },
    Page {
        name: "C5",
        text: "\
C5: a constant that has no value: there is a variable in it, or an operation
has no result.

`explain` tells the operands of the operation, where each is a number or a
constant that is declared as one, behind a minus or not.

  MODULE M; CONST c = 2147483647 + 1; END M.
    C5 at 31
    2147483647 + 1 is outside -2147483648 to 2147483647, so there is no
      constant
  MODULE M; CONST top = 2147483647; c = -top - 2; END M.
    C5 at 43
    -2147483647 - 2 is outside -2147483648 to 2147483647, so there is no
      constant
  MODULE M; CONST c = (2147483647) + 1; END M.
    C5 at 33
    the result is outside -2147483648 to 2147483647, so there is no constant
  MODULE M; CONST c = 1 DIV 0; END M.
    C5 at 22
    a divisor is 1 or more, and this one is 0, so there is no constant
  MODULE M; CONST c = 1 & (1 DIV 0 = 0); END M.
    C5 at 27
    a divisor is 1 or more, and this one is 0, so there is no constant
  MODULE M; CONST c = 1 DIV (0); END M.
    C5 at 22
    a divisor is 1 or more, and this one is not, so there is no constant
  MODULE M; VAR n: INTEGER; PROCEDURE P; VAR a: ARRAY n OF INTEGER; END P; END M.
    C5 at 52
    the length of an array is a constant, as n of CONST n = 4, and has no
      variables in it

All commands tell C1 to C10, the first in the text.

Shown in its text by `obl0 explain a.mod`.
",
    },
    Page {
        name: "C6",
        text: "\
C6: an array has 1 to 4096 elements, at its length.

`explain` tells the length, where it is a number or a constant that is declared
as one, behind a minus or not.

  MODULE M; VAR a: ARRAY 0 OF INTEGER; END M.
    C6 at 23
    an array has 1 to 4096 elements, and the length of this one is 0
  MODULE M; CONST n = 5000; VAR a: ARRAY n OF INTEGER; END M.
    C6 at 39
    an array has 1 to 4096 elements, and the length of this one is 5000
  MODULE M; VAR a: ARRAY 1 - 1 OF INTEGER; END M.
    C6 at 23
    an array has 1 to 4096 elements

All commands tell C1 to C10, the first in the text.

Shown in its text by `obl0 explain a.mod`.
",
    },
    Page {
        name: "C7",
        text: "\
C7: the actuals of a call. There are as many as parameters, and for a VAR
parameter a variable stands, with selectors or without, and nothing else.

`explain` tells how many there are of both; and of an actual that is no
variable, whether a variable begins it or it is a constant, by the name there.

  MODULE M; PROCEDURE P(x: INTEGER); END P; BEGIN P END M.
    C7 at 48
    this call has 0 arguments, and the procedure of line 1 has 1 parameter
  MODULE M; PROCEDURE P(x: INTEGER); END P; BEGIN P(1, 2) END M.
    C7 at 48
    this call has 2 arguments, and the procedure of line 1 has 1 parameter
  MODULE M; VAR b: INTEGER; PROCEDURE P(VAR x: INTEGER); END P; BEGIN P(b + 1) END M.
    C7 at 70
    a parameter with VAR takes a variable alone, and this one begins an
      expression; the heading of the procedure stands in line 1
    hint: put the value into a variable first, and hand that over
  MODULE M; CONST c = 1; PROCEDURE P(VAR x: INTEGER); END P; BEGIN P(c) END M.
    C7 at 67
    a parameter with VAR takes a variable, and this is a constant; the heading
      of the procedure stands in line 1
    hint: put the value into a variable first, and hand that over
  MODULE M; PROCEDURE P(VAR x: INTEGER); END P; BEGIN P(1) END M.
    C7 at 54
    a parameter with VAR takes a variable, and nothing else; the heading of the
      procedure stands in line 1
    hint: put the value into a variable first, and hand that over

All commands tell C1 to C10, the first in the text.

Shown in its text by `obl0 explain a.mod`.
",
    },
    Page {
        name: "C8",
        text: "\
C8: a variable of a procedure around this one. A procedure sees its own
variables and those of the module. Hand the variable over as a parameter, with
VAR where it is changed.

Explained as `a procedure sees its own variables and those of the module, and
none of a procedure around it; hand it over as a parameter, with VAR where it
is changed`.

  MODULE M; PROCEDURE P; VAR a: INTEGER; PROCEDURE Q; BEGIN a := 1 END Q; END P; END M.
    C8 at 58

All commands tell C1 to C10, the first in the text.

Shown in its text by `obl0 explain a.mod`.
",
    },
    Page {
        name: "C9",
        text: "\
C9: a limit is passed: a type of over 4096 words or over 100 deep, at the type;
the variable with which the module has over 4096 words or a procedure's frame,
parameters with it, over 1024; the ninth parameter of a procedure; the 65th
export, each at its name. Exports are procedures with a `*`; those that are not
called from outside need none.

  MODULE M; PROCEDURE P(a, b, c, d, e, f, g, h, i: INTEGER); END P; END M.
    C9 at 46
    a procedure has at most 8 parameters, and this is the ninth
  MODULE M; VAR a: ARRAY 4096 OF ARRAY 2 OF RECORD END; END M.
    C9 at 17
    a type has at most 4096 words, and this one has 8192
  MODULE M; VAR a: ARRAY 4096 OF INTEGER; b: INTEGER; END M.
    C9 at 40
    the variables of a module have at most 4096 words, and with this one there
      are 4097
  MODULE M; PROCEDURE P(k: INTEGER); VAR a: ARRAY 1024 OF INTEGER; END P; END M.
    C9 at 39
    the variables of a procedure, with its parameters, have at most 1024 words,
      and with this one there are 1025
  MODULE M; VAR a: ARRAY 2 * 2048 OF INTEGER; b: INTEGER; END M.
    C9 at 44
    the variables of a module have at most 4096 words, and with this one there
      are more

How many words there are is told where the length of each array is a number, or
the name of a constant that is declared as one number. Where one of them is
not, it says `with this one there are more`, and of a type `a type has at most
4096 words, and is at most 100 deep`, as of one that is too deep. At the 65th
export it says `a module has at most 64 exports, and this is the 65th`.

All commands tell C1 to C10, the first in the text.

Shown in its text by `obl0 explain a.mod`.
",
    },
    Page {
        name: "C10",
        text: "\
C10: what can be exported: procedures of the module itself, with parameters of
INTEGER and BOOLEAN.

`explain` tells which of both it is.

  MODULE M; TYPE T = RECORD x: INTEGER END; PROCEDURE P*(VAR r: T); END P; END M.
    C10 at 52
    the parameters of an export are INTEGERs and BOOLEANs, and one of these is
      an array or a record
  MODULE M; PROCEDURE P; PROCEDURE Q*; END Q; END P; END M.
    C10 at 33
    exports are procedures of the module itself, and this one stands within
      another procedure

All commands tell C1 to C10, the first in the text.

Shown in its text by `obl0 explain a.mod`.
",
    },
];
