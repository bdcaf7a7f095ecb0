//! The pages of the faults of a module's bytes and of its grammar. Made by tools/fault_pages from docs/FAULTS.md.

use crate::page::Page;

/// The pages of the faults of a module's bytes and of its grammar.
pub const TEXT_ROWS: &[Page] = &[
    Page {
        name: "S1",
        text: "\
S1: a byte that begins no token. Outside comments a module has ASCII letters,
digits, blanks (space, tab, line breaks) and the symbols of the language. Names
have no `_`; texts in quotes are not a part of the language; \"not equal\" is
`#`; comments are `(* .. *)`.

A byte order mark, which some editors write, stands at place 0 and is seen by
no eye: save the file as UTF-8 without it, or as ASCII.

Explained as `no word, number or sign of the language begins with this
character`.

  MODULE M; VAR sum_1: INTEGER; END M.
    S1 at 17
    hint: a name has letters and digits, and no underscores

  MODULE M; VAR x: INTEGER; BEGIN x := 1_000 END M.
    S1 at 38
    hint: a number has digits alone, and no underscores

  MODULE M; VAR x: INTEGER; BEGIN x := \"a\" END M.
    S1 at 37
    hint: there are no strings; a value is a number, TRUE or FALSE

  MODULE M; VAR x: INTEGER; BEGIN x := 'a' END M.
    S1 at 37
    hint: there are no characters; a value is a number, TRUE or FALSE

  MODULE M; VAR x: INTEGER; BEGIN x := {1} END M.
    S1 at 37
    hint: a comment is written (* .. *); there are no blocks in braces:
      statements stand between THEN, DO or BEGIN and END

  MODULE M; VAR x: INTEGER; BEGIN IF x != 1 THEN END END M.
    S1 at 37
    hint: not equal is written #

  MODULE M; // text
    S1 at 10
    hint: a comment is written (* .. *)

  MODULE M; VAR x: INTEGER; BEGIN x := 6 // 2; END M.
    S1 at 39
    hint: a quotient is written with DIV
  .. and 7 more, in docs/FAULTS.md

Shown in its text by `obl0 explain a.mod`.
",
    },
    Page {
        name: "S2",
        text: "\
S2: a number over 2147483647, at its first digit. The `-` before a number is an
operator and no part of it, so the smallest INTEGER can't be written as one
number in a module; write `-2147483647 - 1`. (In a script `-2147483648` is
fine.)

Explained as `a number is at most 2147483647`.

  MODULE M; VAR x: INTEGER; BEGIN x := 2147483648 END M.
    S2 at 37
    hint: count in a larger unit, as in thousands, or in two INTEGERs
  MODULE M; VAR x: INTEGER; BEGIN x := -2147483648 END M.
    S2 at 38
    hint: the smallest INTEGER is written -2147483647 - 1

Shown in its text by `obl0 explain a.mod`.
",
    },
    Page {
        name: "S3",
        text: "\
S3: a comment without an end, at the outermost `(*` that is open. Comments
nest, so each `(*` needs a `*)` of its own. `(*)` opens a comment: of a
procedure's parentheses with a `*` in them, for instance.

Explained as `this comment has no end; comments nest, and each (* has its own
*)`.

  MODULE M; (* x
    S3 at 10
  MODULE M; (* (* x *) END M.
    S3 at 10
  MODULE M; PROCEDURE P(*); END P; END M.
    S3 at 21

Shown in its text by `obl0 explain a.mod`.
",
    },
    Page {
        name: "S4",
        text: "\
S4: a name of over 64 bytes, at its first one. `MODULE aaa..a;` with 65 times
`a` is `S4 at 7`. Shorten it.

Explained as `a name has at most 64 characters`.

Shown in its text by `obl0 explain a.mod`.
",
    },
    Page {
        name: "S5",
        text: "\
S5: a module of over 65,536 bytes, always `S5 at 65536`, whatever stands in it.
Comments and blanks count. Shorten it: a module is one object, and can't be
split over files.

Explained as `a module has at most 65536 bytes`.

Shown in its text by `obl0 explain a.mod`.
",
    },
    Page {
        name: "P1",
        text: "\
P1: the first token with which the text so far can't go on to a module; or the
text's length, where it ends too early. What is wrong is that token, or what
stands just before it; the end is shown behind the last byte that is no blank.

`explain` tells what could stand there: exactly the kinds of token with which
the text before it goes on to some module. Behind the END of the module, its
name and the `.` only comments stand, and it says so. Where else nothing could
stand, it says `the module can't go on like this; look here, and at what stands
just before it`.

A word of another language, as FOR, is a name, and so is a misspelt keyword.
Where a name may stand, as where a statement begins, what is told is the word
behind it.

So `explain` names the word before too, where the text doesn't declare it and
it is a word of another language or a misspelt keyword; and where two names
stand side by side and no operator could stand between them: `` expected ..
behind `FOR` ``; of a name that it doesn't know it says so, as in `` behind the
name `BEGN` ``.

Where it knows none of the slips below, it asks whether a `(` is missing, which
a `)` behind it closes; whether END is, where the name there is the one of what
ends; or an operator, at a number or at a name in the same line that begins no
assignment and no call.

Else it asks whether a `;` is missing, or THEN, DO, a `]` or a `)` where one of
these could stand: exactly where the token could stand there behind it, by the
grammar. Of a `,` it asks so too, between names that are declared and between
the actuals of a call that is closed behind them.

It asks first whether a keyword is meant. It looks at the token there, and else
at the one just before it: where that is a name which the text has nowhere
before and declares nowhere, and no word of another language, and one or two
edits, as at C1, lead to a keyword with which, in its place, the text goes on
with the token behind it. Of several such keywords it asks for the nearest.
Where a `)` stands before the place, it asks so of the name with which the
statement begins, also where that is a keyword in small letters: `if (x = 1)`
is read as a call of `if`.

A missing END is often told far below. So `explain` tells of a construct that
is open there the line in which it begins. Open at a place is each MODULE,
PROCEDURE, RECORD, IF, WHILE and REPEAT before it that no END before it closes,
or of a REPEAT no UNTIL; an END closes the last one that is open. Where
`explain` tells one:

- Behind an END that closes an IF, a WHILE or a RECORD, and at the name of a
  module or procedure that is open: an END is missing before that END.
- Where the last one that is open could end, and the token stands in no such
  construct: at PROCEDURE or BEGIN; in an IF, WHILE or REPEAT also at END,
  UNTIL, ELSE or ELSIF, in a RECORD at CONST, TYPE or VAR; or at the end of the
  text. Of the module it is told only there.
- With an IF, WHILE or REPEAT also the last `ELSE IF` in it, where there is
  one: that opens an IF with an END of its own, which may be the one that is
  missing.
- Behind an END that closes a module or procedure: its name is missing, or
  there is one END too many.
- At P3, where a module or procedure around the one that ends has that name:
  the one that ends is still open.

Of these kinds whole groups are told by a name, and all others by their
spelling:

- a statement: a name, `IF`, `WHILE`, `REPEAT`;
- an expression: a name, a number, `(`, `~`, `+`, `-`; an operand: these
  without a sign;
- a type: a name, `ARRAY`, `RECORD`;
- a relation: `=`, `#`, `<`, `<=`, `>`, `>=`; an adding operator: `+`, `-`,
  `OR`; a multiplying operator: `*`, `DIV`, `MOD`, `&`; and an operator, which
  is any of these three.

Behind END, and not in front of a `.`, a name is expected whatever it is:
another than that of the module or procedure is P3.

  an empty file
    P1 at 0
    it ends at once
  module M; end M.
    P1 at 0
    expected `MODULE`
    hint: keywords are written in capitals
    `module` is a name
  MODULE M; VAR x: INTEGER; BEGN x := 1 END M.
    P1 at 31
    expected `:` or `,` behind the name `BEGN`
    hint: did you mean `BEGIN`?
    `BEGN` is no keyword, so it is a name, of one more variable, behind which
      `x` can't stand. Where a name may stand, a misspelt keyword is told at
      the word behind it
  MODULE M; PROCEDUR P; END P; END M.
    P1 at 10
    expected `CONST`, `TYPE`, `VAR`, `PROCEDURE`, `BEGIN` or `END`
    hint: did you mean `PROCEDURE`?
    no name may stand here, so the misspelt keyword itself is told
  MODULE M; VAR x: INTEGER BEGIN x := 1 END M.
    P1 at 25
    expected `;`
    hint: is a ; missing before it?
    a semicolon is missing before it
  MODULE M; VAR x: INTEGER; BEGIN REPEAT x := 1 END END M.
    P1 at 46
    expected an operator, `UNTIL` or `;`
    hint: the REPEAT of line 1 is still open; is its UNTIL missing? A REPEAT
      has no END
    a REPEAT ends with UNTIL and a condition, without an END
  MODULE M; VAR x: INTEGER; PROCEDURE P; BEGIN IF x > 0 THEN x := 1 END P; END M.
    P1 at 70
    expected `END` or `;`
    hint: the END before it closes the IF of line 1; is an END missing before
      that one?
    the END of the IF is missing, so the one of the procedure closes it
  MODULE M; VAR x: INTEGER; PROCEDURE P; BEGIN WHILE x > 0 DO x := 1; PROCEDURE Q; END Q; END M.
    P1 at 68
    expected a statement, `END` or `;`
    hint: the WHILE of line 1 is still open; is its END missing?
    two ENDs are missing, of which that of the WHILE comes first
  .. and 70 more, in docs/FAULTS.md

Shown in its text by `obl0 explain a.mod`.
",
    },
    Page {
        name: "P2",
        text: "\
P2: a construct within 100 others, at the token that opens the 101st:
PROCEDURE, ARRAY, RECORD, IF, WHILE, REPEAT, `(` or `[` of an expression, `~`.
`MODULE M; VAR x: INTEGER; BEGIN x := `, then 101 times `(`, `1`, 101 times `)`
and ` END M.` is `P2 at 137`. Give a part of it a procedure or a variable of
its own.

Explained as `this stands within 100 other constructs, and no more nest`.

Shown in its text by `obl0 explain a.mod`.
",
    },
    Page {
        name: "P3",
        text: "\
P3: a name behind END that isn't that of its module or procedure. Upper and
lower case differ.

`explain` tells the name that should stand there: the one behind the MODULE or
PROCEDURE that this END closes.

  MODULE M; END N.
    P3 at 14
    behind END stands the name of the module or of the procedure that ends,
      which is `M`
  MODULE M; PROCEDURE P; END p; END M.
    P3 at 27
    behind END stands the name of the module or of the procedure that ends,
      which is `P`
  MODULE M; VAR x: INTEGER; PROCEDURE P; BEGIN x := 1 END M.
    P3 at 56
    behind END stands the name of the module or of the procedure that ends,
      which is `P`
    hint: the PROCEDURE of line 1 is still open; is its END missing?

Shown in its text by `obl0 explain a.mod`.
",
    },
];
