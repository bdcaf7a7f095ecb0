//! The pages of the faults of an object: of its code, its opening and its values. Made by tools/fault_pages from docs/FAULTS.md.

use crate::page::Page;

/// The pages of the faults of an object: of its code, its opening and its values.
pub const OBJECT_ROWS: &[Page] = &[
    Page {
        name: "G1",
        text: "\
G1: the code of the module's procedures would have over 65,535 instructions.
All commands make the code and tell it, before a fault of the opening, but `run
--tree`, `verify`, and `draw` and `explain` of a record. A procedure that adds
a variable up 21,844 times is long enough.

Shorten the procedures, or give parts that are written twice a procedure of
their own; `run --tree` runs the module without code.

Explained as `the code of the module's procedures would have over 65535
instructions; run --tree runs it without code`.

Shown in its text by `obl0 explain a.mod`.
",
    },
    Page {
        name: "O2",
        text: "\
O2: the module's body traps, so that the object has no first state; the trap's
number stands behind it. `MODULE M; VAR x: INTEGER; BEGIN x := 2147483647; x :=
x + 1 END M.` is `O2 trap 1`: a sum that is out of range. `explain` shows the
operation that traps, in its line and with its values: in the statements behind
the module's own BEGIN, or in a procedure that they call.

`O2 trap 5` says that the body needs more than 1,000,000 turns, whatever stands
behind `-b`: look for a loop without an end. So each opening ends, but it need
not end soon: it is a million turns long at most, and each turn as long as the
statements between it and the next one, which may be all that a text of 65,536
bytes holds.

  MODULE M; VAR x: INTEGER; BEGIN x := 2147483647; x := x + 1 END M.
    O2 trap 1
    the module's body traps here, so the object has no first state: 2147483647
      + 1 is outside the range of INTEGER, -2147483648 to 2147483647
  MODULE M; VAR a: ARRAY 2 OF INTEGER; i: INTEGER; BEGIN i := 2; a[i] := 1 END M.
    O2 trap 2
    the module's body traps here, so the object has no first state: the index
      is 2, and the array has the indices 0 to 1
  MODULE M; VAR x: INTEGER; BEGIN x := 1 DIV x END M.
    O2 trap 3
    the module's body traps here, so the object has no first state: 1 DIV 0 has
      no value, since a divisor is at least 1
  MODULE M; PROCEDURE P; BEGIN P END P; BEGIN P END M.
    O2 trap 4
    the module's body traps here, so the object has no first state: at most 64
      procedures are active within one another, and this would be the 65th
  MODULE M; BEGIN WHILE TRUE DO END END M.
    O2 trap 5
    the module's body traps here, so the object has no first state: no turn is
      left of the 1000000 that it has for its loops and calls
  MODULE M; VAR x: INTEGER; BEGIN REPEAT x := x + 1 UNTIL x > 1000000 END M.
    O2 trap 5
    the module's body traps here, so the object has no first state: no turn is
      left of the 1000000 that it has for its loops and calls

Shown in its text by `obl0 explain a.mod`.
",
    },
    Page {
        name: "M1",
        text: "\
M1: a value for a name that is none of the module's variables, at the name.
Upper and lower case differ. Where the module has given the variable up, take
its V line out of the record. With `V y 2` in the record, and x as the module's
only variable, it is `M1 y`.

`--from RECORD` has `seq`, `run`, `state`, `serve`, `draw` and `explain` begin
with the values of a record, in place of the module's body. Where a fault of
the opening would be told, one of these is: of the values that can't be carried
over the first one, in the order of the record's V lines. Behind the fault
stands the name. `explain` shows it in the record.
",
    },
    Page {
        name: "M2",
        text: "\
M2: a value that is none of its variable's type, at the value. A number is one
of an INTEGER, and `TRUE` and `FALSE` of a BOOLEAN; an array has the same
length, and a record the same names of fields in the same order. With `V x
TRUE` in the record, and x as an INTEGER of the module, it is `M2 x`.

`--from RECORD` has `seq`, `run`, `state`, `serve`, `draw` and `explain` begin
with the values of a record, in place of the module's body. Where a fault of
the opening would be told, one of these is: of the values that can't be carried
over the first one, in the order of the record's V lines. Behind the fault
stands the name. `explain` shows it in the record.
",
    },
];
