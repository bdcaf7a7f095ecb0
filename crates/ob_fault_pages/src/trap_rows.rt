//! The pages of the traps, and of want of memory. Made by tools/fault_pages from docs/FAULTS.md.

use crate::page::Page;

/// The pages of the traps, and of want of memory.
pub const TRAP_ROWS: &[Page] = &[
    Page {
        name: "trap 1",
        text: "\
trap 1: an INTEGER would have left the range -2147483648 to 2147483647. Where
larger numbers can come, test the operands before the operation.

  MODULE M; PROCEDURE Next*(k: INTEGER; VAR n: INTEGER); BEGIN n := k + 1 END Next; END M.
    0 Next 2147483646
    0 Next 2147483647
    E 0.1 done 2147483647
    E 0.2 trap 1

A trap is no fault. `E 0.2 trap 1` is a reply to a call, on standard output
with status 0, and the call has changed nothing. `explain MODULE SCRIPT
--traps` tells of each place where calls of a script trap which operation it
is, with which values, and how many calls trap there (docs/FORMATS.md).
",
    },
    Page {
        name: "trap 2",
        text: "\
trap 2: an index lies outside its array. The indices of an array of 4 elements
are 0 to 3.

  MODULE M; VAR a: ARRAY 4 OF INTEGER; PROCEDURE Put*(i: INTEGER); BEGIN a[i] := 1 END Put; END M.
    0 Put 3
    0 Put 4
    0 Put -1
    E 0.1 done
    E 0.2 trap 2
    E 0.3 trap 2

A trap is no fault. `E 0.2 trap 1` is a reply to a call, on standard output
with status 0, and the call has changed nothing. `explain MODULE SCRIPT
--traps` tells of each place where calls of a script trap which operation it
is, with which values, and how many calls trap there (docs/FORMATS.md).
",
    },
    Page {
        name: "trap 3",
        text: "\
trap 3: a divisor is 0 or less. DIV and MOD take a divisor of at least 1.

  MODULE M; PROCEDURE Share*(k: INTEGER; VAR n: INTEGER); BEGIN n := 7 DIV k END Share; END M.
    0 Share 2
    0 Share 0
    0 Share -2
    E 0.1 done 3
    E 0.2 trap 3
    E 0.3 trap 3

A trap is no fault. `E 0.2 trap 1` is a reply to a call, on standard output
with status 0, and the call has changed nothing. `explain MODULE SCRIPT
--traps` tells of each place where calls of a script trap which operation it
is, with which values, and how many calls trap there (docs/FORMATS.md).
",
    },
    Page {
        name: "trap 4",
        text: "\
trap 4: 64 activations are there already. The call of the script is the first,
and each call of a procedure in the text is one more until it ends. Look for a
procedure that calls itself without an end, as `PROCEDURE P*; BEGIN P END P;`,
or write the recursion as a loop.

A trap is no fault. `E 0.2 trap 1` is a reply to a call, on standard output
with status 0, and the call has changed nothing. `explain MODULE SCRIPT
--traps` tells of each place where calls of a script trap which operation it
is, with which values, and how many calls trap there (docs/FORMATS.md).
",
    },
    Page {
        name: "trap 5",
        text: "\
trap 5: no turn is left. A turn is one execution of a loop's statements, or one
call of a procedure in the text. With each command that makes calls, each call
of the script has 100,000 turns, or as many as `-b` says, up to a million; with
`-b 3` the calls below have three.

At trap 5 look for a loop without an end, give the call more turns, or split
the work over several calls: what one call leaves the next one finds.

  MODULE M; PROCEDURE P*; BEGIN WHILE TRUE DO END END P; END M.
    0 P
    E 0.1 trap 5
  MODULE M; PROCEDURE P*; BEGIN REPEAT UNTIL FALSE END P; END M.
    0 P
    1 P
    E 0.1 trap 5
    E 1.1 trap 5
  MODULE M; VAR x: INTEGER; PROCEDURE Up*(k: INTEGER); BEGIN REPEAT x := x + 1 UNTIL x >= k END Up; END M.
    0 Up 3
    0 Up 7
    0 Up 6
    0 Up 7
    E 0.1 done
    E 0.2 trap 5
    E 0.3 done
    E 0.4 done
  MODULE M; PROCEDURE Down*(k: INTEGER); BEGIN IF k > 1 THEN Down(k - 1) END END Down; END M.
    0 Down 4
    0 Down 5
    E 0.1 done
    E 0.2 trap 5

A trap is no fault. `E 0.2 trap 1` is a reply to a call, on standard output
with status 0, and the call has changed nothing. `explain MODULE SCRIPT
--traps` tells of each place where calls of a script trap which operation it
is, with which values, and how many calls trap there (docs/FORMATS.md).
",
    },
    Page {
        name: "NoMemory",
        text: "\
NoMemory: memory was refused, with status 3: by a limit (`ulimit -v`), or since
a file is very large. Nothing was printed; with more memory the same run goes
on.
",
    },
];
