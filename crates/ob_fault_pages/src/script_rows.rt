//! The pages of the faults of scripts, of numbers and of schedules. Made by tools/fault_pages from docs/FAULTS.md.

use crate::page::Page;

/// The pages of the faults of scripts, of numbers and of schedules.
pub const SCRIPT_ROWS: &[Page] = &[
    Page {
        name: "L1",
        text: "\
L1: the line is no call: its first word is no number of one to nine digits, or
its second one is missing or no name. A remark begins with `#` and has a line
of its own.

  Inc
    the process is missing
    a line is a call, and begins with its process, of one to nine digits, as 0
      Push 1
  0
    the procedure is missing
    behind its process a call has the name of a procedure, as 0 Push 1
  `-1 Inc`, `1234567890 Inc`
    no number of one to nine digits
    a line is a call, and begins with its process, of one to nine digits, as 0
      Push 1
  `0, Inc`, `Add(1)`
    words are separated by blanks alone, and there is no other sign
    a line is a call, and begins with its process, of one to nine digits, as 0
      Push 1
  0 Inc;
    the same
    a call ends with its line, and no ; stands behind it, as 0 Push 1
  0 Inc()
    the same
    values stand behind the name with blanks between, and with no parentheses,
      as 0 Push 1
  `(* one *)`, `// one`, `0 // one`
    no remark of a script
    a remark is a line of its own that begins with #
  0 BEGIN
    a keyword is no name
    behind its process a call has the name of a procedure, which has letters
      and digits and is no keyword, and then its values, as 0 Push 1
  .. and 2 more, in docs/FAULTS.md

The number behind `line` counts the script's lines from 1, those that are
skipped included. Of the tests below the first that fails on the line is told.
The examples are of a script for a module with the exports `Inc`, `Add*(k:
INTEGER)` and `Get*(VAR v: INTEGER)`, and a procedure `Hidden` without a `*`.

Shown in its text by `obl0 explain a.mod script`.
",
    },
    Page {
        name: "L4",
        text: "\
L4: there is no such process. For `seq` they are 0 to 15: `16 Inc`. For `run`,
`state`, `draw` and `serve` they are those below the number behind `-n`, and of
a run `explain` says which, as `with -n 2 the processes are 0 to 1`. The other
faults of the scripts of a run are explained as those of a script by itself.

Explained as `the processes of a script are 0 to 15`.

The number behind `line` counts the script's lines from 1, those that are
skipped included. Of the tests below the first that fails on the line is told.
The examples are of a script for a module with the exports `Inc`, `Add*(k:
INTEGER)` and `Get*(VAR v: INTEGER)`, and a procedure `Hidden` without a `*`.

Shown in its text by `obl0 explain a.mod script`.
",
    },
    Page {
        name: "L2",
        text: "\
L2: no export has this name. Most often the `*` behind the procedure's name in
the module was forgotten; upper and lower case differ.

`explain` tells that the module declares the procedure without a `*`, where it
does; else it asks whether the nearest export is meant, by the distance that C1
has for names, or tells which there are.

  0 Hidden
    there is no `*` behind it in the module
    the module declares this procedure without a * behind its name, so it isn't
      exported; this module exports `Inc`, `Add`, `Get`
  0 inc
    it is `Inc`
    a call names a procedure that the module exports, which has a * behind its
      name there; did you mean `Inc`?
  0 Dec
    there is none
    a call names a procedure that the module exports, which has a * behind its
      name there; this module exports `Inc`, `Add`, `Get`

The number behind `line` counts the script's lines from 1, those that are
skipped included. Of the tests below the first that fails on the line is told.
The examples are of a script for a module with the exports `Inc`, `Add*(k:
INTEGER)` and `Get*(VAR v: INTEGER)`, and a procedure `Hidden` without a `*`.

Shown in its text by `obl0 explain a.mod script`.
",
    },
    Page {
        name: "L3",
        text: "\
L3: the arguments don't fit. There is one for each value parameter, in their
order, and none for a VAR parameter: its value is in the reply. An argument for
an INTEGER is a number from -2147483648 to 2147483647 of at most ten digits,
with no `+`; one for a BOOLEAN is `TRUE` or `FALSE`, in capitals.

`explain` tells at the procedure's name how many values the call has and how
many the procedure takes, and their types; or else it marks the first value
that is none of its type.

  0 Add
    one is missing
    this call has 0 values, and the procedure takes 1 for its parameters
      without VAR: INTEGER
  0 Inc 1
    one too many
    this call has 1 value, and the procedure takes 0 for its parameters without
      VAR
  0 Get x
    a VAR parameter has none
    this call has 1 value, and the procedure takes 0 for its parameters without
      VAR
  0 Add 2147483648
    out of range
    an INTEGER is wanted here, a number from -2147483648 to 2147483647
  `0 Add +1`, `0 Add x`
    no number
    an INTEGER is wanted here, a number from -2147483648 to 2147483647
  0 Add 1,2
    a comma in the value
    an INTEGER is wanted here, a number from -2147483648 to 2147483647; values
      have blanks between them, and no commas
  0 Add 1;
    a semicolon behind the value
    an INTEGER is wanted here, a number from -2147483648 to 2147483647; a call
      ends with its line, and no semicolon stands behind it
  0 Add (1)
    parentheses
    an INTEGER is wanted here, a number from -2147483648 to 2147483647; values
      stand in no parentheses
  .. and 1 more, in docs/FAULTS.md

The number behind `line` counts the script's lines from 1, those that are
skipped included. Of the tests below the first that fails on the line is told.
The examples are of a script for a module with the exports `Inc`, `Add*(k:
INTEGER)` and `Get*(VAR v: INTEGER)`, and a procedure `Hidden` without a `*`.

Shown in its text by `obl0 explain a.mod script`.
",
    },
    Page {
        name: "N1",
        text: "\
N1: there are 1 to 16 processes, so the number behind `-n` of `run`, `state`,
`draw`, `serve`, `bound` and `explain` is one of these. A number below 0 or
over 65,535, or a word that is none, is a matter of the words (status 2), of
which the line says which numbers there may be.

  run m s c -n 0
    N1
  draw m s c -n 17
    N1
  bound m -n 17
    N1
  explain m s c -n 0
    N1
    the number of processes, behind -n, is 0; it may be 1 to 16
  explain m s c -n 17
    N1
    the number of processes, behind -n, is 17; it may be 1 to 16

A record has the processes 0 to 15, and so has a picture: `order --record` and
`draw` of a history tell N1 of one in which another process begins a call.
Without `--record` a process may have any number below 1,000,000,000.

  B 16.1 Inc
  E 16.1 done
    --record
    N1
    process 16

These are told once all files are read, and before anything else is looked at.
",
    },
    Page {
        name: "N3",
        text: "\
N3, behind N1: a call has a budget of at most 1,000,000 turns, so the number
behind `-b` of `seq`, `run`, `state`, `serve`, `draw` of a schedule and
`bound`, and of `explain` with a script, is not over that. A number over
4,294,967,295, or a word that is none, is a matter of the words (status 2). Of
a module alone `explain` makes no calls, and doesn't look at the budget.

  seq m s -b 1000001
    N3
  explain m s --budget 4294967295
    N3
    the budget of turns, behind -b, is 4294967295; it may be 0 to 1000000
  explain m s c -n 2 -b 1000001
    N3
    the budget of turns, behind -b, is 1000001; it may be 0 to 1000000
  run m s c -n 2 -b 1000001
    N3
  bound m -n 2 -b 1000001
    N3
  serve m s -n 17 -b 1000001
    N1

These are told once all files are read, and before anything else is looked at.
",
    },
    Page {
        name: "Q1",
        text: "\
Q1: a word is no item. An item is `p*k`, `p:LABEL` or `p!`, without blanks in
it, and p and k are numbers of one to nine digits. Labels are those of
docs/MACHINE.md, in capitals. A remark is a line of its own whose first word
begins with `#`; behind an item it is none.

  `0`, `0 *3`, `0 :TRY`
    what process 0 does is missing, or a blank stands before it
    behind a process stands *STEPS, :LABEL or !, with no blank before it, as
      0*3, 0:TRY or 0!
  `0*`, `0* 3`, `0*-1`, `0*1234567890`
    behind `*` stands a number of one to nine digits
    behind * stands how many steps, in one to nine digits and with no blank
      before them, as 0*3
  0:try
    labels have capitals
    labels are written in capitals, as 0:TRY; did you mean `TRY`?
  0:CHECK
    it is `CHECK1` or `CHECK2`
    behind : stands a label, with no blank before it; did you mean `CHECK1`?
  `0:`, `0: TRY`, `0:WAIT`
    no label, or a blank before it
    behind : stands a label, with no blank before it; they are NEXT, POST,
      FLIP, TRY, LINK, LOAD, STORE, CHECK1, MINE, SEEN, FETCH, CHECK2, SAVE,
      ENTER, BODY, UNDO, KEEP, COMMIT, READ, TAKE and GIVE
  `0!!`, `0!1!`
    items are separated by blanks
    an item ends with its !, and a blank or a line feed stands before the next
      one, as 0! 1!
  `0*3,1*2`, `0!; 1!`
    commas and semicolons
    items are separated by blanks or line feeds, and not by commas or
      semicolons
  `!0`, `first`, `0-3`
    the process stands first, and `*`, `:` or `!` behind it
    an item is a process with *STEPS, :LABEL or ! behind it, and no blanks
      between, as 0*3, 0:TRY or 0!
  .. and 3 more, in docs/FAULTS.md

The number behind `item` counts the schedule's items from 1. The first item at
fault is told; but Q3 shows only while the items are played, so it is told
where all of them are items of processes that there are. The examples are of
schedules for two processes, of which 0 has the call `Inc` to make.

Shown in its text by `obl0 explain a.mod script schedule -n N`.
",
    },
    Page {
        name: "Q2",
        text: "\
Q2: there is no such process. They are the numbers below the one behind `-n`.

Explained as `with -n 2 the processes are 0 to 1`.

  `2!`, `2*0`
    for `-n 2` they are 0 and 1

The number behind `item` counts the schedule's items from 1. The first item at
fault is told; but Q3 shows only while the items are played, so it is told
where all of them are items of processes that there are. The examples are of
schedules for two processes, of which 0 has the call `Inc` to make.

Shown in its text by `obl0 explain a.mod script schedule -n N`.
",
    },
    Page {
        name: "Q3",
        text: "\
Q3: an item stands for over 1,000,000 steps. Write `p*k` as several items.
`p:LABEL` goes on over calls of p that don't come to the label, as `0:UNDO`
where no call traps, and so over a million steps where there are calls enough.

`p!` stands for the steps of one call, which ends; with loops and a large
budget these may be more than a million, in its own body or in those that it
helps with (docs/MACHINE.md has the bound). Write several items `p*1000000`
before it, or give the calls fewer turns.

Explained as `an item stands for at most 1000000 steps; write several items, or
give the calls fewer turns`.

  0*1000001
    one step too many

The number behind `item` counts the schedule's items from 1. The first item at
fault is told; but Q3 shows only while the items are played, so it is told
where all of them are items of processes that there are. The examples are of
schedules for two processes, of which 0 has the call `Inc` to make.

Shown in its text by `obl0 explain a.mod script schedule -n N`.
",
    },
];
