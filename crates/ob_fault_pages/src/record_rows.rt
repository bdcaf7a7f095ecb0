//! The pages of the faults of records and of orders of calls. Made by tools/fault_pages from docs/FAULTS.md.

use crate::page::Page;

/// The pages of the faults of records and of orders of calls.
pub const RECORD_ROWS: &[Page] = &[
    Page {
        name: "F1",
        text: "\
F1: a line of the record is missing or not of its form, or it can't stand
there, at its line, counted from 1. A line whose first word begins with `#` is
a remark; it is skipped, and counts. The others are, as docs/FORMATS.md tells:

- a line `obl0 record 2`, or with another version, one with the number of
  processes, one with the budget, the events and the order;
- in version 1 no line for the budget;
- in version 3 behind the budget an I line for each variable of the module.

The examples are of records for the module of the script's examples.

Of a record behind `--from` only the first line and the V lines are looked at:
a V line has a variable's name, each one once, and its value, of at most 100
arrays and records within one another; `explain` shows it at the first word of
the line.

`explain` marks the word that is the cause, where the line is one of an event
or the order, and else the line's first word.

  obl0 record 4
  n 1
  b 3
  O
    F1 line 1
    there are the versions 1, 2 and 3
    the first line of a record is obl0 record 2, or obl0 record 1, which has no
      budget, or obl0 record 3, which has I lines

  a byte order mark and then `obl0 record 2 / n 1 / b 3 / O`
    F1 line 1
    save the file without it
    a byte order mark stands here, which no editor shows; save the file without
      it

  obl0 record 1
  n 17
  O
    F1 line 2
    there are at most 16 processes
    the second line is n and how many processes there are, 1 to 16, as n 2

  obl0 record 2
  n 1
  O
    F1 line 3
    in version 2 the budget is missing
    the third line of a record of version 2 or 3 is b and how many turns each
      call has, 0 to 1000000, as b 100000

  obl0 record 2
  n 1
  b 1000001
  O
    F1 line 3
    a budget is at most 1,000,000
    the third line of a record of version 2 or 3 is b and how many turns each
      call has, 0 to 1000000, as b 100000

  obl0 record 1
  n 1
  b 3
  O
    F1 line 3
    version 1 has no budget
    the third line of versions 2 and 3 is b and the budget, 0 to 1000000, and
      no other line is

  obl0 record 3
  n 1
  b 3
  O
    F1 line 4
    in version 3 the value of each variable of the module stands here
    here stands I, the variable x of the module and a value of its type, with
      which the object began

  obl0 record 1
  n 1
    F1 line 3
    the order is missing
    here a line is missing or empty: an event stands here (B, A, E), or behind
      all events the order, as O 0.1
  .. and 22 more, in docs/FAULTS.md

F1 of a history: no history has this line at this place, or the text ends
before each variable has its I line. `order` and `explain MODULE --history
HISTORY` tell it. Of a line of an event (B, E), of calls (A) or of the order
(O) the word that is the cause is marked, and told as in a record, but for the
processes: any number of at most nine digits is one.

  B x.1 Inc
    F1 line 1
    no name of a call
    a call is named by its process, a dot and its number, as 0.1, and a process
      has at most nine digits

Else the first word is marked; behind an order it is told so. The sentence goes
by the lines before it too:

  any
    the I line of the next variable is missing
    here the I line of a is missing: of the module's variables each has one
      before the events, or none has
  missing or empty
    here a line is missing: of the module's variables each has an I line before
      the events, or none has
  B
    behind B stand a process's next call, as 0.1, a procedure that the module
      exports, and its arguments, as B 0.1 Add 3
  E
    behind E stand a call that has begun and not ended, as 0.1, and done and
      its values, or trap and 1 to 5, as E 0.1 done 3
  A, O
    behind A and O stand names of calls, as 0.1, and no more
  any
    behind the order
    behind the order stand S and V lines alone
  I
    another name, or none
    behind I stands the next variable of the module, which is x, and its value
  I
    no value of the variable's type, or more
    behind I x stands an INTEGER, a number from -2147483648 to 2147483647, and
      no more
  .. and 14 more, in docs/FAULTS.md

Shown in its text by `obl0 explain a.mod --record record`, or `obl0 explain
a.mod --history history`.
",
    },
    Page {
        name: "H1",
        text: "\
H1: a call that ended is missing in the order, the first one by its end.

  obl0 record 1
  n 1
  B 0.1 Inc
  E 0.1 done
  O
    H1 0.1
    call 0.1 ended, and is missing in the order; it begins in line 3, and ends
      in line 4

The order of the record is no legal order of its calls. The call behind the
fault is the one at which that shows. A record that `run` wrote has none of H1
to H4; one that was changed, or that something else wrote, may have. `draw` of
a record tells none of these: it draws the record, with that call in red and a
line that says why.

Shown in its text by `obl0 explain a.mod --record record`.
",
    },
    Page {
        name: "H2",
        text: "\
H2: the order has a call that never began, or that stood in it before. It is
looked for first.

  obl0 record 1
  n 1
  O 0.1
    H2 0.1
    call 0.1 never began, so it can't stand in the order

  obl0 record 1
  n 1
  B 0.1 Inc
  E 0.1 done
  O 0.1 0.1
    H2 0.1
    call 0.1 stands in the order before, and a call stands there once; it
      begins in line 3, and ends in line 4

The order of the record is no legal order of its calls. The call behind the
fault is the one at which that shows. A record that `run` wrote has none of H1
to H4; one that was changed, or that something else wrote, may have. `draw` of
a record tells none of these: it draws the record, with that call in red and a
line that says why.

Shown in its text by `obl0 explain a.mod --record record`.
",
    },
    Page {
        name: "H3",
        text: "\
H3: a call stands in the order before one that had ended when it began, the
first such call of the order. `explain` names one that had ended, with the line
of its end.

  obl0 record 1
  n 1
  B 0.1 Inc
  E 0.1 done
  B 0.2 Inc
  E 0.2 done
  O 0.2 0.1
    H3 0.2
    call 0.2 stands in the order before 0.1, which ended in line 4, before it
      began; it begins in line 5, and ends in line 6

The order of the record is no legal order of its calls. The call behind the
fault is the one at which that shows. A record that `run` wrote has none of H1
to H4; one that was changed, or that something else wrote, may have. `draw` of
a record tells none of these: it draws the record, with that call in red and a
line that says why.

Shown in its text by `obl0 explain a.mod --record record`.
",
    },
    Page {
        name: "H4",
        text: "\
H4: a call has another reply in the record than when the calls are made one at
a time in this order, the first such call of the order. `explain` tells what
the record says and what the call comes to there, behind which calls; of these
it lists the last eight, and `..` stands for those before them.

  obl0 record 1
  n 1
  B 0.1 Get
  E 0.1 done 1
  O 0.1
    H4 0.1
    call 0.1 says done 1; made one at a time in the order, as the first, it is
      done 0; it begins in line 3, and ends in line 4

  obl0 record 1
  n 2
  B 0.1 Inc
  B 1.1 Get
  E 0.1 done
  E 1.1 done 0
  O 0.1 1.1
    H4 1.1
    call 1.1 says done 0; made one at a time in the order, after 0.1, it is
      done 1; it begins in line 4, and ends in line 6

  obl0 record 1
  n 1
  B 0.1 Inc
  E 0.1 trap 1
  O 0.1
    H4 0.1
    call 0.1 says trap 1; made one at a time in the order, as the first, it is
      done; it begins in line 3, and ends in line 4

  obl0 record 2
  n 1
  b 3
  B 0.1 Inc
  E 0.1 trap 5
  O 0.1
    H4 0.1
    call 0.1 says trap 5; made one at a time in the order, as the first, it is
      done; it begins in line 4, and ends in line 5

The order of the record is no legal order of its calls. The call behind the
fault is the one at which that shows. A record that `run` wrote has none of H1
to H4; one that was changed, or that something else wrote, may have. `draw` of
a record tells none of these: it draws the record, with that call in red and a
line that says why.

Shown in its text by `obl0 explain a.mod --record record`.
",
    },
    Page {
        name: "X1",
        text: "\
X1: the history up to the end of this call has no legal order, and up to the
event before it there is one: so it is the first ended call whose reply no
order of the calls gives. A call that didn't end may have taken effect or not.

What stands behind that event doesn't count: a history with X1 has none,
however it goes on. `draw` of a history draws it up to this end, with the call
in red, and tells no X1.

  B 0.1 Inc
  E 0.1 done
  B 1.1 Get
  E 1.1 done 0
    X1 1.1
    0.1 ended before 1.1 began, so it is made before it, and 1.1 is done 1

  B 0.1 Add 5
  B 1.1 Get
  E 1.1 done 5
  B 1.2 Get
  E 1.2 done 0
    X1 1.2
    0.1 was made before 1.1, which saw it, so before 1.2

  B 0.1 Get
  E 0.1 done 1
    X1 0.1
    nothing added 1; what the object began with is the module's opening, or
      what the `I` lines of the history tell

  b 3
  B 0.1 Inc
  E 0.1 trap 5
    X1 0.1
    with 3 turns, or with none, `Inc` doesn't trap. Mind the budget: a call
      that traps here and didn't there had more turns

`explain` shows the line in which the call ends, and what could have been, as
docs/FORMATS.md tells:

  the line of the call's end, at its name
    call 1.2 can't have ended so: up to here the history has no legal order
  a legal order of the events before
    `up to the event before it has one, as O .. 0.4 1.1, with 12 more before
      these`, or `up to the event before, no call need have been made`
  the open calls
    `open there: 0.1 2.3`, or `no other call was open there`
  possible replies
    `call 1.2 could have ended with done 1, or with done 2`, or `no reply was
      found with which it could have ended there`

With `order --by N` X1 says in which part: the call, and the value of the N-th
argument in all calls of its part.

  B 0.1 Add 5
  E 0.1 trap 2
    --by 1
    X1 0.1 by 5
    no `Add` traps so, and the calls with 5 are a part of their own

`order` looks for a legal order of a history, whoever recorded it, and prints
the first one that it finds. `explain MODULE --history HISTORY` tells the same
fault, and more of it.

Shown in its text by `obl0 explain a.mod --history history`.
",
    },
    Page {
        name: "X2",
        text: "\
X2: more than K configurations were looked at, where K stands behind `--most`
of `order` or `draw`, or else is 10,000,000. It says nothing of the history. A
configuration is a set of calls that were made, and the state that they lead
to; many calls that overlap, or that nobody ended, have many.

With a greater K, of at most 1,000,000,000, or with a shorter history the
search may come to an end. Where the object is many objects side by side,
`--by` takes their calls apart.

`explain` says `there are more than 1000 configurations of calls made and of
states, and no more are looked at; behind --most stands how many may be`.

`outcomes` tells X2 where its scripts have more than K configurations, where K
is 1,000,000 if nothing is said, and prints nothing of them. Fewer processes
have the fewest. With `--whole` a configuration counts once for each list of
replies with which calls lead to it, so without it there are fewer. `explain`
with `--always` looks at 1,000,000.

`order` looks for a legal order of a history, whoever recorded it, and prints
the first one that it finds. `explain MODULE --history HISTORY` tells the same
fault, and more of it.

Shown in its text by `obl0 explain a.mod --history history`, or `obl0 explain
a.mod script -n N --always NAME`.
",
    },
    Page {
        name: "X4",
        text: "\
X4: this call has no N-th argument, with `order --by N`: so it belongs to no
part. It is the first such call, and is told before an order is looked for.
Name an argument that every export which is called has; a procedure with fewer
can't be in such a history.

  B 0.1 Add 5
  E 0.1 done
  B 0.2 Get
  E 0.2 done 0
    --by 1
    X4 0.2
    `Get` has no argument

  B 0.1 Add 7
  E 0.1 done
    --by 2
    X4 0.1
    `Add` has one

`order` looks for a legal order of a history, whoever recorded it, and prints
the first one that it finds. `explain MODULE --history HISTORY` tells the same
fault, and more of it.
",
    },
    Page {
        name: "X3",
        text: "\
X3: behind these calls the export of `--always` doesn't answer TRUE: it answers
FALSE, or traps. They are calls of the script, made in this order, the calls of
each process in theirs, and no fewer calls lead to such a place; X3 alone says
that it is so at the opening.

What always holds may be less than was thought, or two calls of a process are
one too many: what is to be one change has to be one call.

In these examples `Low` answers whether `x` is below 2, and `Sure` traps where
`x` is 1.

  0 Inc
  1 Inc
    --always Low
    X3 0.1 1.1
    both calls lead to 2, in any order, and one does not

  0 Add 1
  0 Add -1
  1 Add 1
    --always Low
    X3 0.1 1.1
    between the calls of process 0 stands that of process 1

  0 Add 2
  1 Get
    --always Low
    X3 0.1
    `Get` changes nothing, so it isn't needed

  0 Inc
  1 Inc
    --always Sure
    X3 0.1
    it traps

`explain` shows it as docs/FORMATS.md tells: each call of it with its reply and
the variables behind it, and a schedule with which `run` makes these calls.

`order` looks for a legal order of a history, whoever recorded it, and prints
the first one that it finds. `explain MODULE --history HISTORY` tells the same
fault, and more of it.

Shown in its text by `obl0 explain a.mod script -n N --always NAME`.
",
    },
    Page {
        name: "X5",
        text: "\
X5: the name behind `--always` is that of no export that can be asked: none has
this name, or it has other parameters than one VAR parameter, a BOOLEAN.

Explained as `what stands behind --always is an export with one VAR parameter,
a BOOLEAN, and no other parameters`; or, where no export has the name and some
export's is near to it, as in ``the module exports no `low`; did you mean
`Low`?``.

  0 Inc
    --always Hidden
    X5
    it has no `*` behind its name, so it is no export
  0 Inc
    --always Get
    X5
    its VAR parameter is an INTEGER
  0 Inc
    --always Inc
    X5
    it answers nothing
  0 Inc
    --always Above
    X5
    it has an argument too

`order` looks for a legal order of a history, whoever recorded it, and prints
the first one that it finds. `explain MODULE --history HISTORY` tells the same
fault, and more of it.

Shown in its text by `obl0 explain a.mod script -n N --always NAME`.
",
    },
];
