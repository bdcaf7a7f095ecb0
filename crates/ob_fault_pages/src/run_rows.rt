//! The pages of the faults of pictures, workers and desks. Made by tools/fault_pages from docs/FAULTS.md.

use crate::page::Page;

/// The pages of the faults of pictures, workers and desks.
pub const RUN_ROWS: &[Page] = &[
    Page {
        name: "I1",
        text: "\
I1: the run has no such calls. Behind it stands how many calls began in the
run. `--calls FROM-TO` names places of calls in the order in which they begin,
from 1: take a range that begins at one of them.

`draw` has these behind all faults of the run, and of a record alone behind F1
and O2.
",
    },
    Page {
        name: "I2",
        text: "\
I2: a picture has at most 400 calls. Behind it stands how many there would be.
Have a part of the run drawn, as by `--calls 1-400`, or take a shorter
schedule, or a script with fewer calls.

`draw` has these behind all faults of the run, and of a record alone behind F1
and O2.
",
    },
    Page {
        name: "V1",
        text: "\
V1: the gate refused the worker too often in a row. A worker's gate is what a
program in Rattle hands to `ob_desk_serve::serve`, to say when a worker may
take its next step. That of the command line always passes, so there it can't
come.

`serve` has these where all files are right. Behind each stands the process
whose worker it is. All workers have ended when one is told: V3 first, then
want of memory, then V1, then the faults of the desk, and last V2; each of the
lowest process.
",
    },
    Page {
        name: "V2",
        text: "\
V2: the answers that the worker was given are not those of the record, or not
one to each call of the process. It would be a bug of this program: report it.

`serve` has these where all files are right. Behind each stands the process
whose worker it is. All workers have ended when one is told: V3 first, then
want of memory, then V1, then the faults of the desk, and last V2; each of the
lowest process.
",
    },
    Page {
        name: "V3",
        text: "\
V3: no thread could be started for the process. The system limits how many
there are: `ulimit -u`, or the memory for their stacks.

`serve` has these where all files are right. Behind each stands the process
whose worker it is. All workers have ended when one is told: V3 first, then
want of memory, then V1, then the faults of the desk, and last V2; each of the
lowest process.
",
    },
    Page {
        name: "K1",
        text: "\
K1: a seat is of another desk: it has another tag, or a process that the desk
doesn't have.

These are answers of `Desk::close` and `settle` to code that calls them
(docs/MACHINE.md), and say that seats and floor don't belong together. Whoever
hands each seat of `Desk::open` back, and takes steps with it at its own desk
alone, sees none of them: they come of that code, and never of what a module, a
script or a schedule says.

They are told in the order K1, K2, K5, K3, and the lowest process at fault
stands behind them, as `K3 process 1`.
",
    },
    Page {
        name: "K2",
        text: "\
K2: a process's seat is missing, or there are two.

These are answers of `Desk::close` and `settle` to code that calls them
(docs/MACHINE.md), and say that seats and floor don't belong together. Whoever
hands each seat of `Desk::open` back, and takes steps with it at its own desk
alone, sees none of them: they come of that code, and never of what a module, a
script or a schedule says.

They are told in the order K1, K2, K5, K3, and the lowest process at fault
stands behind them, as `K3 process 1`.
",
    },
    Page {
        name: "K3",
        text: "\
K3: a seat took another number of steps than the floor counted for its process,
or has other answers than the history.

These are answers of `Desk::close` and `settle` to code that calls them
(docs/MACHINE.md), and say that seats and floor don't belong together. Whoever
hands each seat of `Desk::open` back, and takes steps with it at its own desk
alone, sees none of them: they come of that code, and never of what a module, a
script or a schedule says.

They are told in the order K1, K2, K5, K3, and the lowest process at fault
stands behind them, as `K3 process 1`.
",
    },
    Page {
        name: "K5",
        text: "\
K5: the floor under the lock began with another number of processes, other
code, other opening words or other calls than the desk keeps. No process stands
behind it.

These are answers of `Desk::close` and `settle` to code that calls them
(docs/MACHINE.md), and say that seats and floor don't belong together. Whoever
hands each seat of `Desk::open` back, and takes steps with it at its own desk
alone, sees none of them: they come of that code, and never of what a module, a
script or a schedule says.

They are told in the order K1, K2, K5, K3, and the lowest process at fault
stands behind them, as `K3 process 1`.
",
    },
];
