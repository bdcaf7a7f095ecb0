//! Workers of two processes with a call each, and gates that let them pass only together, or one by the other's leave.

ghost use Rattle.std.specs.Prelude.{◌≤◌};

use ob_desk_serve::{Gate, ServeTextFault, serve_text_with};
use ob_object_compile::{Asked, Beginning};
use std::sync::Wait;
use std::sync::atomic::{AtomicU64, Ordering};
use std::thread::Threads;

const COUNTER: &[u8] =
    b"MODULE Counter; VAR x: INTEGER; PROCEDURE Inc*; BEGIN x := x + 1 END Inc; END Counter.";

/// What stands before the schedule where process 1 makes the call of process 0, which stands still.
const STANDS_STILL: &str =
    "obl0 record 2\nn 2\nb 100\nB 0.1 Inc\nB 1.1 Inc\nA 0.1 1.1\nE 1.1 done\nE 0.1 done\nO 0.1 1.1\nS 0*3 1*";

fn served<R: Threads + Wait + Sync + AllocGlobal, G: Gate + Sync>(
    rt: &R,
    gate: &G,
) -> Result<String, ServeTextFault> {
    let asked = Asked {
        text: COUNTER,
        processes: 2,
        budget: 100,
        beginning: Beginning::Body,
    };
    serve_text_with(rt, rt.alloc(), asked, b"0 Inc\n1 Inc\n", gate, 1)
}

/// Whether the number comes to be so great while it is looked at a bounded number of times.
fn comes(number: &AtomicU64, least: u64) -> bool {
    for _ in 0..100_000_000u32 {
        if number.load(Ordering::SeqCst) >= least {
            return true;
        }
    }
    false
}

/// Of two processes each takes each of its first 25 turns only when the other is as far.
#[derive(Drop)]
struct Meeting {
    turns: [AtomicU64; 2],
}

impl Gate for Meeting {
    ghost passes = { λ _ _ _ _. Unit {0} };

    ghost refuses = { λ _ _ _ _. Unit {0} };

    ghost hears = { λ _ _ _. Unit {0} };

    fn pass(&self, process: usize, turns: u128, _refusals: u64) -> bool {
        if process > 1 || turns >= 25 {
            return true;
        }
        let turns = turns as u64 + 1;
        self.turns[process].store(turns, Ordering::SeqCst);
        comes(&self.turns[1 - process], turns)
    }

    fn answered(&self, _process: usize, _number: u64) {}
}

/// Process 1 begins where process 0 has taken three turns, and process 0 goes on where process 1 was answered.
#[derive(Drop)]
struct Standstill {
    stands: AtomicU64,
    answered: AtomicU64,
}

impl Gate for Standstill {
    ghost passes = { λ _ _ _ _. Unit {0} };

    ghost refuses = { λ _ _ _ _. Unit {0} };

    ghost hears = { λ _ _ _. Unit {0} };

    fn pass(&self, process: usize, turns: u128, _refusals: u64) -> bool {
        match (process, turns) {
            (0, 3) => {
                self.stands.store(1, Ordering::SeqCst);
                comes(&self.answered, 1)
            }
            (1, 0) => comes(&self.stands, 1),
            _ => true,
        }
    }

    fn answered(&self, process: usize, number: u64) {
        if process == 1 {
            self.answered.store(number, Ordering::SeqCst);
        }
    }
}

/// Whether both calls end where the workers pass together.
pub fn together<R: Threads + Wait + Sync + AllocGlobal>(rt: &R) -> Result<bool, ServeTextFault> {
    let gate = Meeting {
        turns: [AtomicU64::new(0), AtomicU64::new(0)],
    };
    let text = served(rt, &gate)?;
    let both = text.contains("\nE 0.1 done\n") && text.contains("\nE 1.1 done\n");
    Ok(both && text.ends_with("\nV x 2\n"))
}

/// Whether both calls end where process 0 stands still until process 1 was answered.
pub fn one_stands_still<R: Threads + Wait + Sync + AllocGlobal>(
    rt: &R,
) -> Result<bool, ServeTextFault> {
    let gate = Standstill {
        stands: AtomicU64::new(0),
        answered: AtomicU64::new(0),
    };
    let text = served(rt, &gate)?;
    Ok(text.starts_with(STANDS_STILL) && text.ends_with("\nV x 2\n"))
}
