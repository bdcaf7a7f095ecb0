//! Workers whom gates stop, or let pass only together.

ghost use Rattle.std.specs.Prelude.{◌≤◌};

use ob_desk_serve::{Gate, ServeFault, ServeTextFault, serve_text_with};
use ob_object_compile::{Asked, Beginning};
use std::alloc::Global;
use std::fs;
use std::rt::Files;
use std::sync::Wait;
use std::sync::atomic::{AtomicU64, Ordering};
use std::test::Fail;
use std::thread::Threads;

const COUNTER: &[u8] = b"MODULE Counter;
  VAR x: INTEGER;
  PROCEDURE Inc*;
  BEGIN x := x + 1 END Inc;
END Counter.
";

/// The text that two workers give of one call each.
fn served<R: Threads + Wait + Sync, G: Gate + Sync>(
    rt: &R,
    alloc: Global,
    gate: &G,
    limit: u64,
) -> Result<String, ServeTextFault>
    requires { 1 ≤ limit }
{
    served_calls(rt, alloc, b"0 Inc\n1 Inc\n", gate, limit)
}

/// The text that two workers give of these calls.
fn served_calls<R: Threads + Wait + Sync, G: Gate + Sync>(
    rt: &R,
    alloc: Global,
    calls: &[u8],
    gate: &G,
    limit: u64,
) -> Result<String, ServeTextFault>
    requires { 1 ≤ limit }
{
    let asked = Asked {
        text: COUNTER,
        processes: 2,
        budget: 100,
        beginning: Beginning::Body,
    };
    serve_text_with(rt, alloc, asked, calls, gate, limit)
}

/// A gate that never passes.
struct Closed;

impl Gate for Closed {
    ghost use Rattle.ob_desk_serve.specs.Rounds.{never};

    ghost passes = { λ _. never };

    ghost refuses = { λ _ _ _ _. Unit {0} };

    ghost hears = { λ _ _ _. Unit {0} };

    fn pass(&self, _process: usize, _turns: u128, _refusals: u64) -> bool {
        false
    }

    fn answered(&self, _process: usize, _number: u64) {}
}

/// Whether the number comes to be so great while it is looked at a bounded number of times.
fn comes(number: &AtomicU64, least: u64) -> bool {
    for _ in 0..10_000_000_000u64 {
        if number.load(Ordering::SeqCst) >= least {
            return true;
        }
    }
    false
}

/// Of two processes each takes each of its first 25 turns only when the other is as far.
#[derive(Drop)]
struct Meeting {
    turns: [AtomicU64; 2],
}

impl Gate for Meeting {
    ghost passes = { λ _ _ _ _. Unit {0} };

    ghost refuses = { λ _ _ _ _. Unit {0} };

    ghost hears = { λ _ _ _. Unit {0} };

    fn pass(&self, process: usize, turns: u128, _refusals: u64) -> bool {
        if process > 1 || turns >= 25 {
            return true;
        }
        let turns = turns as u64 + 1;
        self.turns[process].store(turns, Ordering::SeqCst);
        comes(&self.turns[1 - process], turns)
    }

    fn answered(&self, _process: usize, _number: u64) {}
}

/// Process 1 begins where process 0 has taken three turns, and process 0 goes on where process 1 was answered.
#[derive(Drop)]
struct Standstill {
    stands: AtomicU64,
    answered: AtomicU64,
}

impl Gate for Standstill {
    ghost passes = { λ _ _ _ _. Unit {0} };

    ghost refuses = { λ _ _ _ _. Unit {0} };

    ghost hears = { λ _ _ _. Unit {0} };

    fn pass(&self, process: usize, turns: u128, _refusals: u64) -> bool {
        match (process, turns) {
            (0, 3) => {
                self.stands.store(1, Ordering::SeqCst);
                comes(&self.answered, 1)
            }
            (1, 0) => comes(&self.stands, 1),
            _ => true,
        }
    }

    fn answered(&self, process: usize, number: u64) {
        if process == 1 {
            self.answered.store(number, Ordering::SeqCst);
        }
    }
}

/// A gate that refuses each process so often before each of its turns.
struct Reluctant {
    refusals: u64,
}

impl Gate for Reluctant {
    ghost use Rattle.std.specs.Prelude.{◌<◌, ◌≤◌};

    ghost passes = { λ gate _ _ refusals. gate.refusals ≤ refusals };

    ghost refuses = { λ gate _ _ refusals. refusals < gate.refusals };

    ghost hears = { λ _ _ _. Unit {0} };

    fn pass(&self, _process: usize, _turns: u128, refusals: u64) -> bool {
        refusals >= self.refusals
    }

    fn answered(&self, _process: usize, _number: u64) {}
}

/// A gate that always passes, and counts the answers that it is told of.
#[derive(Drop)]
struct Counting {
    answers: AtomicU64,
}

impl Gate for Counting {
    ghost passes = { λ _ _ _ _. Unit {0} };

    ghost refuses = { λ _ _ _ _. Unit {0} };

    ghost hears = { λ _ _ _. Unit {0} };

    fn pass(&self, _process: usize, _turns: u128, _refusals: u64) -> bool {
        true
    }

    fn answered(&self, _process: usize, _number: u64) {
        self.answers.fetch_add(1, Ordering::SeqCst);
    }
}

/// How many threads the program has; none where the system does not tell.
fn thread_count<R: Files + AllocGlobal>(rt: &R) -> Option<u64> {
    let status = fs::read_to_string(rt, "/proc/self/status").ok()?;
    let (_, told) = status.split_once("Threads:")?;
    let (number, _) = told.split_once("\n")?;
    number.trim().parse().ok()
}

/// A gate that keeps how many threads there are where it is asked first, and passes when it has. Until then no worker takes a step, so
/// none has ended.
#[derive(Drop)]
struct Roll<'a, R> {
    rt: &'a R,
    asked: AtomicU64,
    threads: AtomicU64,
}

impl<R: Files + AllocGlobal> Gate for Roll<'_, R> {
    ghost passes = { λ _ _ _ _. Unit {0} };

    ghost refuses = { λ _ _ _ _. Unit {0} };

    ghost hears = { λ _ _ _. Unit {0} };

    fn pass(&self, _process: usize, _turns: u128, _refusals: u64) -> bool {
        if self.asked.fetch_add(1, Ordering::SeqCst) == 0 {
            let threads = thread_count(self.rt).unwrap_or(0);
            self.threads.store(threads, Ordering::SeqCst);
        }
        comes(&self.threads, 1)
    }

    fn answered(&self, _process: usize, _number: u64) {}
}

#[test]
fn a_gate_that_never_passes(rt: HostRuntime) {
    let fault = served(&rt, rt.alloc(), &Closed, 1000).err();
    assert!(rt; matches!(fault, Some(ServeTextFault::Serve(ServeFault::Refused(0)))));
}

/// On one thread, in any order or by turns, one of them would wait for the other in vain.
#[test]
fn two_workers_at_once(rt: HostRuntime) -> Result<(), Fail> {
    let gate = Meeting {
        turns: [AtomicU64::new(0), AtomicU64::new(0)],
    };
    let text = served(&rt, rt.alloc(), &gate, 1)?;
    assert!(rt;
        text.contains("\nE 0.1 done\n"),
        "the call of process 0 ends"
    );
    assert!(rt;
        text.contains("\nE 1.1 done\n"),
        "the call of process 1 ends"
    );
    assert!(rt; text.ends_with("\nV x 2\n"), "both are applied");
    Ok(())
}

/// Process 1 makes the call of process 0, which has only said what it asks for, and is answered first.
#[test]
fn one_worker_stands_still(rt: HostRuntime) -> Result<(), Fail> {
    let gate = Standstill {
        stands: AtomicU64::new(0),
        answered: AtomicU64::new(0),
    };
    let text = served(&rt, rt.alloc(), &gate, 1)?;
    let told =
        "obl0 record 2\nn 2\nb 100\nB 0.1 Inc\nB 1.1 Inc\nA 0.1 1.1\nE 1.1 done\nE 0.1 done\nO 0.1 1.1\nS 0*3 1*";
    assert!(rt; text.starts_with(told), "the events and the order");
    assert!(rt; text.ends_with("\nV x 2\n"), "both are applied");
    Ok(())
}

/// Of three calls of one process, and of one of the other.
#[test]
fn each_answer_is_told_once(rt: HostRuntime) -> Result<(), Fail> {
    let gate = Counting {
        answers: AtomicU64::new(0),
    };
    let calls = b"0 Inc\n0 Inc\n0 Inc\n1 Inc\n";
    let text = served_calls(&rt, rt.alloc(), calls, &gate, 1)?;
    assert!(rt; text.ends_with("\nV x 4\n"), "all are applied");
    assert_eq!(rt; gate.answers.load(Ordering::SeqCst), 4);
    Ok(())
}

/// It refuses far more than three times in all, but never three times in a row.
#[test]
fn a_gate_that_refuses_by_turns(rt: HostRuntime) -> Result<(), Fail> {
    let text = served(&rt, rt.alloc(), &Reluctant { refusals: 2 }, 3)?;
    assert!(rt; text.ends_with("\nV x 2\n"), "both are applied");
    Ok(())
}

/// The third refusal in a row is the last.
#[test]
fn as_many_refusals_as_the_limit(rt: HostRuntime) {
    let fault = served(&rt, rt.alloc(), &Reluctant { refusals: 3 }, 3).err();
    assert!(rt; matches!(fault, Some(ServeTextFault::Serve(ServeFault::Refused(0)))));
}

/// No worker takes a step before the threads of both are there.
#[test]
fn workers_begin_together(rt: HostRuntime) -> Result<(), Fail> {
    let before = thread_count(&rt).unwrap_or(0);
    assert!(rt; before > 0, "the system tells of threads");
    let gate = Roll {
        rt: &rt,
        asked: AtomicU64::new(0),
        threads: AtomicU64::new(0),
    };
    let _ = served(&rt, rt.alloc(), &gate, 1)?;
    let threads = gate.threads.load(Ordering::SeqCst);
    assert!(rt; threads > before.saturating_add(1), "the threads of both");
    Ok(())
}
