//! Runs of the step machine over small engines, by schedules that were worked out by hand.

ghost use Rattle.std.specs.Prelude.{◌≡◌, ◌<◌, IfOk};

use ob_interface::NoMemory;
use ob_interface::call::Call;
use ob_interface::scalar::Scalar;
use smallvec::SmallVec;
use std::alloc::Global;
use std::test::Fail;
use wf_history::CallId;
use wf_object::{Engine, Label, Machine, Spent};
use wf_samples::{Adder, Spin};

/// Process 1 exchanges the root in both rounds of process 0, and makes its call: the steps up to the answer of process 0.
const LOSES_BOTH_ROUNDS: [(bool, u16); 8] = [
    (true, 32),
    (false, 5),
    (true, 45),
    (false, 17),
    (true, 5),
    (false, 17),
    (true, 74),
    (false, 3),
];

fn adds(alloc: Global, value: i32) -> Call {
    let mut args = SmallVec::new(alloc);
    args.push_reserved(Scalar::Int(value));
    Call { proc: 0, args }
}

/// So many steps of a process.
fn take_steps<E: Engine>(machine: &mut Machine<E>, p: usize, count: u16) -> Result<(), NoMemory>
    requires processes { machine.old.sizes.processes ≡ 2 }
    requires process { p < 2 }
    ensures { machine.new.sizes ≡ machine.old.sizes }
{
    for _ in 0..count {
        let _ = machine.step(p)?;
    }
    Ok(())
}

/// An adding object of two processes; process 0 has a call, process 1 has four.
fn adder(alloc: Global) -> Result<Machine<Adder>, Fail>
    ensures { IfOk result (λ m. m.sizes.processes ≡ 2) }
{
    let mut machine = Machine::new(alloc, Adder { alloc }, 2, &[0])?;
    machine.submit(0, adds(alloc, 0))?;
    for _ in 0..4 {
        machine.submit(1, adds(alloc, 1))?;
    }
    Ok(machine)
}

#[test]
fn a_call_that_loses_both_rounds(rt: HostRuntime) -> Result<(), Fail> {
    let mut machine = adder(rt.alloc())?;
    for (is_other, count) in LOSES_BOTH_ROUNDS {
        take_steps(&mut machine, usize::from(is_other), count)?;
    }
    let spent = machine.spent(0);
    assert_eq!(rt; spent.bodies, 0);
    assert_eq!(rt; spent.inside, 0);
    assert_eq!(rt; spent.outside, 42);
    assert_eq!(rt; machine.bound(), 126);
    Ok(())
}

/// The call of process 1 goes on for ever, with arguments of two words, on no variables.
#[test]
fn a_call_without_an_end_stays_open(rt: HostRuntime) -> Result<(), Fail> {
    let alloc = rt.alloc();
    let mut machine = Machine::new(alloc, Spin { alloc, words: 2 }, 2, &[])?;
    machine.submit(0, adds(alloc, 0))?;
    machine.submit(1, adds(alloc, 5))?;
    take_steps(&mut machine, 0, 1000)?;
    take_steps(&mut machine, 1, 1000)?;
    assert!(rt; matches!(machine.label(1), Label::Body));
    let first = CallId {
        process: 0,
        number: 1,
    };
    assert_eq!(rt; machine.order(), [first].as_slice());
    Ok(())
}

/// With one variable, one result and one argument, each of three blocks keeps one word and two parts of two words. Its
/// toggles are no words.
#[test]
fn toggles_take_no_words(rt: HostRuntime) -> Result<(), Fail> {
    let machine = adder(rt.alloc())?;
    assert_eq!(rt; machine.shared().table_words(), 15);
    Ok(())
}

#[test]
fn the_words_of_a_stopped_run(rt: HostRuntime) -> Result<(), Fail> {
    let mut machine = adder(rt.alloc())?;
    take_steps(&mut machine, 0, 100)?;
    take_steps(&mut machine, 1, 400)?;
    assert!(rt; machine.is_halted(0) && machine.is_halted(1));
    let words = machine.state_words()?;
    assert_eq!(rt; words.as_slice(), [4].as_slice());
    assert_eq!(rt; machine.variables(), words.as_slice());
    Ok(())
}
