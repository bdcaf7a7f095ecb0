//! Two short runs of the machine that go on after a want of memory: what one can see of the machine is then as it was before
//! the call, and the same call is made again. What was refused is told on standard error, the runs are printed in the end.
#![tactic(auto)]

ghost use Rattle.std.specs.Prelude.{◌≡◌, ◌<◌, IfOk};

mod machine_view;
mod printed;
mod trouble;

use machine_view::Watch;
use ob_interface::call::Call;
use ob_interface::scalar::Scalar;
use printed::{print_answer, print_machine};
use smallvec::SmallVec;
use std::alloc::Global;
use std::process::ExitCode;
use trouble::Trouble;
use wf_object::{Label, Machine, StepOut};
use wf_samples::Adder;

/// Status 4: the run itself got no memory. Status 5: the machine is at fault.
fn main(rt: HostRuntime) -> ExitCode {
    match run(&rt) {
        Ok(()) => ExitCode::SUCCESS,
        Err(trouble) => {
            let _ = rt.eprintln(trouble);
            ExitCode::from(if trouble == Trouble::Own { 4 } else { 5 })
        }
    }
}

fn run<R: Print + Eprint + AllocGlobal>(rt: &R) -> Result<(), Trouble> {
    let alloc = rt.alloc();
    let mut text = String::with_capacity(alloc, 65536)?;
    let mut watch = Watch::new(alloc)?;
    lose(rt, &mut watch, &mut text)?;
    jumble(rt, &mut watch, &mut text)?;
    rt.print(text.as_str()).map_err(|_| Trouble::Own)
}

/// One call of each of two processes, which both come to COMMIT before one of them takes it: the
/// other one's COMMIT is lost, and it goes on.
fn lose<R: Eprint + AllocGlobal>(
    rt: &R,
    watch: &mut Watch,
    text: &mut String,
) -> Result<(), Trouble> {
    let mut machine = made(rt)?;
    submit(rt, watch, &mut machine, 0, 2)?;
    submit(rt, watch, &mut machine, 1, 2)?;
    until(rt, watch, &mut machine, text, 0, Some(Label::Commit))?;
    until(rt, watch, &mut machine, text, 1, Some(Label::Commit))?;
    until(rt, watch, &mut machine, text, 0, None)?;
    until(rt, watch, &mut machine, text, 1, None)?;
    print_machine(rt, text, &machine)?;
    Ok(())
}

/// Two calls of each of three processes, with steps in a jumbled order until all are answered.
fn jumble<R: Eprint + AllocGlobal>(
    rt: &R,
    watch: &mut Watch,
    text: &mut String,
) -> Result<(), Trouble> {
    let mut machine = made(rt)?;
    for value in [2, 30] {
        for p in 0..3 {
            submit(rt, watch, &mut machine, p, value)?;
        }
    }
    play(rt, watch, &mut machine, text)?;
    print_machine(rt, text, &machine)?;
    Ok(())
}

fn made<R: Eprint + AllocGlobal>(rt: &R) -> Result<Machine<Adder>, Trouble>
    ensures { IfOk result (λ m. m.sizes.processes ≡ 3) }
{
    let alloc = rt.alloc();
    match Machine::new(alloc, Adder { alloc }, 3, &[5]) {
        Ok(machine) => Ok(machine),
        Err(_) => {
            let _ = rt.eprintln("refused: new");
            Machine::new(alloc, Adder { alloc }, 3, &[5]).map_err(|_| Trouble::Again)
        }
    }
}

fn adds(alloc: Global, value: i32) -> Call {
    let mut args = SmallVec::new(alloc);
    args.push_reserved(Scalar::Int(value));
    Call { proc: 0, args }
}

fn submit<R: Eprint + AllocGlobal>(
    rt: &R,
    watch: &mut Watch,
    machine: &mut Machine<Adder>,
    p: usize,
    value: i32,
) -> Result<(), Trouble>
    requires processes { machine.old.sizes.processes ≡ 3 }
    requires process { p < 3 }
    ensures { machine.new.sizes ≡ machine.old.sizes }
{
    let alloc = rt.alloc();
    watch.before.look(rt, machine)?;
    if machine.submit(p, adds(alloc, value)).is_err() {
        let _ = rt.eprintln("refused: submit");
        watch.is_as_before(rt, machine)?;
        let _ = machine
            .submit(p, adds(alloc, value))
            .map_err(|_| Trouble::Again)?;
    }
    Ok(())
}

fn step<R: Eprint>(
    rt: &R,
    watch: &mut Watch,
    machine: &mut Machine<Adder>,
    p: usize,
) -> Result<StepOut, Trouble>
    requires processes { machine.old.sizes.processes ≡ 3 }
    requires process { p < 3 }
    ensures { machine.new.sizes ≡ machine.old.sizes }
{
    watch.before.look(rt, machine)?;
    match machine.step(p) {
        Ok(out) => Ok(out),
        Err(_) => {
            let _ = rt.eprintln("refused: step");
            watch.is_as_before(rt, machine)?;
            machine.step(p).map_err(|_| Trouble::Again)
        }
    }
}

/// Steps of one process until it stands at the label or its call is answered; the answer is printed.
fn until<R: Eprint>(
    rt: &R,
    watch: &mut Watch,
    machine: &mut Machine<Adder>,
    text: &mut String,
    p: usize,
    label: Option<Label>,
) -> Result<(), Trouble>
    requires processes { machine.old.sizes.processes ≡ 3 }
    requires process { p < 3 }
    ensures { machine.new.sizes ≡ machine.old.sizes }
{
    for _ in 0..200 {
        if let StepOut::Answered(id, reply) = step(rt, watch, machine, p)? {
            print_answer(text, id, &reply)?;
            return Ok(());
        }
        if label == Some(machine.label(p)) {
            return Ok(());
        }
    }
    Err(Trouble::Endless)
}

/// Steps of processes taken at random until six calls are answered; the answers are printed.
fn play<R: Eprint>(
    rt: &R,
    watch: &mut Watch,
    machine: &mut Machine<Adder>,
    text: &mut String,
) -> Result<(), Trouble>
    requires { machine.old.sizes.processes ≡ 3 }
{
    let mut answered: usize = 0;
    let mut seed: u64 = 1;
    for _ in 0..2000 {
        seed = seed
            .wrapping_mul(6364136223846793005)
            .wrapping_add(1442695040888963407);
        if let StepOut::Answered(id, reply) = step(rt, watch, machine, (seed >> 33) as usize % 3)? {
            print_answer(text, id, &reply)?;
            answered = answered.wrapping_add(1);
            if answered == 6 {
                return Ok(());
            }
        }
    }
    Err(Trouble::Endless)
}
