//! One item of a schedule.

ghost use Rattle.std.specs.Prelude.{◌≡◌, ◌≢◌, ◌<◌, ◌≤◌, [], ◌∷◌, ◌++◌, ◌⊎◌, ◌↔◌, true, replicate, IsTrue, IfOk, OnOk};
ghost use Rattle.ob_text_words.specs.Schedule.{process_of};
ghost use Rattle.ob_text_words.specs.declared.item.Item.TheVariants as Items;
ghost use Rattle.wf_object.specs.Halted.{is_halted};
ghost use Rattle.wf_object.specs.InARow.{AreInBody, after_steps, object_after, stepped};
ghost use Rattle.wf_play.specs.ItemSteps.{IsItemPlayed};
ghost use Rattle.wf_play.specs.Played.{IsSameObject};
ghost use Rattle.wf_table.specs.declared.process.Label.TheVariants as Labels;
ghost use Rattle.wf_table.specs.Object.{label_of};
ghost use Rattle.wf_table.specs.Schedule.{steps_of};

use ob_interface::NoMemory;
use ob_text_words::Item;
use wf_object::{Engine, Label, Machine, Seen};

/// Plays an item; false where it stands for more steps than the limit.
pub fn play_item<E: Engine>(
    machine: &mut Machine<E>,
    item: Item,
    limit: u64,
) -> Result<bool, NoMemory>
    requires { process_of item < machine.old.sizes.processes }
    ensures object { OnOk result (IsSameObject machine.new machine.old) }
    ensures played { IfOk result (λ ended. IsItemPlayed (E.meaning machine.old.engine) machine.old.sizes limit item machine.old.state ended machine.new.state) }
{
    match item {
        Item::Steps { process, count } => step_times(machine, process, count, limit),
        Item::Until { process, label } => step_until(machine, process, label, limit),
        Item::ToAnswer { process } => step_to_answer(machine, process, limit),
    }
}

/// So many steps of the process, where they are within the limit.
fn step_times<E: Engine>(
    machine: &mut Machine<E>,
    p: usize,
    count: u64,
    limit: u64,
) -> Result<bool, NoMemory>
    requires { p < machine.old.sizes.processes }
    ensures object { OnOk result (IsSameObject machine.new machine.old) }
    ensures played { IfOk result (λ ended. IsItemPlayed (E.meaning machine.old.engine) machine.old.sizes limit (Items.Steps p count) machine.old.state ended machine.new.state) }
{
    if count > limit {
        return Ok(false);
    }
    let mut taken = 0;
    while taken < count {
        step_once(machine, p)?;
        taken += 1;
        taken += go_far(machine, p, count - taken);
    }
    Ok(true)
}

/// Steps of the process that show nothing, or of a process that is halted; at most so many, and how many they are.
#[inline(always)]
fn go_far<E: Engine>(machine: &mut Machine<E>, p: usize, most: u64) -> u64
    requires { p < machine.old.sizes.processes }
    ensures stepped { machine.new ≡ object_after (E.meaning machine.old.engine) p result machine.old }
    ensures few { result ≤ most }
    ensures turns { steps_of machine.new.state.records.schedule ≡ steps_of machine.old.state.records.schedule ++ replicate result p }
{
    if machine.is_halted(p) {
        return machine.rest(p, most);
    }
    machine.go_on(p, most)
}

/// Steps of the process until it stands at the label, or is halted.
fn step_until<E: Engine>(
    machine: &mut Machine<E>,
    p: usize,
    label: Label,
    limit: u64,
) -> Result<bool, NoMemory>
    requires { p < machine.old.sizes.processes }
    ensures object { OnOk result (IsSameObject machine.new machine.old) }
    ensures played { IfOk result (λ ended. IsItemPlayed (E.meaning machine.old.engine) machine.old.sizes limit (Items.Until p label) machine.old.state ended machine.new.state) }
{
    let mut taken = 0;
    while taken < limit {
        if is_there(machine, p, label) {
            return Ok(true);
        }
        step_once(machine, p)?;
        taken += 1;
        taken += stay_elsewhere(machine, p, label, limit - taken);
    }
    Ok(is_there(machine, p, label))
}

/// One step of the process, apart. `advance` is put in where it is called if that is one place alone, which has to be where most
/// steps of a run are taken.
#[inline(never)]
pub fn step_once<E: Engine>(machine: &mut Machine<E>, p: usize) -> Result<(), NoMemory>
    requires { p < machine.old.sizes.processes }
    ensures stepped { OnOk result (machine.new ≡ stepped (E.meaning machine.old.engine) p machine.old) }
    ensures turn { OnOk result (steps_of machine.new.state.records.schedule ≡ steps_of machine.old.state.records.schedule ++ p ∷ []) }
{
    machine.step(p)?;
    Ok(())
}

/// Steps of the process in a body, at most so many, but where the label is that of a body; and how many they are.
fn stay_elsewhere<E: Engine>(machine: &mut Machine<E>, p: usize, label: Label, most: u64) -> u64
    requires { p < machine.old.sizes.processes }
    ensures object { IsSameObject machine.new machine.old }
    ensures few { result ≤ most }
    ensures leads { machine.new.state ≡ after_steps (E.meaning machine.old.engine) machine.old.sizes p result machine.old.state }
    ensures turns { steps_of machine.new.state.records.schedule ≡ steps_of machine.old.state.records.schedule ++ replicate result p }
    ensures inside { AreInBody (E.meaning machine.old.engine) machine.old.sizes p result machine.old.state }
    ensures elsewhere { 0 < result → label ≢ Labels.Body }
{
    if label == Label::Body {
        return 0;
    }
    machine.stay_in_body(p, most)
}

/// Whether the process stands at the label, or is halted.
fn is_there<E: Engine>(machine: &Machine<E>, p: usize, label: Label) -> bool
    requires { p < machine.now.sizes.processes }
    ensures { IsTrue result ↔ ((label_of machine.now.state p ≡ label) ⊎ (is_halted machine.now.state p ≡ true)) }
{
    machine.label(p) == label || machine.is_halted(p)
}

/// Steps of the process until one answers, or it is halted.
fn step_to_answer<E: Engine>(
    machine: &mut Machine<E>,
    p: usize,
    limit: u64,
) -> Result<bool, NoMemory>
    requires { p < machine.old.sizes.processes }
    ensures object { OnOk result (IsSameObject machine.new machine.old) }
    ensures played { IfOk result (λ ended. IsItemPlayed (E.meaning machine.old.engine) machine.old.sizes limit (Items.ToAnswer p) machine.old.state ended machine.new.state) }
{
    let mut taken = 0;
    while taken < limit {
        if machine.is_halted(p) {
            return Ok(true);
        }
        if machine.advance(p)? == Seen::Answered {
            return Ok(true);
        }
        taken += 1;
        taken += machine.go_on(p, limit - taken);
    }
    Ok(machine.is_halted(p))
}
