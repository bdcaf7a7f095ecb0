//! Schedules by chance.

ghost use Rattle.std.specs.Prelude.{◌≡◌, ◌++◌, ◌∷◌, ◌<◌, ◌≤◌, IfOk, OnOk, decimal, string_bytes};
ghost use Rattle.ob_text_scripts.specs.Chance.{IsOfSteps, steps_word};

use ob_interface::MOST_PROCESSES;
use ob_text_words::numbers::push_count;
use rand_core::{Rng, SeedableRng};
use rand_pcg::Pcg32;
use std::alloc::{AllocError, Global};

/// At most so many items in a row are of others, while a process stands still.
const LONGEST_STOP: u32 = 40;

/// Who stands still, where there is such a process, and for how many items.
#[derive(Clone, Copy)]
struct Stop {
    process: usize,
    items: u32,
}

/// A schedule of so many steps in all, of processes below a number, by chance from a seed: bursts of different lengths, while at times
/// one of the processes stands still for long. Of more than 16 processes only the first 16 step.
pub fn schedule_by_chance(
    alloc: Global,
    seed: u64,
    processes: usize,
    steps: u64,
) -> Result<String, AllocError>
    ensures { IfOk result (λ text. IsOfSteps processes steps (string_bytes text)) }
{
    let mut text = String::new(alloc);
    if processes == 0 {
        return Ok(text);
    }
    let choices = processes.min(MOST_PROCESSES);
    let mut words = Pcg32::seed_from_u64(seed);
    let mut stop = next_stop(&mut words, choices);
    let mut left = steps;
    while left > 0 {
        if stop.items == 0 {
            stop = next_stop(&mut words, choices);
        }
        stop.items -= 1;
        let process = next_process(&mut words, choices, stop.process);
        let count = next_burst(&mut words).min(left);
        push_steps(&mut text, process, count)?;
        left -= count;
    }
    Ok(text)
}

/// Who stands still next: one of the processes as often as nobody.
fn next_stop(words: &mut Pcg32, processes: usize) -> Stop
    requires some { 0 < processes }
    requires few { processes ≤ MOST_PROCESSES }
    ensures { 0 < result.items }
{
    Stop {
        process: words.next_u32() as usize % (2 * processes),
        items: 1 + words.next_u32() % LONGEST_STOP,
    }
}

/// Who steps next: not the process that stands still, unless there is no other.
fn next_process(words: &mut Pcg32, processes: usize, stopped: usize) -> usize
    requires { 0 < processes }
    ensures { result < processes }
{
    let process = words.next_u32() as usize % processes;
    if process == stopped {
        (process + 1) % processes
    } else {
        process
    }
}

/// How many steps a process takes in a row.
fn next_burst(words: &mut Pcg32) -> u64
    ensures some { 0 < result }
    ensures few { result ≤ 40 }
{
    let longest = longest_burst(words.next_u32());
    1 + u64::from(words.next_u32() % longest)
}

/// At most how many steps those are: short bursts, so that rounds are lost, and some that make most of a call.
fn longest_burst(word: u32) -> u32
    ensures some { 0 < result }
    ensures few { result ≤ 40 }
{
    match word % 4 {
        0 => 1,
        1 => 4,
        2 => 12,
        _ => 40,
    }
}

/// Appends an item, on a line of its own: so many steps of a process.
fn push_steps(text: &mut String, process: usize, count: u64) -> Result<(), AllocError>
    ensures { OnOk result (string_bytes text.new ≡ string_bytes text.old ++ 10 ∷ steps_word process count) }
{
    text.push_str("\n")?;
    push_count(text, process as u64)?;
    text.push_str("*")?;
    push_count(text, count)
}
