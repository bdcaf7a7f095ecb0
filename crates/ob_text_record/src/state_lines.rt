//! States written.

ghost use Rattle.std.specs.Prelude.{◌≡◌, ◌++◌, IfOk, OnErr, OnOk, string_bytes};
ghost use Rattle.ob_text_record.specs.StateText.{over_each, process_at, sizes_text, state_text};
ghost use Rattle.ob_text_words.specs.Appending.{GoesOn};

use crate::block_lines::{push_announcements, push_own_blocks, push_root};
use crate::process_lines::push_process;
use ob_text_words::numbers::push_count;
use std::alloc::{AllocError, Global};
use wf_object::{Engine, Machine};
use wf_table::Sizes;

/// The text of the state in which the machine stands.
pub fn write_state<E: Engine>(alloc: Global, machine: &Machine<E>) -> Result<String, AllocError>
    ensures { IfOk result (λ text. string_bytes text ≡ state_text machine.now.sizes machine.now.state) }
{
    // This does nothing: it says that words lie where they are read.
    machine.keeps();
    let sizes = machine.sizes();
    let mut text = String::from_str(alloc, "obl0 state 1\n")?;
    push_sizes(&mut text, sizes)?;
    push_processes(&mut text, machine)?;
    push_announcements(&mut text, sizes, machine.shared())?;
    push_root(&mut text, sizes, machine.shared())?;
    push_own_blocks(&mut text, sizes, machine.shared())?;
    Ok(text)
}

/// Appends how many processes there are, and how many words variables, replies and calls have.
fn push_sizes(text: &mut String, sizes: Sizes) -> Result<(), AllocError>
    ensures ok { OnOk result (string_bytes text.new ≡ string_bytes text.old ++ sizes_text sizes) }
    ensures left { OnErr result (GoesOn (string_bytes text.old) (string_bytes text.new)) }
{
    text.push_str("n ")?;
    push_count(text, sizes.processes as u64)?;
    text.push_str("\nV ")?;
    push_count(text, sizes.variables as u64)?;
    text.push_str(" R ")?;
    push_count(text, sizes.replies as u64)?;
    text.push_str(" A ")?;
    push_count(text, sizes.arguments as u64)?;
    text.push_str("\n")
}

/// Appends a line for each process.
fn push_processes<E: Engine>(text: &mut String, machine: &Machine<E>) -> Result<(), AllocError>
    ensures ok { OnOk result (string_bytes text.new ≡ string_bytes text.old ++ over_each (process_at machine.now.state) machine.now.sizes.processes) }
    ensures left { OnErr result (GoesOn (string_bytes text.old) (string_bytes text.new)) }
{
    machine.keeps();
    let shared = machine.shared();
    for p in 0..machine.sizes().processes {
        push_process(text, shared, p, machine.process(p))?;
    }
    Ok(())
}
