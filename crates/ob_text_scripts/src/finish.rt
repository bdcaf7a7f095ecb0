//! Schedules that go on until each call of a script has ended.

ghost use Rattle.std.specs.Prelude.{◌≡◌, ◌++◌, ◌∷◌, [], List, IfOk, OnOk, map};
ghost use Rattle.ob_text_scripts.specs.Finish.{GoesOnBy, IsFinished};
ghost use Rattle.ob_text_words.specs.Words.{Word};

use ob_text_words::numbers::read_process;
use ob_text_words::words::put_words;
use std::alloc::{AllocError, Global};

/// A schedule, and behind it an item `p!` for each call of a script, in line order: its process steps until it answers.
pub fn finished_schedule(
    alloc: Global,
    schedule: &[u8],
    script: &[u8],
) -> Result<Vec<u8>, AllocError>
    ensures { IfOk result (λ text. IsFinished schedule.now script.now text.items) }
{
    let mut text = schedule.to_vec(alloc)?;
    let mut words = Vec::new(alloc);
    for line in script.split(|byte| *byte == b'\n') {
        put_words(&mut words, line)?;
        push_answer(&mut text, &words)?;
    }
    Ok(text)
}

/// Appends the item by which the process that a line names first answers; a line that names none adds nothing.
fn push_answer(text: &mut Vec<u8>, words: &[&[u8]]) -> Result<(), AllocError>
    ensures { OnOk result (GoesOnBy (map (λ w. w.now) words.now) text.old.items text.new.items) }
{
    let Some((first, _rest)) = words.split_first() else {
        return Ok(());
    };
    push_answer_of(text, first)
}

/// The same of the first word of a line.
fn push_answer_of(text: &mut Vec<u8>, first: &[u8]) -> Result<(), AllocError>
    ensures { OnOk result ((rest : List Word) → GoesOnBy (first.now ∷ rest) text.old.items text.new.items) }
{
    match read_process(first) {
        Some(_process) => push_item(text, first),
        None => Ok(()),
    }
}

/// Appends an item of the process that a word names, on a line of its own: what stands before it may be a comment.
fn push_item(text: &mut Vec<u8>, process: &[u8]) -> Result<(), AllocError>
    ensures { OnOk result (text.new.items ≡ text.old.items ++ 10 ∷ (process.now ++ 33 ∷ [])) }
{
    text.push(b'\n')?;
    text.extend_from_slice(process)?;
    text.push(b'!')?;
    Ok(())
}
