//! Schedules as texts.

ghost use Rattle.std.specs.Prelude.{◌≡◌, List, IfOk, IfErr, map};
ghost use Rattle.ob_text_words.specs.declared.item.Item.{Item};
ghost use Rattle.ob_text_words.specs.Schedule.{IsSchedule, IsScheduleFault, is_comment, item_words};

use crate::item::{Item, read_item};
use crate::words::put_words;
use std::alloc::{AllocError, AllocFailed, Global};
use thiserror::Error;

/// Why a text is no schedule. Items count from 1.
#[derive(Clone, Copy, Debug, Error)]
pub enum ScheduleFault {
    /// Q1: the word is no item.
    #[error("Q1 item {0}")]
    Form(usize),
    /// Q2: there is no such process.
    #[error("Q2 item {0}")]
    Process(usize),
    /// Want of memory.
    #[error("NoMemory")]
    NoMemory,
}

impl From<AllocError> for ScheduleFault {
    ghost use Rattle.std.specs.Prelude.{◌≡◌};
    ghost use Rattle.ob_text_words.specs.declared.schedule_texts.ScheduleFault.TheVariants.{NoMemory};

    ghost from_gives = { λ _ e. e ≡ NoMemory };

    fn from(_: AllocError) -> ScheduleFault {
        ScheduleFault::NoMemory
    }
}

impl<T: Drop> From<AllocFailed<T>> for ScheduleFault {
    ghost use Rattle.std.specs.Prelude.{◌≡◌};
    ghost use Rattle.ob_text_words.specs.declared.schedule_texts.ScheduleFault.TheVariants.{NoMemory};

    ghost from_gives = { λ _ e. e ≡ NoMemory };

    fn from(_: AllocFailed<T>) -> ScheduleFault {
        ScheduleFault::NoMemory
    }
}

/// The items of a schedule for processes below `processes`.
pub fn read_schedule(
    alloc: Global,
    processes: usize,
    text: &[u8],
) -> Result<Vec<Item>, ScheduleFault>
    ensures schedule { IfOk result (λ items. IsSchedule processes text.now items.items) }
    ensures alone { IfOk result (λ items. (others : List Item) → IsSchedule processes text.now others → others ≡ items.items) }
    ensures fault { IfErr result (λ e. IsScheduleFault processes text.now e) }
{
    let words = item_words(alloc, text)?;
    let mut items = Vec::new(alloc);
    for (index, word) in words.iter().enumerate() {
        let Some(item) = read_item(word) else {
            return Err(ScheduleFault::Form(index + 1));
        };
        if item.process() >= processes {
            return Err(ScheduleFault::Process(index + 1));
        }
        items.push(item)?;
    }
    Ok(items)
}

/// The words of the lines of a schedule, but for comments.
pub fn item_words(alloc: Global, text: &[u8]) -> Result<Vec<&[u8]>, AllocError>
    ensures { IfOk result (λ ws. map (λ w. w.now) ws.items ≡ item_words text.now) }
{
    let mut items = Vec::new(alloc);
    let mut words = Vec::new(alloc);
    for line in text.split(|byte| *byte == b'\n') {
        put_words(&mut words, line)?;
        if !is_comment(&words) {
            items.extend_from_slice(&words)?;
        }
    }
    Ok(items)
}

/// Whether the words of a line are a comment.
pub fn is_comment(words: &[&[u8]]) -> bool
    ensures { result ≡ is_comment (map (λ w. w.now) words.now) }
{
    match words.first() {
        Some(first) => first.first() == Some(&b'#'),
        None => false,
    }
}
