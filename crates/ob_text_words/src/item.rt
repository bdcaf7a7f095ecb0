//! Items of a schedule.

ghost use Rattle.std.specs.Prelude.{◌≡◌, MatchOption};
ghost use Rattle.ob_text_words.specs.declared.item.Item.{Item};
ghost use Rattle.ob_text_words.specs.Schedule.{IsItem, process_of};

use crate::label::label_named;
use crate::numbers::{read_digits, read_process, split_digits};
use wf_table::Label;

/// Steps of one process.
#[derive(Clone, Copy)]
pub enum Item {
    /// So many steps.
    Steps { process: usize, count: u64 },
    /// Steps until it stands at the label; none where it does.
    Until { process: usize, label: Label },
    /// Steps until it answers.
    ToAnswer { process: usize },
}

/// The most digits of a count.
const COUNT_DIGITS: usize = 9;

impl Item {
    /// The process that steps.
    pub fn process(&self) -> usize
        ensures { result ≡ process_of self.now }
    {
        match self {
            Item::Steps { process, .. } => *process,
            Item::Until { process, .. } => *process,
            Item::ToAnswer { process } => *process,
        }
    }
}

/// The item that a word says.
pub fn read_item(word: &[u8]) -> Option<Item>
    ensures { MatchOption result ((item : Item) → IsItem word.now item → ⊥) (λ item. IsItem word.now item) }
{
    let (digits, behind) = split_digits(word);
    let process = read_process(digits)?;
    match behind.split_first() {
        Some((b'*', count)) => {
            let count = read_digits(count, COUNT_DIGITS)?;
            Some(Item::Steps { process, count })
        }
        Some((b':', name)) => {
            let label = label_named(name)?;
            Some(Item::Until { process, label })
        }
        Some((b'!', [])) => Some(Item::ToAnswer { process }),
        _ => None,
    }
}
