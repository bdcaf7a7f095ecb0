//! The lines behind the title and before the first event: how many processes there are, and the budget of each call.

ghost use Rattle.std.specs.Prelude.{◌≡◌, ℕ, map, MatchOption, None};
ghost use Rattle.ob_text_reading.specs.RecordLines.{IsBudget, IsCount};

use ob_interface::MOST_PROCESSES;
use ob_mean::openings::MOST_TURNS;
use ob_store::state::State;
use ob_text_values_reading::said_number::read_only_number;

/// What the lines before the first event tell, and how many they are.
#[derive(Drop)]
pub(crate) struct Head {
    pub(crate) processes: usize,
    pub(crate) budget: u64,
    pub(crate) carried: Option<State>,
    pub(crate) lines: usize,
}

/// A head that tells of no values that were carried over.
pub(crate) fn plain_head(processes: usize, budget: u64, lines: usize) -> Head
    ensures { result ≡ record { processes = processes; budget = budget; carried = None; lines = lines } }
{
    Head {
        processes,
        budget,
        carried: None,
        lines,
    }
}

/// The number of processes, from the line `n N`.
pub(crate) fn read_count(words: &[&[u8]]) -> Option<usize>
    ensures { MatchOption result
        ((n : ℕ) → IsCount (map (λ w. w.now) words.now) n → ⊥)
        (λ n. IsCount (map (λ w. w.now) words.now) n) }
{
    let Some((first, rest)) = words.split_first() else {
        return None;
    };
    if *first != b"n".as_slice() {
        return None;
    }
    let count = read_only_number(rest, 1, MOST_PROCESSES as u64)?;
    Some(count as usize)
}

/// The budget of each call, from the line `b BUDGET`.
pub fn read_budget(words: &[&[u8]]) -> Option<u64>
    ensures { MatchOption result
        ((b : ℕ) → IsBudget (map (λ w. w.now) words.now) b → ⊥)
        (λ b. IsBudget (map (λ w. w.now) words.now) b) }
{
    let Some((first, rest)) = words.split_first() else {
        return None;
    };
    if *first != b"b".as_slice() {
        return None;
    }
    read_only_number(rest, 0, MOST_TURNS)
}
