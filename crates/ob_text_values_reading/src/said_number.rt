//! Numbers that are all that is said.

ghost use Rattle.std.specs.Prelude.{map};
ghost use Rattle.ob_text_values_reading.specs.Numbers.{FindsOnlyNumber, FindsProcess};

use ob_text_words::numbers::{read_numeral, read_process};

/// The number from `least` to `most` that the only word says.
pub fn read_only_number(words: &[&[u8]], least: u64, most: u64) -> Option<u64>
    ensures { FindsOnlyNumber (map (λ w. w.now) words.now) least most result }
{
    let [word] = words else {
        return None;
    };
    let number = read_numeral(word)?;
    if number < least || number > most {
        return None;
    }
    Some(number)
}

/// The number of at most nine digits that the only word says.
pub fn only_process(words: &[&[u8]]) -> Option<usize>
    ensures { FindsProcess (map (λ w. w.now) words.now) result }
{
    let [word] = words else {
        return None;
    };
    read_process(word)
}
