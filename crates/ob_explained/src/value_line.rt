//! In which line of a record's text each of its values stands.

ghost use Rattle.std.specs.Prelude.{◌≡◌, slice_get};
ghost use Rattle.ob_explained.specs.ValueLines.{tells_value, value_lines};
ghost use Rattle.ob_text_words.specs.Words.{words};

use ob_text_values_reading::variables::begins_with;

/// The number of the line, from 1, in which the value at a position stands, from 0; `None` where there are fewer values.
pub fn value_line(text: &[u8], position: usize) -> Option<usize>
    ensures { result ≡ slice_get (value_lines text.now) position }
{
    let mut before = position;
    for (index, line) in text.split(|byte| *byte == b'\n').enumerate() {
        if tells_value(line) {
            if before == 0 {
                return Some(index + 1);
            }
            before -= 1;
        }
    }
    None
}

/// Whether a line tells the value of a variable.
fn tells_value(line: &[u8]) -> bool
    ensures { result ≡ tells_value (words line.now) }
{
    begins_with(b'V', line)
}
