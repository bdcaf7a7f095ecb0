//! Names of files as they are shown.

ghost use Rattle.std.specs.Prelude.{◌≡◌, ◌<◌, ◌++◌, true, [], ◌∷◌, OnErr, OnOk, string_bytes};
ghost use Rattle.std.specs.Char.{digit_char};
ghost use Rattle.ob_answer_files.specs.ShownNames.{is_written_out, shown, shown_character, written_out};
ghost use Rattle.ob_text_words.specs.Appending.{GoesOn};

use std::alloc::AllocError;

/// Appends a file's name, with `\x` and two hexadecimal digits in the place of each control character and each
/// backslash.
pub fn push_name(text: &mut String, name: &str) -> Result<(), AllocError>
    ensures ok { OnOk result (string_bytes text.new ≡ string_bytes text.old ++ shown name.now) }
    ensures left { OnErr result (GoesOn (string_bytes text.old) (string_bytes text.new)) }
{
    for character in name.chars() {
        push_character(text, character)?;
    }
    Ok(())
}

fn push_character(text: &mut String, character: char) -> Result<(), AllocError>
    ensures ok { OnOk result (string_bytes text.new ≡ string_bytes text.old ++ shown_character character) }
    ensures left { OnErr result (GoesOn (string_bytes text.old) (string_bytes text.new)) }
{
    if is_written_out(character) {
        push_written_out(text, character)
    } else {
        text.push(character)
    }
}

fn is_written_out(character: char) -> bool
    ensures { result ≡ is_written_out character }
{
    character.is_control() || character == '\\'
}

fn push_written_out(text: &mut String, character: char) -> Result<(), AllocError>
    requires { is_written_out character ≡ true }
    ensures ok { OnOk result (string_bytes text.new ≡ string_bytes text.old ++ written_out character) }
    ensures left { OnErr result (GoesOn (string_bytes text.old) (string_bytes text.new)) }
{
    text.push_str("\\x")?;
    push_digit(text, character as u32 / 16)?;
    push_digit(text, character as u32 % 16)
}

/// Appends a hexadecimal digit.
fn push_digit(text: &mut String, value: u32) -> Result<(), AllocError>
    requires { value < 16 }
    ensures ok { OnOk result (string_bytes text.new ≡ string_bytes text.old ++ digit_char value ∷ []) }
    ensures unchanged { OnErr result (string_bytes text.new ≡ string_bytes text.old) }
{
    text.push(char::from_digit(value, 16).unwrap())
}
