//! Words of a schedule that are no items.

ghost use Rattle.std.specs.Prelude.{◌≡◌, ◌≤◌, ◌++◌, IfOk, OnOk, Some, length, option_map, string_bytes};
ghost use Rattle.std.specs.Char.{is_ascii_digit, is_ascii_lowercase};
ghost use Rattle.std.specs.List.{list_any, prefix_len};
ghost use Rattle.ob_explain_arguments.specs.Items.{deed_sentence, item_sentence, label_form, label_sentence, near_or_labels, numbered_sentence};

use crate::near::near_label;
use crate::other_lines::{ORDER_MARK, begins_comment, begins_order_mark};
use std::alloc::{AllocError, Global};

/// The most digits of a process.
const PROCESS_DIGITS: usize = 9;

/// What an item is.
const ITEM_FORM: &str =
    "an item is a process with *STEPS, :LABEL or ! behind it, and no blanks between, as 0*3, 0:TRY or 0!";

/// What is said of a word that is no item.
pub fn item_sentence(alloc: Global, word: &[u8]) -> Result<String, AllocError>
    ensures { IfOk result (λ sentence. string_bytes sentence ≡ item_sentence word.now) }
{
    if begins_order_mark(word) {
        String::from_str(alloc, ORDER_MARK)
    } else if word.starts_with(b"#") || begins_comment(word) {
        String::from_str(alloc, "a remark is a line of its own that begins with #")
    } else if word.contains(&b',') || word.contains(&b';') {
        String::from_str(
            alloc,
            "items are separated by blanks or line feeds, and not by commas or semicolons",
        )
    } else {
        let digits = digits(word);
        numbered_sentence(alloc, digits, &word[digits..])
    }
}

/// How many digits a word begins with.
fn digits(word: &[u8]) -> usize
    ensures count { result ≡ prefix_len is_ascii_digit word.now }
    ensures within { result ≤ length word.now }
{
    word.iter().take_while(|byte| byte.is_ascii_digit()).count()
}

/// What is said by how many digits a word begins with, and by what stands behind them.
fn numbered_sentence(alloc: Global, digits: usize, behind: &[u8]) -> Result<String, AllocError>
    ensures { IfOk result (λ sentence. string_bytes sentence ≡ numbered_sentence digits behind.now) }
{
    if digits == 0 {
        String::from_str(alloc, ITEM_FORM)
    } else if digits > PROCESS_DIGITS {
        String::from_str(alloc, "a process has one to nine digits")
    } else {
        deed_sentence(alloc, behind)
    }
}

/// What is said by what stands behind the digits of a process.
fn deed_sentence(alloc: Global, behind: &[u8]) -> Result<String, AllocError>
    ensures { IfOk result (λ sentence. string_bytes sentence ≡ deed_sentence behind.now) }
{
    let Some((mark, rest)) = behind.split_first() else {
        return String::from_str(
            alloc,
            "behind a process stands *STEPS, :LABEL or !, with no blank before it, as 0*3, 0:TRY or 0!",
        );
    };
    if *mark == b'*' {
        String::from_str(
            alloc,
            "behind * stands how many steps, in one to nine digits and with no blank before them, as 0*3",
        )
    } else if *mark == b':' {
        label_sentence(alloc, rest)
    } else if *mark == b'!' {
        String::from_str(
            alloc,
            "an item ends with its !, and a blank or a line feed stands before the next one, as 0! 1!",
        )
    } else {
        String::from_str(alloc, ITEM_FORM)
    }
}

/// What is said of a label that there is not.
fn label_sentence(alloc: Global, label: &[u8]) -> Result<String, AllocError>
    ensures { IfOk result (λ sentence. string_bytes sentence ≡ label_sentence label.now) }
{
    let mut sentence = String::from_str(alloc, label_form(label))?;
    push_near(&mut sentence, near_label(label))?;
    Ok(sentence)
}

/// What labels are.
fn label_form(label: &[u8]) -> &'static str
    ensures { result.now ≡ label_form label.now }
{
    if has_small_letter(label) {
        "labels are written in capitals, as 0:TRY"
    } else {
        "behind : stands a label, with no blank before it"
    }
}

/// Appends the question whether a label is meant, or else which ones there are.
fn push_near(sentence: &mut String, near: Option<&str>) -> Result<(), AllocError>
    ensures { OnOk result (string_bytes sentence.new ≡ string_bytes sentence.old ++ near_or_labels (option_map (λ l. l.now) near.entry)) }
{
    match near {
        Some(label) => push_question(sentence, label),
        None => sentence.push_str(
            "; they are NEXT, POST, FLIP, TRY, LINK, LOAD, STORE, CHECK1, MINE, SEEN, FETCH, CHECK2, SAVE, ENTER, BODY, \
             UNDO, KEEP, COMMIT, READ, TAKE and GIVE",
        ),
    }
}

/// Appends the question whether a label is meant.
fn push_question(sentence: &mut String, label: &str) -> Result<(), AllocError>
    ensures { OnOk result (string_bytes sentence.new ≡ string_bytes sentence.old ++ near_or_labels (Some label.now)) }
{
    sentence.push_str("; did you mean `")?;
    sentence.push_str(label)?;
    sentence.push_str("`?")?;
    Ok(())
}

/// Whether a small letter stands in a word.
fn has_small_letter(word: &[u8]) -> bool
    ensures { result ≡ list_any is_ascii_lowercase word.now }
{
    word.iter().any(|byte| byte.is_ascii_lowercase())
}
