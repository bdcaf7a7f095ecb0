//! Answers to words and files that are handed in.

ghost use Rattle.std.specs.Prelude.{IfOk, map, option_map};
ghost use Rattle.ob_answer_files.specs.Printed.{IsRefused};
ghost use Rattle.obl0_c.specs.Asked.{AreWordsIn, IsJoinedAnswer, IsTextsAnswer, IsWordsAnswer};

use crate::fixed_keys::FixedKeys;
use ob_answer::answer::{Alone, answer_alone};
use ob_answer_files::answered::Answer;
use ob_answer_files::handed_files::GivenFiles;
use ob_answer_files::joined_texts::{Joined, texts_in};
use ob_interface::NoMemory;
use std::alloc::{AllocError, Global};

/// What is said of lengths that are not those of the bytes.
const NO_TEXTS: &str = "the lengths are not those of the bytes\n";

/// What is said of words that are no text.
const NO_WORDS: &str = "the words are not UTF-8\n";

/// What is said of `serve`.
const NO_THREADS: &str = "`serve` starts threads, which this library does not\n";

/// The answer to words and files, of their bytes and lengths.
pub(crate) fn answer_joined(
    alloc: Global,
    words: Joined<'_>,
    files: Joined<'_>,
) -> Result<Answer, NoMemory>
    ensures { IfOk result (IsJoinedAnswer words.entry.bytes.now words.entry.lengths.now files.entry.bytes.now files.entry.lengths.now) }
{
    let Some(words) = texts_in(alloc, words)? else {
        return mistake(alloc, NO_TEXTS);
    };
    let Some(files) = texts_in(alloc, files)? else {
        return mistake(alloc, NO_TEXTS);
    };
    answer_texts(alloc, words.as_slice(), files.as_slice())
}

/// The answer to the texts of words and of files.
fn answer_texts(alloc: Global, texts: &[&[u8]], files: &[&[u8]]) -> Result<Answer, NoMemory>
    ensures { IfOk result (IsTextsAnswer (map (λ text. text.now) texts.now) (map (λ text. text.now) files.now)) }
{
    match words_in(alloc, texts)? {
        Some(words) => answer_words(alloc, words.as_slice(), files),
        None => mistake(alloc, NO_WORDS),
    }
}

/// The words; none where one of them is not UTF-8.
fn words_in<'a>(alloc: Global, texts: &[&'a [u8]]) -> Result<Option<Vec<&'a str>>, AllocError>
    ensures { IfOk result (λ found. AreWordsIn (map (λ text. text.now) texts.now)
        (option_map (λ words. map (λ word. word.now) words.items) found)) }
{
    let mut words = Vec::new(alloc);
    for text in texts {
        let Ok(word) = std::str::from_utf8(text) else {
            return Ok(None);
        };
        words.push(word)?;
    }
    Ok(Some(words))
}

/// The answer to words.
fn answer_words(alloc: Global, words: &[&str], files: &[&[u8]]) -> Result<Answer, NoMemory>
    ensures { IfOk result (IsWordsAnswer (map (λ word. word.now) words.now) (map (λ text. text.now) files.now)) }
{
    let mut given = GivenFiles {
        alloc,
        texts: files,
    };
    match answer_alone(&FixedKeys, alloc, words, &mut given)? {
        Alone::Answered(answer) => Ok(answer),
        Alone::Serves(_) => mistake(alloc, NO_THREADS),
    }
}

/// What is wrong with what was asked.
fn mistake(alloc: Global, text: &str) -> Result<Answer, NoMemory>
    ensures { IfOk result (λ a. IsRefused a 2 text.now) }
{
    Ok(Answer::refused(alloc, 2, String::from_str(alloc, text)?))
}
