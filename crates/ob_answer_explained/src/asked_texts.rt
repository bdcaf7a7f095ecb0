//! Commands on calls and on runs, with the texts of their files and the object that is asked for.

ghost use Rattle.std.specs.Prelude.{◌≡◌, [], option_map, option_to_list, unwrap_or};
ghost use Rattle.ob_answer_explained.specs.Beginnings.{begun_with};
ghost use Rattle.ob_answer_explained.specs.CommandTexts.{calls_begun_with, calls_texts_of, first_or_none, run_begun_with, run_texts_of};

use crate::record_opening::begun_with;
use ob_answer_files::file_reading::{CallsBytes, RunBytes};
use ob_carry::fields_by_name::NamedField;
use ob_command::command::{CallsCommand, RunCommand};
use ob_object_compile::Asked;
use ob_object_perform::Texts;

/// A command on calls: what is asked for, the text of the script, and the text of the record with whose values the object begins,
/// which is empty where none is named.
#[derive(Clone, Copy)]
pub struct Calls<'a> {
    pub command: CallsCommand<'a>,
    pub asked: Asked<'a>,
    pub script: &'a [u8],
    pub record_text: &'a [u8],
}

/// A command on a run: its texts, and the text of the record, as of calls.
#[derive(Clone, Copy)]
pub struct Run<'a> {
    pub command: RunCommand<'a>,
    pub texts: Texts<'a>,
    pub record_text: &'a [u8],
}

/// A command on calls with the bytes of its files, and the values with which the object begins, where there are some.
pub fn calls_with<'a>(
    command: CallsCommand<'a>,
    bytes: &'a CallsBytes,
    values: &'a Option<Vec<NamedField>>,
) -> Calls<'a>
    ensures { calls_texts_of result ≡ calls_begun_with command.entry bytes.now (begun_with (option_map (λ list. list.items) values.now)) }
{
    let beginning = begun_with(values);
    let asked = Asked {
        text: bytes.text.as_slice(),
        processes: command.processes,
        budget: u64::from(command.budget),
        beginning,
    };
    Calls {
        command,
        asked,
        script: bytes.script.as_slice(),
        record_text: bytes_or_none(&bytes.from),
    }
}

/// The same of a command on a run.
pub fn run_with<'a>(
    command: RunCommand<'a>,
    bytes: &'a RunBytes,
    values: &'a Option<Vec<NamedField>>,
) -> Run<'a>
    ensures { run_texts_of result ≡ run_begun_with command.entry bytes.now (begun_with (option_map (λ list. list.items) values.now)) }
{
    let beginning = begun_with(values);
    let asked = Asked {
        text: bytes.text.as_slice(),
        processes: command.calls.processes,
        budget: u64::from(command.calls.budget),
        beginning,
    };
    let texts = Texts {
        asked,
        scripts: bytes.script.as_slice(),
        schedule: bytes.schedule.as_slice(),
    };
    Run {
        command,
        texts,
        record_text: bytes_or_none(&bytes.from),
    }
}

/// The bytes of a file; nothing where none is named.
pub fn bytes_or_none(bytes: &Option<Vec<u8>>) -> &[u8]
    ensures { result.now ≡ first_or_none (option_to_list (option_map (λ file_bytes. file_bytes.items) bytes.now)) }
{
    match bytes {
        Some(bytes) => bytes.as_slice(),
        None => b"",
    }
}

/// The name of a file; nothing where none is named.
pub fn name_or_none<'a>(name: Option<&'a str>) -> &'a str
    ensures { result.now ≡ unwrap_or (option_map (λ name. name.now) name.entry) [] }
{
    match name {
        Some(name) => name,
        None => "",
    }
}
