//! The lines of processes.

ghost use Rattle.std.specs.Prelude.{◌≡◌, ◌<◌, ◌++◌, codes, decimal, length, OnErr, OnOk, string_bytes, if◌then◌else◌, []};
ghost use Rattle.ll_cell.specs.Cell.{is_linked};
ghost use Rattle.ob_text_words.specs.LabelNames.{label_name};
ghost use Rattle.ob_text_record.specs.StateText.{copied_text, lists_text, process_line, registers_text, round_text, served_text};
ghost use Rattle.ob_text_words.specs.Appending.{GoesOn};

use crate::named_words::{push_number_where, push_word_where, push_words_where};
use crate::uses::{
    uses_block, uses_list, uses_place, uses_process, uses_replies, uses_round, uses_save,
    uses_status, uses_word,
};
use ll_cell::Shared;
use ob_text_words::numbers::push_count;
use std::alloc::AllocError;
use wf_object::Process;
use wf_table::{Label, Registers};

/// Appends the line of a process.
pub(crate) fn push_process<R>(
    text: &mut String,
    shared: &Shared,
    p: usize,
    process: &Process<R>,
) -> Result<(), AllocError>
    requires { p < length shared.now.cell.linked }
    ensures ok { OnOk result (string_bytes text.new ≡ string_bytes text.old ++ process_line shared.now.cell p process.now) }
    ensures left { OnErr result (GoesOn (string_bytes text.old) (string_bytes text.new)) }
{
    let label = process.label();
    text.push_str("P ")?;
    push_count(text, p as u64)?;
    text.push_str(" ")?;
    text.push_str(label_name(label))?;
    push_calls(text, process.begun(), process.submitted())?;
    text.push_str(link_mark(shared.validate(p)))?;
    push_registers(text, label, process.registers())?;
    push_lists(text, process)?;
    text.push_str("\n")
}

/// Appends how many calls of a script have begun, and how many it has.
fn push_calls(text: &mut String, begun: usize, submitted: usize) -> Result<(), AllocError>
    ensures ok { OnOk result (string_bytes text.new ≡ string_bytes text.old ++ (codes " " ++ decimal begun ++ codes "/" ++ decimal submitted)) }
    ensures left { OnErr result (GoesOn (string_bytes text.old) (string_bytes text.new)) }
{
    text.push_str(" ")?;
    push_count(text, begun as u64)?;
    text.push_str("/")?;
    push_count(text, submitted as u64)
}

/// What says that a process is linked.
fn link_mark(linked: bool) -> &'static str
    ensures { result.now ≡ (if linked then codes " linked" else []) }
{
    if linked { " linked" } else { "" }
}

/// Appends the registers that are used at the label.
fn push_registers(text: &mut String, label: Label, registers: Registers) -> Result<(), AllocError>
    ensures ok { OnOk result (string_bytes text.new ≡ string_bytes text.old ++ registers_text label registers) }
    ensures left { OnErr result (GoesOn (string_bytes text.old) (string_bytes text.new)) }
{
    push_round(text, label, registers)?;
    push_copied(text, label, registers)?;
    push_served(text, label, registers)
}

/// Appends the round, and the block that is read.
#[tactic(auto, unfolding(crate::specs::StateText::round_text))]
fn push_round(text: &mut String, label: Label, registers: Registers) -> Result<(), AllocError>
    ensures ok { OnOk result (string_bytes text.new ≡ string_bytes text.old ++ round_text label registers) }
    ensures left { OnErr result (GoesOn (string_bytes text.old) (string_bytes text.new)) }
{
    let round = u64::from(registers.round);
    push_number_where(text, uses_round(label), " round ", round)?;
    push_number_where(text, uses_block(label), " r ", registers.r as u64)
}

/// Appends the word that is copied, and the place.
#[tactic(auto, unfolding(crate::specs::StateText::copied_text))]
fn push_copied(text: &mut String, label: Label, registers: Registers) -> Result<(), AllocError>
    ensures ok { OnOk result (string_bytes text.new ≡ string_bytes text.old ++ copied_text label registers) }
    ensures left { OnErr result (GoesOn (string_bytes text.old) (string_bytes text.new)) }
{
    push_word_where(text, uses_word(label), " acc", registers.acc)?;
    push_number_where(text, uses_place(label), " i ", registers.i as u64)
}

/// Appends the process that is looked at or served, and the status of its body.
#[tactic(auto, unfolding(crate::specs::StateText::served_text))]
fn push_served(text: &mut String, label: Label, registers: Registers) -> Result<(), AllocError>
    ensures ok { OnOk result (string_bytes text.new ≡ string_bytes text.old ++ served_text label registers) }
    ensures left { OnErr result (GoesOn (string_bytes text.old) (string_bytes text.new)) }
{
    push_number_where(text, uses_process(label), " j ", registers.j as u64)?;
    push_word_where(text, uses_status(label), " status", registers.status)
}

/// Appends the lists of words that are used at the process's label.
#[tactic(auto, unfolding(crate::specs::StateText::lists_text))]
fn push_lists<R>(text: &mut String, process: &Process<R>) -> Result<(), AllocError>
    ensures ok { OnOk result (string_bytes text.new ≡ string_bytes text.old ++ lists_text process.now) }
    ensures left { OnErr result (GoesOn (string_bytes text.old) (string_bytes text.new)) }
{
    let label = process.label();
    push_words_where(text, uses_list(label), " list", process.list())?;
    push_words_where(text, uses_save(label), " save", process.save())?;
    push_words_where(text, uses_replies(label), " replies", process.replies())
}

/// The name of a label.
fn label_name(label: Label) -> &'static str
    ensures { result.now ≡ label_name label }
{
    match label {
        Label::Next => "NEXT",
        Label::Post => "POST",
        Label::Flip => "FLIP",
        Label::Try => "TRY",
        Label::Link => "LINK",
        Label::Load => "LOAD",
        Label::Store => "STORE",
        Label::Check1 => "CHECK1",
        Label::Mine => "MINE",
        Label::Seen => "SEEN",
        Label::Fetch => "FETCH",
        Label::Check2 => "CHECK2",
        Label::Save => "SAVE",
        Label::Enter => "ENTER",
        Label::Body => "BODY",
        Label::Undo => "UNDO",
        Label::Keep => "KEEP",
        Label::Commit => "COMMIT",
        Label::Read => "READ",
        Label::Take => "TAKE",
        Label::Give => "GIVE",
    }
}
