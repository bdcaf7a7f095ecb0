//! What the program answers, for programs in C and for all that call C. Nothing is kept from one call to the next.
#![tactic(auto)]

ghost use Rattle.std.specs.Prelude.{None};
ghost use Rattle.ob_answer.specs.Answers.{IsCheckAnswer, IsPictureAnswer, IsRecordAnswer, IsSeqAnswer, IsVerifyAnswer};
ghost use Rattle.ob_answer_explained.specs.Explains.{IsModuleExplained};
ghost use Rattle.ob_answer_searches.specs.Orders.{IsOrderAnswer};
ghost use Rattle.ob_answer_files.specs.Handed.{IsHanded, IsHandedWhole};
ghost use Rattle.ob_interface.specs.Processes.{most_processes};
ghost use Rattle.ob_object_compile.specs.Asked.{by_body};
ghost use Rattle.ob_object_perform.specs.Texts.{run_texts};
ghost use Rattle.obl0_c.specs.Asked.{IsJoinedAnswer, module_name};

use crate::asking::answer_joined;
use crate::fixed_keys::FixedKeys;
use crate::texts::{beginning, object};
use ob_answer::text_answers::{
    answer_check, answer_picture, answer_record, answer_seq, answer_verify,
};
use ob_answer_explained::explaining::explain_module;
use ob_answer_files::handing::{hand, hand_whole};
use ob_answer_files::joined_texts::Joined;
use ob_answer_searches::order_answers::answer_order;
use ob_command::command::{OrderCommand, OrderProduct};
use ob_interface::MOST_PROCESSES;
use ob_object_perform::Texts;
use std::alloc::Global;

mod asking;
mod fixed_keys;
mod texts;

/// The name of a module whose text is handed in.
const MODULE_NAME: &str = "module";

/// The name of a file that is none.
const NO_NAME: &str = "";

/// The answer to the words of a command line and the files that they name, which are names and what the files hold, in turn. Of words and
/// of files there are the bytes, one text behind the other, and the length of each text.
#[unsafe(no_mangle)]
pub extern "C" fn obl0_answer(
    alloc: Global,
    words: &[u8],
    word_lengths: &[usize],
    files: &[u8],
    file_lengths: &[usize],
    room: &mut [u8],
    output: &mut usize,
    len: &mut usize,
) -> u32
    ensures { IsHanded (IsJoinedAnswer words.now word_lengths.now files.now file_lengths.now) result output.new len.new room.old room.new }
{
    let words = Joined {
        bytes: words,
        lengths: word_lengths,
    };
    let files = Joined {
        bytes: files,
        lengths: file_lengths,
    };
    hand(answer_joined(alloc, words, files), room, output, len)
}

/// Whether a module has an object, as `check`.
#[unsafe(no_mangle)]
pub extern "C" fn obl0_check(alloc: Global, module: &[u8], room: &mut [u8], len: &mut usize) -> u32
    ensures { IsHandedWhole (IsCheckAnswer «module».now) result len.new room.old room.new }
{
    hand_whole(answer_check(alloc, beginning(module)), room, len)
}

/// The replies to the calls of a script, made one at a time, as `seq`.
#[unsafe(no_mangle)]
pub extern "C" fn obl0_seq(
    alloc: Global,
    module: &[u8],
    script: &[u8],
    turns: u64,
    room: &mut [u8],
    len: &mut usize,
) -> u32
    ensures { IsHandedWhole (IsSeqAnswer (by_body «module».now most_processes turns) script.now) result len.new room.old room.new }
{
    let asked = object(module, MOST_PROCESSES, turns);
    hand_whole(answer_seq(alloc, asked, script), room, len)
}

/// The record of a run by a schedule, as `run`.
#[unsafe(no_mangle)]
pub extern "C" fn obl0_run(
    alloc: Global,
    module: &[u8],
    script: &[u8],
    schedule: &[u8],
    processes: usize,
    turns: u64,
    room: &mut [u8],
    len: &mut usize,
) -> u32
    ensures { IsHandedWhole (IsRecordAnswer (run_texts (by_body «module».now processes turns) script.now schedule.now)) result len.new room.old room.new }
{
    let texts = Texts {
        asked: object(module, processes, turns),
        scripts: script,
        schedule,
    };
    hand_whole(answer_record(alloc, texts), room, len)
}

/// The picture of a run by a schedule, as `draw`.
#[unsafe(no_mangle)]
pub extern "C" fn obl0_draw(
    alloc: Global,
    module: &[u8],
    script: &[u8],
    schedule: &[u8],
    processes: usize,
    turns: u64,
    room: &mut [u8],
    len: &mut usize,
) -> u32
    ensures { IsHandedWhole (IsPictureAnswer None (run_texts (by_body «module».now processes turns) script.now schedule.now)) result len.new room.old room.new }
{
    let texts = Texts {
        asked: object(module, processes, turns),
        scripts: script,
        schedule,
    };
    hand_whole(answer_picture(alloc, texts, None), room, len)
}

/// Whether the order of a record is a legal order of its calls, as `verify`.
#[unsafe(no_mangle)]
pub extern "C" fn obl0_verify(
    alloc: Global,
    module: &[u8],
    record: &[u8],
    room: &mut [u8],
    len: &mut usize,
) -> u32
    ensures { IsHandedWhole (IsVerifyAnswer «module».now «record».now) result len.new room.old room.new }
{
    hand_whole(answer_verify(alloc, beginning(module), record), room, len)
}

/// A legal order of the calls of a history, as `order`, where at most so many configurations are looked at.
#[unsafe(no_mangle)]
pub extern "C" fn obl0_order(
    alloc: Global,
    module: &[u8],
    history: &[u8],
    most: u32,
    room: &mut [u8],
    len: &mut usize,
) -> u32
    ensures { IsHandedWhole (IsOrderAnswer «module».now history.now None most) result len.new room.old room.new }
{
    let order = OrderCommand {
        module_name: NO_NAME,
        history_name: NO_NAME,
        budget: None,
        most,
        product: OrderProduct::Line,
    };
    let made = answer_order(&FixedKeys, alloc, order, beginning(module), history);
    hand_whole(made, room, len)
}

/// What is wrong with a module, shown to people, as `explain`. The module has the name `module` there.
#[unsafe(no_mangle)]
pub extern "C" fn obl0_explain(
    alloc: Global,
    module: &[u8],
    room: &mut [u8],
    len: &mut usize,
) -> u32
    ensures { IsHandedWhole (IsModuleExplained module_name «module».now) result len.new room.old room.new }
{
    hand_whole(
        explain_module(alloc, MODULE_NAME, beginning(module)),
        room,
        len,
    )
}
