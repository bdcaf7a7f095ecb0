//! The runs that are made: of two processes each.

ghost use Rattle.std.specs.Prelude.{◌<◌, ◌≤◌, All, IfOk};
ghost use Rattle.ob_code_correct.specs.Compiled.{IsFitting};
ghost use Rattle.ob_object_compile.specs.Sound.{IsSoundObject};
ghost use Rattle.ob_object_compile.specs.View.{object_in};
ghost use Rattle.ob_text_words.specs.Schedule.{process_of};
ghost use Rattle.ob_text_words.specs.ScriptCalls.{object_call, script_call_of};

use ob_object_compile::{Asked, Beginning, Object};
use ob_object_perform::performing::read_texts;
use ob_object_perform::{PerformFault, Texts};
use ob_text_words::Item;
use ob_text_words::script_call::ScriptCall;
use std::alloc::Global;

/// The texts of a run, and the turns that its schedule comes to: which process takes how many, one behind the other.
#[derive(Clone, Copy)]
pub struct Row {
    pub text: &'static [u8],
    pub scripts: &'static [u8],
    pub schedule: &'static [u8],
    pub turns: &'static [(usize, usize)],
}

const COUNTER: &[u8] = b"MODULE Counter; VAR x: INTEGER; PROCEDURE Inc*; BEGIN x := x + 1 END Inc; \
    PROCEDURE Get*(VAR v: INTEGER); BEGIN v := x END Get; END Counter.";

const ADDER: &[u8] = b"MODULE T; VAR x, y: INTEGER; \
    PROCEDURE Add*(k: INTEGER); BEGIN y := y + 1; x := x + k END Add; END T.";

/// Process 0 stops for good when it has announced its call, which process 1 makes together with its own.
pub const STOPPED: Row = Row {
    text: COUNTER,
    scripts: b"0 Inc\n1 Inc\n",
    schedule: b"0:TRY 1:TRY 1!",
    turns: &[(0, 3), (1, 59)],
};

/// Process 0 loses both rounds, and the block that it reads its reply from is written anew before it reads.
pub const ROUNDS_LOST: Row = Row {
    text: COUNTER,
    scripts: b"0 Get\n1 Inc\n1 Inc\n1 Inc\n1 Inc\n",
    schedule: b"1:COMMIT 0:LOAD 1! 1:COMMIT 0:TRY 0:LOAD 1! 0:TRY 0:TAKE 1! 1! 0!",
    turns: &[
        (1, 39),
        (0, 5),
        (1, 58),
        (0, 17),
        (1, 5),
        (0, 17),
        (1, 88),
        (0, 3),
    ],
};

/// Process 1 makes the call of process 0, and its own traps: what that wrote is put back. Process 0 takes turns beyond its last call.
pub const TRAP_IN_A_ROUND: Row = Row {
    text: ADDER,
    scripts: b"0 Add 5\n1 Add 2147483647\n",
    schedule: b"0:TRY 1! 0*100",
    turns: &[(0, 4), (1, 73), (0, 100)],
};

/// The object of a row, its calls and the items of its schedule.
pub fn read(alloc: Global, row: &Row) -> Result<(Object, Vec<ScriptCall>, Vec<Item>), PerformFault>
    ensures sound { IfOk result (λ r. IsSoundObject (object_in r.0)) }
    ensures some { IfOk result (λ r. 0 < (object_in r.0).processes) }
    ensures few { IfOk result (λ r. (object_in r.0).processes ≤ 16) }
    ensures callers { IfOk result (λ r. All (λ c. c.process < (object_in r.0).processes) r.1.items) }
    ensures fits { IfOk result (λ r. All (λ c. IsFitting (object_in r.0).engine.exports (object_call (script_call_of c))) r.1.items) }
    ensures turns { IfOk result (λ r. All (λ item. process_of item < (object_in r.0).processes) r.2.items) }
{
    let texts = Texts {
        asked: Asked {
            text: row.text,
            processes: 2,
            budget: 100_000,
            beginning: Beginning::Body,
        },
        scripts: row.scripts,
        schedule: row.schedule,
    };
    let (object, calls, items) = read_texts(alloc, texts)?;
    Ok((object, calls.into_calls(), items))
}
