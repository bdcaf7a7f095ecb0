//! Calls by the code of a module, on one block of words, beside the same calls by the meaning of its tree.

use ob_check::modules::check;
use ob_checked::checked::Checked;
use ob_code::generate;
use ob_code_engine::{CodeEngine, Entrance};
use ob_code_machine::{Body, BodyTurn, Code};
use ob_interface::scalar::Scalar;
use ob_layout::{Layout, encode};
use ob_mean::call::{Call, Reply};
use ob_mean::openings::opening;
use ob_mean::outside_call::interpret;
use ob_store::state::State;
use ob_syntax::tree_reader::read;
use std::alloc::Global;
use std::test::Fail;

const COUNTER: &[u8] = b"MODULE Counter; VAR x: INTEGER; PROCEDURE Inc*; BEGIN x := x + 1 END Inc; \
    PROCEDURE Get*(VAR v: INTEGER); BEGIN v := x END Get; END Counter.";

const QUOTIENTS: &[u8] =
    b"MODULE D; PROCEDURE Q*(x, y: INTEGER; VAR q, r: INTEGER); BEGIN q := x DIV y; r := x MOD y END Q; \
    PROCEDURE Lit*(VAR a, b, c: INTEGER); \
    BEGIN a := -7 DIV 2; b := (-7) DIV 2; c := (-2147483647 - 1) DIV 1 END Lit; END D.";

const PARTIAL: &[u8] =
    b"MODULE U; VAR x, y: INTEGER; PROCEDURE Bad*; BEGIN y := 5; x := x + 1 END Bad; \
    PROCEDURE See*(VAR a, b: INTEGER); BEGIN a := x; b := y END See; BEGIN x := 2147483647 END U.";

const SIDES: &[u8] =
    b"MODULE L; PROCEDURE A*(VAR b: BOOLEAN); BEGIN b := FALSE & (1 DIV 0 = 0) END A; \
    PROCEDURE B*(VAR b: BOOLEAN); BEGIN b := (1 DIV 0 = 0) & FALSE END B; END L.";

const ELEMENTS: &[u8] =
    b"MODULE A; VAR a: ARRAY 3 OF INTEGER; PROCEDURE Put*(i, v: INTEGER); BEGIN a[i] := v END Put; END A.";

const PLACES: &[u8] = b"MODULE S; VAR x: INTEGER; a: ARRAY 2 OF INTEGER; \
    PROCEDURE Up(VAR p, q: INTEGER); BEGIN p := p + 1; q := q + 1 END Up; \
    PROCEDURE Swap(VAR p, q: INTEGER); VAR t: INTEGER; BEGIN t := p; p := q; q := t END Swap; \
    PROCEDURE Go*(VAR r, s: INTEGER); BEGIN x := 0; Up(x, x); r := x; a[0] := 7; a[1] := 8; \
    Swap(a[0], a[1]); Swap(a[0], a[0]); s := a[0] END Go; END S.";

const DEPTH: &[u8] =
    b"MODULE R; PROCEDURE Down*(k: INTEGER); BEGIN IF k > 1 THEN Down(k - 1) END END Down; END R.";

const LOOP: &[u8] = b"MODULE X; VAR x: INTEGER; PROCEDURE Up*(k: INTEGER); \
    BEGIN REPEAT x := x + 1 UNTIL x >= k END Up; END X.";

/// The turns of each call.
const BUDGET: u32 = 64;

/// A call: the number of its export, its arguments, and how many words its reply has or which trap it is.
type Asked = (usize, &'static [i32], Result<usize, u8>);

fn word_of(value: &Scalar) -> i64 {
    match value {
        Scalar::Int(number) => i64::from(*number),
        Scalar::Bool(truth) => i64::from(*truth),
    }
}

/// Runs a body to its end, on the words of a block.
fn run(body: &mut Body, code: &Code, block: &mut [i64]) -> BodyTurn {
    for _ in 0..10_000u32 {
        match body.step(code, block) {
            BodyTurn::On => {}
            end => return end,
        }
    }
    BodyTurn::On
}

/// Starts a body with a call.
fn start(body: &mut Body, code: &Code, entrance: &Entrance, words: &[i64], block_words: u32) {
    body.start_on_words(
        code,
        entrance.procedure(),
        block_words,
        entrance.parameters(),
        words,
        BUDGET,
    );
}

/// Whether a body ended with a reply.
fn is_reply(body: &Body, end: BodyTurn, reply: &Reply) -> bool {
    match reply {
        Reply::Trapped(number) => matches!(end, BodyTurn::Trapped(told) if told == *number),
        Reply::Answers(values) => {
            matches!(end, BodyTurn::Returned)
                && values
                    .iter()
                    .enumerate()
                    .all(|(i, value)| body.result(i) == word_of(value))
        }
    }
}

/// Whether a reply has so many values, or is of such a trap.
fn is_wanted(reply: &Reply, wanted: Result<usize, u8>) -> bool {
    match reply {
        Reply::Trapped(number) => wanted == Err(*number),
        Reply::Answers(values) => wanted == Ok(values.len()),
    }
}

/// A module's object, by its tree and by its code.
#[derive(Drop)]
struct Object {
    checked: Checked,
    engine: CodeEngine,
    block_words: u32,
    stack_words: u32,
    state: State,
}

/// The object of a text, as it opens.
fn object_of(alloc: Global, text: &[u8]) -> Result<Object, Fail> {
    let checked = check(alloc, read(alloc, text)?)?;
    let layout = Layout::of(alloc, &checked)?;
    let code = generate(alloc, &checked, &layout)?;
    let engine = CodeEngine::new(alloc, &checked, &layout, code, u64::from(BUDGET))?;
    let state = opening(alloc, &checked)?;
    Ok(Object {
        checked,
        engine,
        block_words: u32::try_from(layout.variable_words())
            .ok()
            .ok_or("too many words")?,
        stack_words: u32::try_from(layout.stack_words())
            .ok()
            .ok_or("too many words")?,
        state,
    })
}

/// A call by the code on the words of the state: how its body ends, and the words that it leaves.
fn made_by_code(
    alloc: Global,
    object: &Object,
    body: &mut Body,
    asked: &Asked,
) -> Result<(BodyTurn, Vec<i64>), Fail> {
    let (export, arguments, _) = asked;
    let entrance = object
        .engine
        .exports()
        .get(*export)
        .ok_or("no such export")?;
    let mut words = Vec::new(alloc);
    for argument in *arguments {
        words.push(i64::from(*argument))?;
    }
    let mut block = encode(alloc, &object.state)?;
    let code = object.engine.code();
    start(body, code, entrance, words.as_slice(), object.block_words);
    let end = run(body, code, block.as_mut_slice());
    Ok((end, block))
}

/// The same call by its meaning: the state that it leads to, and its reply.
fn made_by_tree(alloc: Global, object: &Object, asked: &Asked) -> Result<(State, Reply), Fail> {
    let (export, arguments, _) = asked;
    let mut call = Call {
        export: *export,
        arguments: Vec::new(alloc),
    };
    for argument in *arguments {
        call.arguments.push(Scalar::Int(*argument))?;
    }
    let budget = u64::from(BUDGET);
    Ok(interpret(alloc, &object.checked, &object.state, &call, budget)?)
}

/// Whether a call comes to the same by code and by meaning: the same reply, and the words of the state that the meaning leads to.
/// What a call wrote that traps is taken back.
fn is_same(
    alloc: Global,
    object: &mut Object,
    body: &mut Body,
    asked: &Asked,
) -> Result<bool, Fail> {
    let before = encode(alloc, &object.state)?;
    let (end, block) = made_by_code(alloc, object, body, asked)?;
    let (next, reply) = made_by_tree(alloc, object, asked)?;
    let left = if matches!(reply, Reply::Trapped(_)) {
        before
    } else {
        block
    };
    let words = encode(alloc, &next)?;
    object.state = next;
    Ok(
        is_reply(body, end, &reply)
            && is_wanted(&reply, asked.2)
            && words.as_slice() == left.as_slice(),
    )
}

/// Whether calls on a module's object, one after the other, come to the same by its code and by its meaning.
fn agree(alloc: Global, text: &[u8], calls: &[Asked]) -> Result<bool, Fail> {
    let mut object = object_of(alloc, text)?;
    let mut body = Body::with_reserve(alloc, object.stack_words)?;
    for asked in calls {
        if !is_same(alloc, &mut object, &mut body, asked)? {
            return Ok(false);
        }
    }
    Ok(true)
}

#[test]
fn calls_without_a_trap(rt: HostRuntime) -> Result<(), Fail> {
    let counted = [
        (0, [].as_slice(), Ok(0)),
        (0, [].as_slice(), Ok(0)),
        (1, [].as_slice(), Ok(1)),
    ];
    assert!(rt; agree(rt.alloc(), COUNTER, counted.as_slice())?);
    assert!(rt; agree(rt.alloc(), PLACES, [(0, [].as_slice(), Ok(2))].as_slice())?);
    Ok(())
}

#[test]
fn quotients_and_their_trap(rt: HostRuntime) -> Result<(), Fail> {
    let calls = [
        (0, [-7, 2].as_slice(), Ok(2)),
        (0, [-2147483648, 1].as_slice(), Ok(2)),
        (0, [7, 0].as_slice(), Err(3)),
        (1, [].as_slice(), Ok(3)),
    ];
    assert!(rt; agree(rt.alloc(), QUOTIENTS, calls.as_slice())?);
    let sides = [(0, [].as_slice(), Ok(1)), (1, [].as_slice(), Err(3))];
    assert!(rt; agree(rt.alloc(), SIDES, sides.as_slice())?);
    Ok(())
}

#[test]
fn traps_behind_writes(rt: HostRuntime) -> Result<(), Fail> {
    let partial = [(0, [].as_slice(), Err(1)), (1, [].as_slice(), Ok(2))];
    assert!(rt; agree(rt.alloc(), PARTIAL, partial.as_slice())?);
    let elements = [
        (0, [2, 9].as_slice(), Ok(0)),
        (0, [3, 9].as_slice(), Err(2)),
        (0, [-1, 9].as_slice(), Err(2)),
    ];
    assert!(rt; agree(rt.alloc(), ELEMENTS, elements.as_slice())?);
    Ok(())
}

/// 64 activations may be active, of which 63 are turns, and each call has its turns anew.
#[test]
fn activations_and_turns(rt: HostRuntime) -> Result<(), Fail> {
    let depth = [(0, [64].as_slice(), Ok(0)), (0, [65].as_slice(), Err(4))];
    assert!(rt; agree(rt.alloc(), DEPTH, depth.as_slice())?);
    let turns = [
        (0, [64].as_slice(), Ok(0)),
        (0, [128].as_slice(), Ok(0)),
        (0, [193].as_slice(), Err(5)),
        (0, [0].as_slice(), Ok(0)),
    ];
    assert!(rt; agree(rt.alloc(), LOOP, turns.as_slice())?);
    Ok(())
}
