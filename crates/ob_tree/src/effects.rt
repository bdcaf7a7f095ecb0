//! The effect of an instruction: numbers, addresses, the words there and sums, which are most of what a tree comes to, without a look
//! at all instructions.

ghost use Rattle.std.specs.Prelude.{◌≡◌, pos, MatchOption};
ghost use Rattle.ob_code_words.specs.declared.instr.Instr.{Instr};
ghost use Rattle.ob_code_words.specs.Words as Words;
ghost use Rattle.ob_code_words.specs.Effect as Effects;
ghost use Rattle.ob_code_words.specs.Running.{HasEffect, LeavesStack};

use ob_code_machine::Instr;
use ob_code_words::effect::{Answer, effect, load, push, push_local, store};
use ob_code_words::stack::Stack;

/// Pushes a number.
#[inline(always)]
fn push_number(stack: &mut Stack, value: i32) -> Answer
    ensures { LeavesStack result stack.old stack.new (Effects.pushed stack.old.reserve stack.old.words value) }
{
    push(stack, i64::from(value))
}

/// Pushes the address of a word of the block.
#[inline(always)]
fn push_global(stack: &mut Stack, word: u16) -> Answer
    ensures { LeavesStack result stack.old stack.new (Effects.pushed stack.old.reserve stack.old.words (pos word)) }
{
    push(stack, i64::from(word))
}

/// The sum of two words, where it is an INTEGER.
#[inline(always)]
fn sum(x: i64, y: i64) -> Option<i64>
    ensures { MatchOption result (Words.made_of_two Instr.Add x y ≡ Words.Traps 1) (λ z. Words.made_of_two Instr.Add x y ≡ Words.Gives z) }
{
    let z = x.checked_add(y)?;
    if i64::from(i32::MIN) <= z && z <= i64::from(i32::MAX) {
        return Some(z);
    }
    None
}

/// Replaces the two words on top by their sum.
#[inline(always)]
fn add(stack: &mut Stack) -> Answer
    ensures { LeavesStack result stack.old stack.new (Effects.of_two (Words.made_of_two Instr.Add) stack.old.words) }
{
    let Some((x, y)) = stack.two() else {
        return Answer::Stuck;
    };
    match sum(x, y) {
        Some(z) => {
            stack.replace_two(z);
            Answer::Done
        }
        None => Answer::Trap(1),
    }
}

/// What an instruction without a jump does to the block and the stack.
#[inline(always)]
pub(crate) fn effect_at_once(
    instr: Instr,
    fp: usize,
    block: &mut [i64],
    stack: &mut Stack,
) -> Answer
    ensures { HasEffect result block.old block.new stack.old stack.new (Effects.effect stack.old.reserve fp instr block.old stack.old.words) }
{
    match instr {
        Instr::Literal { value } => push_number(stack, value),
        Instr::Global { word } => push_global(stack, word),
        Instr::Local { word } => push_local(block, stack, fp, word),
        Instr::Get => load(block, stack),
        Instr::Put => store(block, stack),
        Instr::Add => add(stack),
        other => effect(other, fp, block, stack),
    }
}
