//! What an instruction without a jump does to the block and the stack.

ghost use Rattle.std.specs.Prelude.{◌+◌, ◌^◌, ◌<◌, ◌≤◌, IfSome, length, take, pos};
ghost use Rattle.ob_code_words.specs.declared.instr.Instr.{Instr};
ghost use Rattle.ob_code_words.specs.Words as Words;
ghost use Rattle.ob_code_words.specs.Effect as Effects;
ghost use Rattle.ob_code_words.specs.Running.{HasEffect, IsLocalWord, IsMade, LeavesBoth, LeavesStack};

use crate::instr::Instr;
use crate::stack::Stack;
use crate::stack_operators::{Made, made_of_one, made_of_two};

/// What came of an instruction.
#[derive(Clone, Copy)]
pub enum Answer {
    Done,
    Trap(u8),
    Stuck,
}

/// Pushes a word.
#[inline(always)]
pub fn push(stack: &mut Stack, word: i64) -> Answer
    ensures { LeavesStack result stack.old stack.new (Effects.pushed stack.old.reserve stack.old.words word) }
{
    if stack.room() == 0 {
        return Answer::Stuck;
    }
    stack.push(word);
    Answer::Done
}

/// The address of a word of the frame.
#[inline(always)]
fn local_address(variables: usize, fp: usize, word: u16) -> Option<i64>
    ensures { IsMade result (Words.address (pos (variables + fp + word))) }
{
    let place = variables.checked_add(fp)?.checked_add(usize::from(word))?;
    if place > i64::MAX as usize {
        return None;
    }
    Some(place as i64)
}

/// A word of the frame, where no address is made for it: what GET finds at the address that LOC makes.
#[tactic(auto, using(crate::proofs::Memory::local_is))]
#[inline(always)]
pub fn local_word(block: &[i64], stack: &Stack, fp: usize, word: u16) -> Option<i64>
    requires { length stack.now.words < 2 ^ 32 }
    ensures { IfSome result (IsLocalWord block.now stack.now.words fp word) }
{
    let word = usize::from(word);
    let height = stack.height();
    if fp >= height || word >= height - fp || block.len() >= 1 << 62 {
        return None;
    }
    Some(stack.word(fp + word))
}

/// Pushes the address of a word of the frame.
#[inline(always)]
pub fn push_local(block: &[i64], stack: &mut Stack, fp: usize, word: u16) -> Answer
    ensures { LeavesStack result stack.old stack.new (Effects.stack_effect stack.old.reserve fp (Instr.Local word) block.now stack.old.words) }
{
    match local_address(block.len(), fp, word) {
        Some(address) => push(stack, address),
        None => Answer::Stuck,
    }
}

/// Pushes zeros.
#[inline(always)]
fn clear(stack: &mut Stack, count: usize) -> Answer
    ensures { LeavesStack result stack.old stack.new (Effects.cleared stack.old.reserve count stack.old.words) }
{
    if stack.room() < count {
        return Answer::Stuck;
    }
    stack.push_zeros(count);
    Answer::Done
}

/// Replaces the word on top by what an instruction makes of it.
#[inline(always)]
pub fn of_one(stack: &mut Stack, instr: Instr) -> Answer
    ensures { LeavesStack result stack.old stack.new (Effects.of_one (Words.made_of_one instr) stack.old.words) }
{
    let Some(x) = stack.top() else {
        return Answer::Stuck;
    };
    match made_of_one(instr, x) {
        Made::Word(word) => {
            stack.replace_top(word);
            Answer::Done
        }
        Made::Trap(number) => Answer::Trap(number),
        Made::Stuck => Answer::Stuck,
    }
}

/// Replaces the two words on top by what an instruction makes of them.
#[inline(always)]
pub fn of_two(stack: &mut Stack, instr: Instr) -> Answer
    ensures { LeavesStack result stack.old stack.new (Effects.of_two (Words.made_of_two instr) stack.old.words) }
{
    let Some((x, y)) = stack.two() else {
        return Answer::Stuck;
    };
    match made_of_two(instr, x, y) {
        Made::Word(word) => {
            stack.replace_two(word);
            Answer::Done
        }
        Made::Trap(number) => Answer::Trap(number),
        Made::Stuck => Answer::Stuck,
    }
}

/// The word at an address, on a stack that ends at a height.
#[inline(always)]
pub fn word_at(block: &[i64], stack: &Stack, height: usize, address: i64) -> Option<i64>
    requires { height ≤ length stack.now.words }
    ensures { IsMade result (Effects.word_at block.now (take height stack.now.words) address) }
{
    if address < 0 {
        return None;
    }
    let place = address as usize;
    if place < block.len() {
        return Some(block[place]);
    }
    let above = place - block.len();
    if above < height {
        return Some(stack.word(above));
    }
    None
}

/// Replaces the address on top by the word there.
#[inline(always)]
pub fn load(block: &[i64], stack: &mut Stack) -> Answer
    ensures { LeavesStack result stack.old stack.new (Effects.loaded block.now stack.old.words) }
{
    let Some(address) = stack.top() else {
        return Answer::Stuck;
    };
    let below = stack.height() - 1;
    match word_at(block, stack, below, address) {
        Some(word) => {
            stack.replace_top(word);
            Answer::Done
        }
        None => Answer::Stuck,
    }
}

/// Puts a word at an address, on a stack that is cut at a height; nothing where there is no such
/// address.
#[inline(always)]
pub fn put_at(block: &mut [i64], stack: &mut Stack, height: usize, address: i64, word: i64) -> bool
    requires { height ≤ length stack.old.words }
    ensures { LeavesBoth result block.old block.new stack.old stack.new (Effects.put_at block.old (take height stack.old.words) address word) }
{
    if address < 0 {
        return false;
    }
    let place = address as usize;
    if place < block.len() {
        block[place] = word;
        stack.truncate(height);
        return true;
    }
    let above = place - block.len();
    if above < height {
        stack.truncate(height);
        stack.set(above, word);
        return true;
    }
    false
}

/// Puts the word on top at the address below it.
#[inline(always)]
pub fn store(block: &mut [i64], stack: &mut Stack) -> Answer
    ensures { HasEffect result block.old block.new stack.old stack.new (Effects.stored block.old stack.old.words) }
{
    let Some((address, word)) = stack.two() else {
        return Answer::Stuck;
    };
    let below = stack.height() - 2;
    if put_at(block, stack, below, address, word) {
        Answer::Done
    } else {
        Answer::Stuck
    }
}

/// What an instruction does that leaves the block as it is.
#[inline(always)]
fn stack_effect(instr: Instr, fp: usize, block: &[i64], stack: &mut Stack) -> Answer
    ensures { LeavesStack result stack.old stack.new (Effects.stack_effect stack.old.reserve fp instr block.now stack.old.words) }
{
    match instr {
        Instr::Literal { value } => push(stack, i64::from(value)),
        Instr::Global { word } => push(stack, i64::from(word)),
        Instr::Local { word } => push_local(block, stack, fp, word),
        Instr::Get => load(block, stack),
        Instr::Field { .. } => of_one(stack, instr),
        Instr::Negate => of_one(stack, Instr::Negate),
        Instr::Not => of_one(stack, Instr::Not),
        Instr::Index { .. } => of_two(stack, instr),
        Instr::Add => of_two(stack, Instr::Add),
        Instr::Subtract => of_two(stack, Instr::Subtract),
        Instr::Multiply => of_two(stack, Instr::Multiply),
        Instr::Divide => of_two(stack, Instr::Divide),
        Instr::Modulo => of_two(stack, Instr::Modulo),
        Instr::Equal => of_two(stack, Instr::Equal),
        Instr::NotEqual => of_two(stack, Instr::NotEqual),
        Instr::Less => of_two(stack, Instr::Less),
        Instr::LessOrEqual => of_two(stack, Instr::LessOrEqual),
        Instr::Greater => of_two(stack, Instr::Greater),
        Instr::GreaterOrEqual => of_two(stack, Instr::GreaterOrEqual),
        Instr::Frame { words } => clear(stack, usize::from(words)),
        _ => Answer::Stuck,
    }
}

/// What an instruction without a jump does to the block and the stack. It stands within its callers, which look at the instruction too.
#[inline(always)]
pub fn effect(instr: Instr, fp: usize, block: &mut [i64], stack: &mut Stack) -> Answer
    ensures { HasEffect result block.old block.new stack.old stack.new (Effects.effect stack.old.reserve fp instr block.old stack.old.words) }
{
    match instr {
        Instr::Put => store(block, stack),
        _ => stack_effect(instr, fp, block, stack),
    }
}
