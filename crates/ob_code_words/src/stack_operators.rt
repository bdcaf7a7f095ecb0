//! What instructions make of the words on top of the stack.

ghost use Rattle.std.specs.Prelude.{◌≡◌, ℤ, FitsSigned};
ghost use Rattle.std.specs.Option.{SomeIff};
ghost use Rattle.std.specs.Int.{w64};
ghost use Rattle.ob_code_words.specs.declared.instr.Instr.{Instr};
ghost use Rattle.ob_code_words.specs.Words as Words;
ghost use Rattle.ob_code_words.specs.WordsInCode.{made_in};

use crate::instr::Instr;

/// What is made of words: another one, a trap of this number, or nothing.
#[derive(Clone, Copy)]
pub enum Made {
    Word(i64),
    Trap(u8),
    Stuck,
}

/// The trap of an INTEGER result out of range.
const OUT_OF_RANGE: Made = Made::Trap(1);
/// The trap of an index out of range.
const NO_ELEMENT: Made = Made::Trap(2);
/// The trap of a divisor that is not above 0.
const BAD_DIVISOR: Made = Made::Trap(3);

/// The result of arithmetic, where an i64 holds it, tested as an INTEGER.
fn integer(exact: Option<i64>) -> Made
    ensures { (z : ℤ) → SomeIff exact (FitsSigned w64 z) z → made_in result ≡ Words.integer z }
{
    match exact {
        Some(z) if i64::from(i32::MIN) <= z && z <= i64::from(i32::MAX) => Made::Word(z),
        _ => OUT_OF_RANGE,
    }
}

/// An address, where an i64 holds it.
fn address(exact: Option<i64>) -> Made
    ensures { (z : ℤ) → SomeIff exact (FitsSigned w64 z) z → made_in result ≡ Words.address z }
{
    match exact {
        Some(z) => Made::Word(z),
        None => Made::Stuck,
    }
}

/// TRUE as 1 and FALSE as 0.
fn truth(value: bool) -> Made
    ensures { made_in result ≡ Words.Gives (Words.truth value) }
{
    Made::Word(i64::from(value))
}

/// Of a truth value the other one.
fn other_truth(x: i64) -> Made
    ensures { made_in result ≡ Words.other_truth x }
{
    if x == 0 {
        Made::Word(1)
    } else if x == 1 {
        Made::Word(0)
    } else {
        Made::Stuck
    }
}

/// The address of an element of the array at `first`.
fn element_address(first: i64, index: i64, length: u16, element_words: u16) -> Made
    ensures { made_in result ≡ Words.made_of_two (Instr.Index length element_words) first index }
{
    if index < 0 || i64::from(length) <= index {
        return NO_ELEMENT;
    }
    address(first.checked_add(index * i64::from(element_words)))
}

fn quotient(x: i64, y: i64) -> Made
    ensures { made_in result ≡ Words.made_of_two Instr.Divide x y }
{
    if y <= 0 {
        return BAD_DIVISOR;
    }
    Made::Word(x.div_euclid(y))
}

fn rest(x: i64, y: i64) -> Made
    ensures { made_in result ≡ Words.made_of_two Instr.Modulo x y }
{
    if y <= 0 {
        return BAD_DIVISOR;
    }
    Made::Word(x.rem_euclid(y))
}

/// What an instruction makes of x, the word on top.
#[inline(always)]
pub fn made_of_one(instr: Instr, x: i64) -> Made
    ensures { made_in result ≡ Words.made_of_one instr x }
{
    match instr {
        Instr::Field { offset } => address(x.checked_add(i64::from(offset))),
        Instr::Negate => integer(x.checked_neg()),
        Instr::Not => other_truth(x),
        _ => Made::Stuck,
    }
}

/// What an instruction makes of x and y, the two words on top, y above x.
#[inline(always)]
pub fn made_of_two(instr: Instr, x: i64, y: i64) -> Made
    ensures { made_in result ≡ Words.made_of_two instr x y }
{
    match instr {
        Instr::Index {
            length,
            element_words,
        } => element_address(x, y, length, element_words),
        Instr::Add => integer(x.checked_add(y)),
        Instr::Subtract => integer(x.checked_sub(y)),
        Instr::Multiply => integer(x.checked_mul(y)),
        Instr::Divide => quotient(x, y),
        Instr::Modulo => rest(x, y),
        Instr::Equal => truth(x == y),
        Instr::NotEqual => truth(x != y),
        Instr::Less => truth(x < y),
        Instr::LessOrEqual => truth(x <= y),
        Instr::Greater => truth(x > y),
        Instr::GreaterOrEqual => truth(x >= y),
        _ => Made::Stuck,
    }
}
