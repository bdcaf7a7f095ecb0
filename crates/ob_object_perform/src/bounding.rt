//! The numbers of the object of a module's text, from bytes to bytes.

ghost use Rattle.std.specs.Prelude.{◌≡◌, ◌++◌, Err, IfOk, IfErr, OnOk, string_bytes};
ghost use Rattle.ob_object_perform.specs.Numbers.{IsBoundText, number_line, numbers_text};
ghost use Rattle.ob_object_compile.specs.Asked.{TellsAtOnce, by_body};
ghost use Rattle.ob_object_compile.specs.Compilation.{IsRefusal, IsShort};

use crate::object_numbers::{Numbers, numbers_of};
use ob_interface::NoMemory;
use ob_object_compile::{CompileFault, compile};
use ob_text_words::numbers::push_number;
use std::alloc::{AllocError, Global};

/// The lines of the numbers of the object of a module's text, for n processes whose calls have so many turns each.
pub fn bound_text(
    alloc: Global,
    module: &[u8],
    n: usize,
    budget: u64,
) -> Result<String, CompileFault>
    ensures numbers { IfOk result (λ lines. IsBoundText «module».now n budget (string_bytes lines)) }
    ensures refused { IfErr result (IsRefusal IsShort (by_body «module».now n budget)) }
    ensures at_once { TellsAtOnce (by_body «module».now n budget) (λ e. result ≡ Err e) }
{
    let object = compile(alloc, module, n, budget)?;
    Ok(numbers_text(alloc, numbers_of(&object))?)
}

/// The lines of numbers.
fn numbers_text(alloc: Global, numbers: Numbers) -> Result<String, NoMemory>
    ensures { IfOk result (λ lines. string_bytes lines ≡ numbers_text numbers) }
{
    let mut lines = String::new(alloc);
    push_line(&mut lines, "variables", numbers.variables as u128)?;
    push_line(&mut lines, "results", numbers.results as u128)?;
    push_line(&mut lines, "arguments", numbers.arguments as u128)?;
    push_line(&mut lines, "block", numbers.block as u128)?;
    push_line(&mut lines, "code", numbers.code as u128)?;
    push_line(&mut lines, "stack", numbers.stack as u128)?;
    push_line(&mut lines, "steps outside bodies", numbers.outside)?;
    push_line(&mut lines, "steps", numbers.steps)?;
    Ok(lines)
}

/// Appends the line of a number.
fn push_line(lines: &mut String, name: &str, number: u128) -> Result<(), AllocError>
    ensures { OnOk result (string_bytes lines.new ≡ string_bytes lines.old ++ number_line name.now number) }
{
    lines.push_str(name)?;
    lines.push_str(" ")?;
    push_number(lines, number)?;
    lines.push_str("\n")
}
