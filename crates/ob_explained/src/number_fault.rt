//! What is said of a number of the command line that may not be, and of a module that is too long, which have no place in a text.

ghost use Rattle.std.specs.Prelude.{◌≡◌, IfOk, string_bytes};
ghost use Rattle.ob_explained.specs.NumberFaults.{budget_explanation, long_code_explanation, long_text_explanation, processes_explanation};

use ob_text_words::numbers::push_number;
use std::alloc::{AllocError, Global};

/// Of a number of processes that is not 1 to 16.
pub fn processes_explanation(alloc: Global, processes: usize) -> Result<String, AllocError>
    ensures { IfOk result (λ shown. string_bytes shown ≡ processes_explanation processes) }
{
    let mut shown = String::from_str(alloc, "N1\nthe number of processes, behind -n, is ")?;
    push_number(&mut shown, processes)?;
    shown.push_str("; it may be 1 to 16\n")?;
    Ok(shown)
}

/// Of a budget of more turns than a call may have.
pub fn budget_explanation(alloc: Global, budget: u64) -> Result<String, AllocError>
    ensures { IfOk result (λ shown. string_bytes shown ≡ budget_explanation budget) }
{
    let mut shown = String::from_str(alloc, "N3\nthe budget of turns, behind -b, is ")?;
    push_number(&mut shown, budget)?;
    shown.push_str("; it may be 0 to 1000000\n")?;
    Ok(shown)
}

/// Of a module of more bytes than one may have.
pub fn long_text_explanation(alloc: Global) -> Result<String, AllocError>
    ensures { IfOk result (λ shown. string_bytes shown ≡ long_text_explanation) }
{
    String::from_str(alloc, "S5 at 65536\na module has at most 65536 bytes\n")
}

/// Of a module whose code would have more instructions than it may.
pub fn long_code_explanation(alloc: Global) -> Result<String, AllocError>
    ensures { IfOk result (λ shown. string_bytes shown ≡ long_code_explanation) }
{
    String::from_str(
        alloc,
        "G1\nthe code of the module's procedures would have over 65535 instructions; run --tree runs it without code\n",
    )
}
