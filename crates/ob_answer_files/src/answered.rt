//! What the program answers.

ghost use Rattle.std.specs.Prelude.{◌++◌, IfOk, codes, string_bytes};
ghost use Rattle.ob_answer_files.specs.Printed.{IsRefused};

use std::alloc::{AllocError, Global};

/// What goes to the two outputs, and the exit status.
#[derive(Drop)]
pub struct Answer {
    /// The exit status: 0 where it did what was asked, 1 at a fault of the module or the script, 2 at
    /// a fault of the words, 3 where a file can't be read.
    pub status: u8,
    /// What goes to standard output.
    pub out: String,
    /// What goes to standard error.
    pub err: String,
}

impl Answer {
    ghost use Rattle.std.specs.Prelude.{string_bytes};
    ghost use Rattle.ob_answer_files.specs.Printed.{IsPrinted, IsPrintedBeside, IsRefused};

    /// What was asked for.
    pub fn printed(alloc: Global, out: String) -> Answer
        ensures { IsPrinted result (string_bytes out) }
    {
        Answer::printed_beside(out, String::new(alloc))
    }

    /// What was asked for, and what is told beside it.
    pub fn printed_beside(out: String, err: String) -> Answer
        ensures { IsPrintedBeside result (string_bytes out) (string_bytes err) }
    {
        Answer {
            status: 0,
            out,
            err,
        }
    }

    /// What is wrong.
    pub fn refused(alloc: Global, status: u8, err: String) -> Answer
        ensures { IsRefused result status (string_bytes err) }
    {
        Answer {
            status,
            out: String::new(alloc),
            err,
        }
    }
}

/// The answer of a fault's line.
pub fn refused(alloc: Global, mut line: String) -> Result<Answer, AllocError>
    ensures { IfOk result (λ a. IsRefused a 1 (string_bytes line ++ codes "\n")) }
{
    line.push_str("\n")?;
    Ok(Answer::refused(alloc, 1, line))
}
