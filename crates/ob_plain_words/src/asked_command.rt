//! The command that words ask for.

ghost use Rattle.std.specs.Prelude.{map};
ghost use Rattle.ob_command.specs.CommandLine.{request};
ghost use Rattle.ob_command.specs.Commands.{IsMistakeOf, IsReading};

use crate::plain_forms::plain_command;
use ob_command::command::{Command, Stop, read_command};
use std::alloc::Global;

/// The command that the words behind the program's name ask for.
pub fn asked_command<'a>(alloc: Global, words: &'a [&'a str]) -> Result<Command<'a>, Stop>
    ensures reading { IsReading (request (map (λ word. word.now) words.entry.now)) result }
    ensures mistake { IsMistakeOf (map (λ word. word.now) words.entry.now) result }
{
    match plain_command(words) {
        Some(command) => Ok(command),
        None => read_command(alloc, words),
    }
}
