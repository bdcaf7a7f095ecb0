//! What lies on the stack when a call from outside begins.

ghost use Rattle.std.specs.Prelude.{◌≡◌, ◌+◌, ◌^◌, ◌<◌, ◌≤◌, [], ◌∷◌, ◌++◌, length};
ghost use Rattle.ob_code_machine.specs.Body as Body;
ghost use Rattle.ob_code_machine.specs.Parameters as Parameters;
ghost use Rattle.ob_code_words.specs.StackWords.{with_words};

use crate::argument::Argument;
use ob_code_words::stack::Stack;
use ob_interface::export::Formal;

/// The results of one parameter: one where it is VAR.
fn results_of(argument: Argument) -> usize
    ensures value { result ≡ Body.result_count (argument ∷ []) }
    ensures small { result ≤ 1 }
{
    match argument {
        Argument::Value(_) => 0,
        Argument::Var => 1,
    }
}

/// How many of the parameters are VAR.
pub fn result_count(arguments: &[Argument]) -> usize
    ensures value { result ≡ Body.result_count arguments.now }
    ensures within { result ≤ length arguments.now }
{
    let mut count = 0;
    for argument in arguments {
        count += results_of(*argument);
    }
    count
}

/// Pushes the word of a parameter behind so many VAR parameters.
fn push_argument(stack: &mut Stack, variables: u32, before: usize, argument: Argument)
    requires room { length stack.old.words < stack.old.reserve }
    requires small { before < 2 ^ 32 }
    ensures { stack.new ≡ with_words stack.old (stack.old.words ++ Body.handed variables before (argument ∷ [])) }
{
    match argument {
        Argument::Value(word) => stack.push(word),
        Argument::Var => stack.push(i64::from(variables) + before as i64),
    }
}

/// Pushes the first words of the first frame.
pub fn push_arguments(stack: &mut Stack, variables: u32, arguments: &[Argument])
    requires room { length stack.old.words + length arguments.now ≤ stack.old.reserve }
    requires small { stack.old.reserve < 2 ^ 32 }
    ensures { stack.new ≡ with_words stack.old (stack.old.words ++ Body.handed variables 0 arguments.now) }
{
    let mut before = 0;
    for argument in arguments {
        push_argument(stack, variables, before, *argument);
        before += results_of(*argument);
    }
}

/// The first word and the words behind it; 0 where there is none.
fn split(words: &[i64]) -> (i64, &[i64])
    ensures first { result.0 ≡ Parameters.first_word words.now }
    ensures others { result.1.now ≡ Parameters.other_words words.now }
{
    match words.split_first() {
        Some((word, others)) => (*word, others),
        None => (0, words),
    }
}

/// How many of the parameters are VAR.
pub fn var_count(parameters: &[Formal]) -> usize
    ensures value { result ≡ Parameters.var_count parameters.now }
    ensures within { result ≤ length parameters.now }
{
    let mut count = 0;
    for parameter in parameters {
        if parameter.is_var {
            count += 1;
        }
    }
    count
}

/// Pushes the first words of the first frame, as words hand them over.
pub fn push_parameters(stack: &mut Stack, variables: u32, parameters: &[Formal], words: &[i64])
    requires room { length stack.old.words + length parameters.now ≤ stack.old.reserve }
    requires small { stack.old.reserve < 2 ^ 32 }
    ensures { stack.new ≡ with_words stack.old (stack.old.words ++ Body.handed variables 0 (Parameters.arguments_in parameters.now words.now)) }
{
    let mut before: usize = 0;
    let mut rest = words;
    for parameter in parameters {
        if parameter.is_var {
            stack.push(i64::from(variables) + before as i64);
            before += 1;
        } else {
            let (word, others) = split(rest);
            stack.push(word);
            rest = others;
        }
    }
}
