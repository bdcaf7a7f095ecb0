//! What a step answers.

ghost use Rattle.std.specs.Prelude.{◌≡◌};
ghost use Rattle.ob_code_correct.specs.CodeMeaning as Words;

use ob_code_machine::BodyTurn;
use wf_object::EngineTurn;

/// What a body's step answers, as an engine's.
#[inline(always)]
pub fn turn_of(turn: BodyTurn) -> EngineTurn
    ensures { result ≡ Words.turn_of turn }
{
    match turn {
        BodyTurn::On => EngineTurn::On,
        BodyTurn::Returned => EngineTurn::Returned,
        BodyTurn::Trapped(number) => EngineTurn::Trapped(number),
        BodyTurn::Stuck => EngineTurn::Stuck,
    }
}
