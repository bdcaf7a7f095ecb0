//! Laws of the engine over compiled code. What a function here ensures is proved; it does nothing.

ghost use Rattle.ob_interface.specs.Call.{ObjectCall};
ghost use Rattle.ob_typing.specs.Program.{Program};
ghost use Rattle.ob_code_correct.specs.Carried.{StatesCarryLegal, WordsAreRead, WordsCarryLegal};
ghost use Rattle.ob_code_correct.specs.Named.{PositionsCarryLegal};
ghost use Rattle.ob_code_correct.specs.Parts.{EffectIsOfEach, PartsAreLawful, PartsAreRead};
ghost use Rattle.ob_code_correct.specs.EngineLaw.{BodiesEnd, CalledIsEffect, CodeIsLawful, DecodedIsLawful, EffectIsCalled, EffectIsTotal};
ghost use Rattle.ob_code_correct.specs.EngineLaw.{FittingIsOfSignatures, LawfulIsDecoded, OpeningsAreLawful, ScriptsEnd};

/// The engine over the code of each well-formed program is lawful, with every budget: it is never stuck on lawful blocks.
pub fn code_is_lawful()
    ensures { CodeIsLawful }
{}

/// The calls that fit it are those that fit the signatures of the exports, with arguments in range.
pub fn calls_fit()
    ensures { (program : Program) (call : ObjectCall) → FittingIsOfSignatures program call }
{}

/// An opening that is done leaves a state, and its words are a lawful block.
pub fn openings_are_lawful()
    ensures { OpeningsAreLawful }
{}

/// A block is lawful exactly where it is read as a state of the program's variables.
pub fn lawful_is_decoded()
    ensures read { DecodedIsLawful }
    ensures lawful { LawfulIsDecoded }
{}

/// A call's effect on a block is one block and one reply: what the call comes to on the state that the block encodes.
pub fn effect_is_total()
    ensures one { EffectIsTotal }
    ensures is_called { EffectIsCalled }
    ensures is_effect { CalledIsEffect }
{}

/// A body is over after as many instructions as the code has, for each turn of the budget and one time more.
pub fn bodies_end()
    ensures bodies { BodiesEnd }
    ensures scripts { ScriptsEnd }
{}

/// An order that is legal by the words of blocks is legal by states, and the other way round; and one that is legal by states by position
/// is legal by what the calls mean by name.
pub fn orders_are_carried()
    ensures from_words { WordsCarryLegal }
    ensures from_states { StatesCarryLegal }
    ensures read { WordsAreRead }
    ensures by_name { PositionsCarryLegal }
{}

/// Lawful too is the engine over the parts of any program that is not at hand; its effect is the call of each program with these parts,
/// and an order that is legal by it is legal by these calls.
pub fn parts_are_lawful()
    ensures lawful { PartsAreLawful }
    ensures each { EffectIsOfEach }
    ensures read { PartsAreRead }
{}
