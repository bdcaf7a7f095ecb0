//! Laws of engines over code. What a function here ensures is proved; it does nothing.

ghost use Rattle.ob_code_engine.specs.Effects.{EffectsAreTotal};
ghost use Rattle.ob_code_engine.specs.Total.{EnginesKeepTotal};

use crate::bound_laws::calls_keep_total;

/// A call that fits leads from a lawful block to one block, with one reply.
pub fn effects_are_total()
    ensures { EffectsAreTotal }
{}

/// No call over an engine takes more own steps than the bound and, in each of at most two bodies for each process, what its
/// budget pays for.
pub fn engines_keep_total()
    ensures { EnginesKeepTotal }
{
    calls_keep_total();
}
