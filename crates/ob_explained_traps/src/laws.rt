//! What holds of the lines of calls. What a function here ensures is proved; it does nothing.

ghost use Rattle.std.specs.Prelude.{ℕ, List};
ghost use Rattle.ob_explained_traps.specs.CallLines.{EachCallHasALine};
ghost use Rattle.ob_interface.specs.Export.{Signature};

/// Each call of a script has a line.
pub fn each_call_has_a_line()
    ensures { (signatures : List Signature) (processes : ℕ) → EachCallHasALine signatures processes }
{}
