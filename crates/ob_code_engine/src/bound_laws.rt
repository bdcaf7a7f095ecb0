//! Laws of runs over compiled code. What a function here ensures is proved; it does nothing.

ghost use Rattle.ob_code_engine.specs.Bound.{CallsKeepTotal};

/// No call takes more own steps than the bound and, in each of at most two bodies for each process, what its budget pays for.
pub fn calls_keep_total()
    ensures { CallsKeepTotal }
{}
