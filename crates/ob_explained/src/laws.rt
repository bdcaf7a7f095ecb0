//! Laws of the lines of values. What a function here ensures is proved; it does nothing.

ghost use Rattle.ob_explained.specs.ValueLines.{EachValueHasItsLine};

/// Each value that a record's text tells stands in the line that is counted for it.
#[tactic(auto, using(crate::proofs::ShownLines::each_value_has_its_line))]
pub fn each_value_has_its_line()
    ensures { EachValueHasItsLine }
{}
