//! Laws of records and remarks. What a function here ensures is proved; it does nothing.

ghost use Rattle.std.specs.Prelude.{◌≡◌, ℕ, List};
ghost use Rattle.ob_text_reading.specs.RecordLines.{IsRecord, IsRecordOf, Told, record_lines};
ghost use Rattle.ob_text_values_reading.specs.Comments.{said};
ghost use Rattle.ob_typing.specs.Program.{Program};

/// A record with remarks tells what it tells without them, wherever they stand.
#[tactic(auto, using(crate::proofs::NoComments::remarks_tell_nothing))]
pub fn remarks_tell_nothing()
    ensures { (program : Program) (text other : List ℕ) (t : Told) →
        said (record_lines text) ≡ said (record_lines other) → IsRecord program text t → IsRecord program other t }
{}

/// A text whose lines are those of a record has no remarks, so it is read as it stands.
#[tactic(auto, using(crate::proofs::NoComments::lines_are_read))]
pub fn lines_of_records_are_read()
    ensures { (program : Program) (text : List ℕ) (t : Told) → IsRecordOf program (record_lines text) t → IsRecord program text t }
{}
