//! Laws of records. What a function here ensures is proved; it does nothing.

ghost use Rattle.ob_object_calls.specs.RunRecords.{LegalRunsAreVerified};

/// A record of a run whose order is legal is verified, so `verify_text` answers Ok or want of memory of it.
pub fn legal_runs_are_verified()
    ensures { LegalRunsAreVerified }
{}
