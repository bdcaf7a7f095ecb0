//! Laws of the records of histories. What a function here ensures is proved; it does nothing.

ghost use Rattle.ob_laws.specs.FoundRecords.{FoundIsVerified, FoundIsWritable};

use crate::read_back_laws::legal_is_verified;
use ob_code_correct::kept_laws::openings_are_states;
use ob_code_correct::well_formed_laws::modules_are_well_formed;

/// The record of a history with a legal order that was found is writable: its text tells what it holds.
pub fn found_is_writable()
    ensures { FoundIsWritable }
{
    modules_are_well_formed();
    openings_are_states();
}

/// So what `record_of_text` writes of a history is verified by the text of the module: `verify_text` answers Ok or want of memory of it.
pub fn found_is_verified()
    ensures { FoundIsVerified }
{
    found_is_writable();
    legal_is_verified();
}
