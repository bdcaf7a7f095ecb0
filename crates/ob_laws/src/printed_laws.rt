//! Laws of what is printed: of values, and of the records of runs from texts. What a function here ensures is proved; it does nothing.

ghost use Rattle.ob_meaning.specs.ByNameValue.{Value};
ghost use Rattle.ob_text_record.specs.Named.{named_text};
ghost use Rattle.ob_text_values_reading.specs.Printed.{IsPrintable};
ghost use Rattle.ob_text_values_reading.specs.ValueTexts.{IsValueText};
ghost use Rattle.ob_object_compile.specs.Compilation.{IsAny, IsShort};
ghost use Rattle.ob_laws.specs.Printed.{PerformedIsWritable, PrintedIsVerified, ServedIsVerified, ServedIsWritable};

use crate::read_back_laws::legal_is_verified;
use ob_code_correct::laws::orders_are_carried;
use ob_code_engine::CodeEngine;
use ob_object_compile::laws::compilations_are_sound;
use ob_object_run::laws::states_are_objects;
use wf_theorems::runs::every_run;
use wf_theorems::standing::legal_order;

/// The record of a run from texts is writable, over code and over the tree, and so is the record of workers, however the object begins:
/// its text tells what it holds.
pub fn performed_is_writable()
    ensures coded { PerformedIsWritable IsShort }
    ensures trees { PerformedIsWritable IsAny }
    ensures served { ServedIsWritable }
{
    every_run::<CodeEngine>();
    legal_order::<CodeEngine>();
    orders_are_carried();
    states_are_objects();
    compilations_are_sound();
}

/// So what is printed of a run, over code or over the tree, and also of an object that began with values carried over, is verified by
/// the text of the module: `verify_text` answers Ok or want of memory of it.
pub fn printed_is_verified()
    ensures coded { PrintedIsVerified IsShort }
    ensures trees { PrintedIsVerified IsAny }
{
    performed_is_writable();
    legal_is_verified();
}

/// And so is what is printed of workers, whichever of them came when.
pub fn served_is_verified()
    ensures { ServedIsVerified }
{
    performed_is_writable();
    legal_is_verified();
}

/// What is printed of a value says it, and so it is read back, where it is no deeper than a value of a type.
#[tactic(auto, using(crate::proofs::PrintedValues::printed))]
pub fn printed_values_are_said()
    ensures { (v : Value) → IsPrintable v → IsValueText (named_text v) v }
{}
