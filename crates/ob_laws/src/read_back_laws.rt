//! Laws of written records. What a function here ensures is proved; it does nothing.

ghost use Rattle.ob_checked.specs.CheckedModule.{program_in};
ghost use Rattle.ob_text_record.specs.Record.{record_of};
ghost use Rattle.ob_laws.specs.Writable.{IsReadBack, IsWritable, LegalIsVerified, ModulesAreRead, WellTypedIsRead};

use ob_checked::checked::Checked;
use ob_text_record::Record;

/// The text of a writable record of a well typed module is a record of that module, which tells what was written: the number of
/// processes, the budget, the values carried over where there are such, the Begin and End events and the order.
pub fn well_typed_is_read()
    ensures { WellTypedIsRead }
{}

/// So is that of a writable record of the module that a text stands for.
pub fn modules_are_read()
    ensures { ModulesAreRead }
{}

/// So is that of a writable record of a checked module, which `write_record` writes.
pub fn checked_is_read(checked: &Checked, record: &Record)
    requires { IsWritable (program_in checked.now) (record_of «record».now) }
    ensures { ∥ IsReadBack (program_in checked.now) (record_of «record».now) ∥₁ }
{
    well_typed_is_read();
    let _typed = checked.program();
    let _tree = checked.module().tree();
    let _record = record;
}

/// The text of a writable record of a module, whose order is a legal order of its history from the state with which its calls begin,
/// is verified, so `verify_text` answers Ok or want of memory of it.
pub fn legal_is_verified()
    ensures { LegalIsVerified }
{}
