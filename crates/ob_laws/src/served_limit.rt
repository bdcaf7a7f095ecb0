//! A law of the records of workers. What a function here ensures is proved; it does nothing.

ghost use Rattle.ob_laws.specs.ServedLimit.{ServedKeepTotal};

use ob_code_engine::engine_laws::engines_keep_total;

/// A law: no call of a record that workers printed has taken, at any moment, more own steps than the promised number. Which
/// thread came when makes no difference.
pub fn served_records_keep_total()
    ensures { ServedKeepTotal }
{
    engines_keep_total();
}
