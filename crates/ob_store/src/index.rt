//! Indexes of arrays.

ghost use Rattle.std.specs.Prelude.{◌≡◌};
ghost use Rattle.ob_meaning.specs.OverStore.{within};
ghost use Rattle.ob_checked.specs.Traps.{evaluated};

use ob_checked::trap::Trap;

/// An index that is within an array of this length.
pub fn index_within(length: usize, index: i32) -> Result<usize, Trap>
    ensures { evaluated result ≡ within length index }
{
    if index < 0 {
        return Err(Trap::OutsideArray);
    }
    let position = index as usize;
    if position < length {
        Ok(position)
    } else {
        Err(Trap::OutsideArray)
    }
}
