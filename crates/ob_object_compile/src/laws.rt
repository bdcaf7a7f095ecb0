//! Laws of objects. What a function here ensures is proved; it does nothing.

ghost use Rattle.ob_object_compile.specs.Compilation.{IsAny, IsShort};
ghost use Rattle.ob_object_compile.specs.Sound.{ObjectsAreSound};

use ob_code_correct::kept_laws::openings_are_states;
use ob_code_correct::well_formed_laws::modules_are_well_formed;
use ob_meaning::agreement_laws::well_typed_is_resolved;

/// What is asked for is sound, with code and without.
pub fn compilations_are_sound()
    ensures coded { ObjectsAreSound IsShort }
    ensures trees { ObjectsAreSound IsAny }
{
    modules_are_well_formed();
    well_typed_is_resolved();
    openings_are_states();
}
