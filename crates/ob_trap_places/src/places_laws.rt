//! What holds of the places of sites, as functions that do nothing: their contracts are the laws.

ghost use Rattle.ob_trap_places.specs.PlacesLaws.{TrappedCallsHavePlaces, TrappedOpeningsHavePlaces};

/// Where a call on the object of a well typed module traps, or its opening, the site has a place in the text.
pub fn sites_have_places()
    ensures call { TrappedCallsHavePlaces }
    ensures opening { TrappedOpeningsHavePlaces }
{}
