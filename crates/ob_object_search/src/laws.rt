//! What holds of orders that are found, as functions that do nothing: their contracts are the laws.

ghost use Rattle.ob_object_search.specs.Agreeing.{FoundOrdersAreVerified};

/// A record that tells what a history tells, with a legal order of it as its order, is verified.
pub fn found_orders_are_verified()
    ensures { FoundOrdersAreVerified }
{}
