//! Laws of values that words say. What a function here ensures is proved; it does nothing.

ghost use Rattle.std.specs.Prelude.{◌≡◌, List};
ghost use Rattle.ob_interface.specs.declared.scalar.Scalar.{Scalar};
ghost use Rattle.ob_interface.specs.declared.scalar.ScalarType.{ScalarType};
ghost use Rattle.ob_text_words.specs.Values.{AreValues};
ghost use Rattle.ob_text_words.specs.Words.{Word};

/// Words say one list of values of some types at most.
#[tactic(auto, using(crate::proofs::OneList::one_list))]
pub fn words_say_one_list()
    ensures { (types : List ScalarType) (ws : List Word) (values others : List Scalar)
        → AreValues types ws values → AreValues types ws others → values ≡ others }
{}
