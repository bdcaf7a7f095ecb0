//! Laws of the texts of values. What a function here ensures is proved; it does nothing.

ghost use Rattle.std.specs.Prelude.{◌≡◌};
ghost use Rattle.ob_meaning.specs.ByNameValue.{Value};
ghost use Rattle.ob_text_values_reading.specs.ValueTexts.{IsValueText};
ghost use Rattle.ob_text_words.specs.Words.{Word};

/// A text says one value at most.
#[tactic(auto, using(crate::proofs::OneValue::one_value_of))]
pub fn texts_say_one_value()
    ensures { (text : Word) (v w : Value) → IsValueText text v → IsValueText text w → v ≡ w }
{}
