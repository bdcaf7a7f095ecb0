//! Words that are no values of the types that are wanted.

ghost use Rattle.std.specs.Prelude.{◌≡◌, ◌<◌, Some, false, length, map, slice_get, true};
ghost use Rattle.ob_explain_arguments.specs.Misfits.{FitsAt, MisfitsAt, TellsMisfit};
ghost use Rattle.ob_interface.specs.declared.scalar.ScalarType.{ScalarType};

use ob_interface::scalar::ScalarType;
use ob_text_words::parameter_words::read_value;

/// What doesn't fit of words for values.
#[derive(Clone, Copy)]
pub enum Misfit {
    /// There are more or fewer words than values.
    Count,
    /// The word of this number, counted from 0, says no value of this type.
    Value(usize, ScalarType),
}

/// What doesn't fit of words for values of these types; `None` where each says one of its type.
#[tactic(auto, using(crate::proofs::Fits::none_yet, crate::proofs::Fits::other_count, crate::proofs::Fits::one_more, crate::proofs::Fits::up_to_all))]
pub fn first_misfit(types: &[ScalarType], words: &[&[u8]]) -> Option<Misfit>
    ensures { TellsMisfit types.now (map (λ w. w.now) words.now) result }
{
    if words.len() != types.len() {
        return Some(Misfit::Count);
    }
    for number in 0..words.len() {
        if !fits_at(types, words, number) {
            return Some(Misfit::Value(number, types[number]));
        }
    }
    None
}

/// Whether the word of a number says a value of the type of this number.
#[tactic(auto, using(crate::proofs::Fits::fits_here))]
fn fits_at(types: &[ScalarType], words: &[&[u8]], number: usize) -> bool
    requires typed { number < length types.now }
    requires said { number < length words.now }
    ensures fits { result ≡ true → FitsAt types.now (map (λ w. w.now) words.now) number }
    ensures misfits { result ≡ false → (wanted : ScalarType) → slice_get types.now number ≡ Some wanted → MisfitsAt types.now (map (λ w. w.now) words.now) number wanted }
{
    matches!(read_value(types[number], words[number]), Some(_))
}
