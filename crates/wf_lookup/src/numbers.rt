//! Numbers of scalars and of words, by which rows are found. Nothing is promised of them: a bad row costs time alone.

use ob_interface::scalar::Scalar;

/// An odd number that spreads a number over its upper bits.
pub const SPREAD: u64 = 0x9E37_79B9_7F4A_7C15;

/// A scalar as a number.
pub fn number_of(scalar: Scalar) -> u64 {
    match scalar {
        Scalar::Int(number) => number.cast_unsigned() as u64,
        Scalar::Bool(false) => 0,
        Scalar::Bool(true) => 1,
    }
}

/// The words of a state as a number.
pub fn number_of_words(words: &[u64]) -> u64 {
    let mut number = 0_u64;
    if let [word] = words {
        return *word;
    }
    for word in words {
        number = number.wrapping_mul(31).wrapping_add(*word);
    }
    number
}
