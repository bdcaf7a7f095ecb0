//! Counts of words that are told or not.

ghost use Rattle.std.specs.Prelude.{◌≡◌};
ghost use Rattle.ob_explain_words.specs.Counts.{at_least_one, product_of, sum_of};

/// Two counts together; `None` where one is not told, or they are too many.
pub(crate) fn sum_of(first: Option<usize>, second: Option<usize>) -> Option<usize>
    ensures { result ≡ sum_of first second }
{
    match (first, second) {
        (Some(first), Some(second)) => first.checked_add(second),
        _ => None,
    }
}

/// So many times a count; `None` where one is not told, or they are too many.
pub(crate) fn product_of(first: Option<usize>, second: Option<usize>) -> Option<usize>
    ensures { result ≡ product_of first second }
{
    match (first, second) {
        (Some(first), Some(second)) => first.checked_mul(second),
        _ => None,
    }
}

/// The words of a record whose fields have so many.
pub(crate) fn at_least_one(words: Option<usize>) -> Option<usize>
    ensures { result ≡ at_least_one words }
{
    match words {
        Some(words) => Some(words.max(1)),
        None => None,
    }
}
