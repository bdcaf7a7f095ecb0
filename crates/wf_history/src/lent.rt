//! Kept scalars to be looked at.

ghost use Rattle.std.specs.Prelude.{◌≡◌};

use ob_interface::scalar::Scalar;
use std::marker::Model;

/// Scalars as a list: where they lie, or put together here.
#[derive(Drop)]
pub struct Lent<'a> {
    place: LentPlace<'a>,
}

/// Where they lie.
#[derive(Drop)]
enum LentPlace<'a> {
    There(&'a [Scalar]),
    Two([Scalar; 2]),
    Three([Scalar; 3]),
}

impl<'a> Model for Lent<'a> {
    ghost use Rattle.wf_history.specs.Kept.{Scalars};

    ghost Value = { Scalars };

    ghost use Rattle.wf_history.specs.Lent.{lent_from};

    ghost view = { λ l. lent_from l.place };
}

impl<'a> Lent<'a> {
    /// Those that lie elsewhere.
    #[inline(always)]
    pub(crate) fn there(items: &'a [Scalar]) -> Lent<'a>
        ensures { result.items ≡ items.now }
    {
        Lent {
            place: LentPlace::There(items),
        }
    }

    /// Two that were put together.
    #[inline(always)]
    pub(crate) fn two(items: [Scalar; 2]) -> Lent<'a>
        ensures { result.items ≡ items }
    {
        Lent {
            place: LentPlace::Two(items),
        }
    }

    /// Three that were put together.
    #[inline(always)]
    pub(crate) fn three(items: [Scalar; 3]) -> Lent<'a>
        ensures { result.items ≡ items }
    {
        Lent {
            place: LentPlace::Three(items),
        }
    }

    /// The scalars.
    #[inline]
    pub fn as_slice(&self) -> &[Scalar]
        ensures { result.now ≡ self.now.items }
    {
        match &self.place {
            LentPlace::There(items) => items,
            LentPlace::Two(items) => items.as_slice(),
            LentPlace::Three(items) => items.as_slice(),
        }
    }
}
