//! Scalars as events keep them: up to three in place, and more in memory of their own.
//!
//! Most events have one scalar or none, and a history is mostly events, so a value is as small as
//! three words of 4 bytes, with a byte for the kind of each, and a tag.

ghost use Rattle.std.specs.Prelude.{◌≡◌, ◌≤◌, ◌==◌, ◌∷◌, [], IfOk, IsOk, length};
ghost use Rattle.wf_history.specs.Place.{joined_scalar, placed_items};

use crate::lent::Lent;
use ob_interface::NoMemory;
use ob_interface::scalar::Scalar;
use smallvec::SmallVec;
use std::alloc::Global;
use std::marker::Model;
use std::slice;

/// Scalars that are kept as they are.
#[derive(Drop)]
pub struct KeptScalars {
    place: Place,
}

/// Where they lie. Of two and of three the kinds stand before the words, so that no room is left
/// between them.
#[derive(Drop)]
enum Place {
    None,
    One(Scalar),
    Two(Kind, Kind, i32, i32),
    Three(Kind, Kind, Kind, i32, i32, i32),
    Many(Apart),
}

/// What a scalar is beside its word. Of a BOOLEAN it is all that is known, and its word is 0.
#[derive(Clone, Copy)]
enum Kind {
    Integer,
    False,
    True,
}

/// Scalars in memory of their own: one piece of it for up to 6, and two for more.
struct Apart {
    items: Box<SmallVec<Scalar, 6>>,
}

impl Drop for Apart {
    /// Not inlined, since few events have so many scalars, and all are dropped.
    #[inline(never)]
    fn drop(self) {
        let Apart { items } = self;
        drop(items);
    }
}

impl Model for KeptScalars {
    ghost use Rattle.wf_history.specs.Kept.{Scalars};

    ghost Value = { Scalars };

    ghost use Rattle.wf_history.specs.Place.{placed};

    ghost view = { λ k. placed k.place };
}

impl KeptScalars {
    /// A copy of the scalars. It takes memory only for more than three.
    #[inline(always)]
    pub fn from_slice(alloc: Global, items: &[Scalar]) -> Result<KeptScalars, NoMemory>
        ensures ok { IfOk result (λ k. k.items ≡ items.now) }
        ensures in_place { length items.now ≤ 3 → IsOk result }
    {
        let place = match items {
            [] => Place::None,
            [one] => Place::One(*one),
            [first, second] => two(*first, *second),
            [first, second, third] => three(*first, *second, *third),
            [_, _, _, ..] => Place::Many(Apart::from_slice(alloc, items)?),
        };
        Ok(KeptScalars { place })
    }

    /// The scalars, to be looked at.
    #[inline]
    pub fn lent(&self) -> Lent<'_>
        ensures { result.items ≡ self.now.items }
    {
        match &self.place {
            Place::None => Lent::there(&[]),
            Place::One(item) => Lent::there(slice::from_ref(item)),
            Place::Two(k0, k1, w0, w1) => Lent::two([joined(*k0, *w0), joined(*k1, *w1)]),
            Place::Three(k0, k1, k2, w0, w1, w2) => {
                Lent::three([joined(*k0, *w0), joined(*k1, *w1), joined(*k2, *w2)])
            }
            Place::Many(apart) => Lent::there(apart.items.as_slice()),
        }
    }

    /// Whether there is no scalar.
    #[inline]
    pub fn is_empty(&self) -> bool
        ensures { result ≡ (length self.now.items == 0) }
    {
        match &self.place {
            Place::None => true,
            Place::Many(apart) => apart.items.is_empty(),
            _ => false,
        }
    }
}

/// Two scalars in place.
#[inline(always)]
fn two(first: Scalar, second: Scalar) -> Place
    ensures { placed_items result ≡ first ∷ second ∷ [] }
{
    let (k0, w0) = split(first);
    let (k1, w1) = split(second);
    Place::Two(k0, k1, w0, w1)
}

/// Three scalars in place.
#[inline(always)]
fn three(first: Scalar, second: Scalar, third: Scalar) -> Place
    ensures { placed_items result ≡ first ∷ second ∷ third ∷ [] }
{
    let (k0, w0) = split(first);
    let (k1, w1) = split(second);
    let (k2, w2) = split(third);
    Place::Three(k0, k1, k2, w0, w1, w2)
}

/// A scalar as its kind and its word.
#[inline]
fn split(scalar: Scalar) -> (Kind, i32)
    ensures { joined_scalar result.0 result.1 ≡ scalar }
{
    match scalar {
        Scalar::Int(word) => (Kind::Integer, word),
        Scalar::Bool(false) => (Kind::False, 0),
        Scalar::Bool(true) => (Kind::True, 0),
    }
}

/// The scalar of a kind and a word.
#[inline]
fn joined(kind: Kind, word: i32) -> Scalar
    ensures { result ≡ joined_scalar kind word }
{
    match kind {
        Kind::Integer => Scalar::Int(word),
        Kind::False => Scalar::Bool(false),
        Kind::True => Scalar::Bool(true),
    }
}

impl Apart {
    /// A copy of the scalars.
    #[inline(never)]
    fn from_slice(alloc: Global, items: &[Scalar]) -> Result<Apart, NoMemory>
        ensures { IfOk result (λ apart. apart.items.value.items ≡ items.now) }
    {
        let copy = SmallVec::from_slice(alloc, items)?;
        Ok(Apart {
            items: Box::new(alloc, copy)?,
        })
    }
}

const _: () = prove!(size_of::<KeptScalars>() == 16);
