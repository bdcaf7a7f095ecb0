//! What the tables of a search hash with.

use std::hash::{BuildHasher, FoldHasher, Hasher, RandomState};

/// Keys of a table. A fold of a word costs some instructions, where the hash of `RandomState` costs a hundred. It begins behind a word
/// that only this run knows, so that no history and no script can be made beforehand whose configurations collide. What a search finds
/// is the same by all keys.
#[derive(Clone, Copy)]
pub struct Keys {
    first: FoldHasher,
}

impl Keys {
    /// Keys that are drawn from these.
    pub fn new(drawn: RandomState) -> Keys {
        let mut first = FoldHasher::default();
        first.write_u64(drawn.hash_one(0_u64));
        Keys { first }
    }
}

impl BuildHasher for Keys {
    type Hasher = FoldHasher;

    ghost build_hasher = { λ keys. keys.first };

    #[inline(always)]
    fn build_hasher(&self) -> FoldHasher {
        self.first
    }
}
