//! The keys of hash tables.

use std::io;
use std::random::RandomSource;

/// The keys of the tables of a search, which are always the same: a library is lent no source of random bytes.
pub(crate) struct FixedKeys;

impl RandomSource for FixedKeys {
    fn fill_bytes(&self, buf: &mut [u8]) -> io::Result<()> {
        buf.fill(0);
        Ok(())
    }
}
