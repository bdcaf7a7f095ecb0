//! Files that are at hand.

ghost use Rattle.std.specs.Prelude.{◌≡◌, map, option_map};
ghost use Rattle.ob_answer_files.specs.Files.{bytes_named};

use crate::files::{FileFault, Files};
use std::alloc::{AllocError, Global};

/// Files that are at hand: their names and what they hold, in turn.
#[derive(Clone, Copy)]
pub struct GivenFiles<'a> {
    pub alloc: Global,
    pub texts: &'a [&'a [u8]],
}

impl Files for GivenFiles<'_> {
    ghost use Rattle.ob_answer_files.specs.Files.{IsGivenRead};

    ghost reads = { IsGivenRead };

    fn read(&mut self, name: &str) -> Result<Vec<u8>, FileFault> {
        match bytes_named(self.texts, name.as_bytes()) {
            Some(bytes) => match Vec::from_slice(self.alloc, bytes) {
                Ok(bytes) => Ok(bytes),
                Err(AllocError) => Err(FileFault::NoMemory),
            },
            None => Err(FileFault::Unreadable),
        }
    }
}

/// What the first file of a name holds.
fn bytes_named<'a>(texts: &'a [&'a [u8]], name: &[u8]) -> Option<&'a [u8]>
    ensures { option_map (λ bytes. bytes.now) result ≡ bytes_named name.now (map (λ text. text.now) texts.entry.now) }
{
    let mut rest = texts;
    for place in 0..texts.len() / 2 {
        let [first, bytes, others @ ..] = rest else {
            return None;
        };
        if *first == name {
            return Some(bytes);
        }
        rest = others;
    }
    None
}
