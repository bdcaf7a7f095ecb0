//! What the host refuses.

ghost use Rattle.std.specs.Prelude.{◌≡◌};
ghost use Rattle.std.specs.IoError.{error_kind};
ghost use Rattle.obl0.specs.Refusals.{refusal_line, refusal_of_words, refusal_status};

use ob_interface::NoMemory;
use std::alloc::AllocError;
use std::io;

/// What the host refuses.
#[derive(Clone, Copy, PartialEq, Eq)]
pub enum Refusal {
    /// A word is not UTF-8.
    Words,
    /// Want of memory, for the stack too.
    NoMemory,
    /// Standard output can't be written.
    Output,
}

impl Refusal {
    /// The line that tells it.
    pub fn line(self) -> &'static str
        ensures { result.now ≡ refusal_line self }
    {
        match self {
            Refusal::Words => "the words are not UTF-8\n",
            Refusal::NoMemory => "NoMemory\n",
            Refusal::Output => "cannot write\n",
        }
    }

    /// The exit status.
    pub fn status(self) -> u8
        ensures { result ≡ refusal_status self }
    {
        match self {
            Refusal::Words => 2,
            Refusal::NoMemory | Refusal::Output => 3,
        }
    }
}

/// Why the words can't be had.
pub fn refusal_of_words(error: io::Error) -> Refusal
    ensures { result ≡ refusal_of_words (error_kind error) }
{
    match error.kind() {
        io::ErrorKind::OutOfMemory => Refusal::NoMemory,
        _ => Refusal::Words,
    }
}

impl From<AllocError> for Refusal {
    ghost use Rattle.std.specs.Prelude.{◌≡◌};
    ghost use Rattle.obl0.specs.declared.refusal.Refusal.TheVariants as Refusals;

    ghost from_gives = { λ _ r. r ≡ Refusals.NoMemory };

    fn from(_: AllocError) -> Refusal {
        Refusal::NoMemory
    }
}

impl From<NoMemory> for Refusal {
    ghost use Rattle.std.specs.Prelude.{◌≡◌};
    ghost use Rattle.obl0.specs.declared.refusal.Refusal.TheVariants as Refusals;

    ghost from_gives = { λ _ r. r ≡ Refusals.NoMemory };

    fn from(_: NoMemory) -> Refusal {
        Refusal::NoMemory
    }
}
