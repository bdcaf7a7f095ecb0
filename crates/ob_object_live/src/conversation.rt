//! What lines come from, and what is told of them goes to.

ghost use Rattle.std.specs.Prelude.{ℕ, List, IfOk, OnOk};
ghost use Rattle.std.specs.Io.KnownBytes.{Keeps};

use ob_interface::NoMemory;
use std::alloc::{AllocError, Global};
use std::io;
use std::io::{BufRead, Write};
use thiserror::Error;

/// Why not all was told.
#[derive(Clone, Copy, Debug, Error)]
pub enum TalkFault {
    /// No more lines can be read.
    #[error("cannot read")]
    Input(io::ErrorKind),
    /// Nothing more can be told.
    #[error("cannot write")]
    Output,
    /// Want of memory.
    #[error("NoMemory")]
    NoMemory,
}

impl From<NoMemory> for TalkFault {
    ghost use Rattle.std.specs.Prelude.{◌≡◌};
    ghost use Rattle.ob_object_live.specs.declared.conversation.TalkFault.TheVariants as Faults;

    ghost from_gives = { λ _ f. f ≡ Faults.NoMemory };

    fn from(_: NoMemory) -> TalkFault {
        TalkFault::NoMemory
    }
}

impl From<AllocError> for TalkFault {
    ghost use Rattle.std.specs.Prelude.{◌≡◌};
    ghost use Rattle.ob_object_live.specs.declared.conversation.TalkFault.TheVariants as Faults;

    ghost from_gives = { λ _ f. f ≡ Faults.NoMemory };

    fn from(_: AllocError) -> TalkFault {
        TalkFault::NoMemory
    }
}

/// Lines that are heard, one at a time, and texts that are told of them.
pub trait Conversation {
    /// Of a line that is heard: the state before, its bytes, and the state after. Behind the last line there is one without bytes.
    ghost hears: { Self → List ℕ → Self → Type 0 };

    /// Of a text that is told: the state before, the text, and the state after.
    ghost tells: { Self → List ℕ → Self → Type 0 };

    /// The next line, with its line feed where it has one. It is waited for.
    fn next_line(&mut self, alloc: Global) -> Result<Vec<u8>, TalkFault>
        ensures { IfOk result (λ line. hears self.old line.items self.new) };

    /// Tells a text, at once.
    fn tell(&mut self, text: &[u8]) -> Result<(), TalkFault>
        ensures { OnOk result (tells self.old text.now self.new) };
}

/// Lines of a reader, and a writer that is told of them.
#[derive(Drop)]
pub struct Pipe<R, W> {
    pub reader: R,
    pub writer: W,
}

impl<R: BufRead, W: Write> Conversation for Pipe<R, W> {
    ghost use Rattle.ob_object_live.specs.Pipes.{IsHeard, IsToldTo};

    ghost hears = { IsHeard R.remaining W.contents };

    ghost tells = { IsToldTo R.remaining W.contents };

    fn next_line(&mut self, alloc: Global) -> Result<Vec<u8>, TalkFault> {
        let mut line = Vec::new(alloc);
        match self.reader.read_until(b'\n', &mut line) {
            Ok(_) => Ok(line),
            Err(error) => Err(unread(error.kind())),
        }
    }

    fn tell(&mut self, text: &[u8]) -> Result<(), TalkFault> {
        match self.writer.write_all(text) {
            Ok(()) => send(&mut self.writer),
            Err(_) => Err(TalkFault::Output),
        }
    }
}

/// Why a line could not be read.
fn unread(kind: io::ErrorKind) -> TalkFault {
    match kind {
        io::ErrorKind::OutOfMemory => TalkFault::NoMemory,
        _ => TalkFault::Input(kind),
    }
}

/// Sends on what was written.
fn send<W: Write>(writer: &mut W) -> Result<(), TalkFault>
    ensures { OnOk result (Keeps (W.contents writer.old) (W.contents writer.new)) }
{
    match writer.flush() {
        Ok(()) => Ok(()),
        Err(_) => Err(TalkFault::Output),
    }
}
