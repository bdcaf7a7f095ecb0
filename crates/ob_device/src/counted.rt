//! The readers and writers of std as devices.

ghost use Rattle.std.specs.Prelude.{◌≡◌, ◌+◌, ◌<◌, IsSome, None, Some};
ghost use Rattle.std.specs.Io.{ReadsAtMost, WritesAtMost};
ghost use Rattle.std.specs.Io.KnownBytes.{ReadConsumes, WriteAppends};
ghost use Rattle.ob_device.specs.Devices.{CanCount};

use crate::byte_source::Source;
use crate::fault::Failed;
use crate::sink::Sink;
use std::io;
use std::io::{Read, Write};
use std::marker::Model;

/// A reader or a writer of std, with the count of its failures and what was said of the last one. A read or a write that a signal
/// cuts short is tried again, and is no failure.
#[derive(Drop)]
pub struct Counted<T> {
    inner: T,
    failures: u64,
    reason: Option<io::ErrorKind>,
}

impl<T> Model for Counted<T> {
    ghost use Rattle.std.specs.Prelude.{◌<◌, IsSome};
    ghost use Rattle.ob_device.specs.Counting.{Counting};

    ghost Value = { Counting T };

    ghost view = { λ s. record { inner = s.inner; failures = s.failures; reason = s.reason } };

    ghost invariant = { λ s. 0 < s.failures → IsSome s.reason };
}

impl<T> Counted<T> {
    /// One that has not failed yet.
    pub fn new(inner: T) -> Counted<T>
        ensures { result ≡ record { inner = inner; failures = 0; reason = None } }
    {
        Counted {
            inner,
            failures: 0,
            reason: None,
        }
    }

    /// What was said of the last failure.
    pub fn reason(&self) -> Option<io::ErrorKind>
        ensures reason { result ≡ self.now.reason }
        ensures told { 0 < self.now.failures → IsSome result }
    {
        self.reason
    }

    /// Counts a failure.
    fn fail(&mut self, kind: io::ErrorKind) -> Failed
        requires { CanCount self.old.failures }
        ensures { self.new ≡ record { inner = self.old.inner; failures = self.old.failures + 1; reason = Some kind } }
    {
        self.reason = Some(kind);
        self.failures += 1;
        Failed
    }
}

impl<T: Read> Source for Counted<T> {
    ghost left = { λ s. T.remaining s.inner };

    ghost failures = { λ s. s.failures };

    fn read(&mut self, room: &mut [u8]) -> Result<usize, Failed> {
        match read_through(&mut self.inner, room) {
            Ok(count) => Ok(count),
            Err(kind) => Err(self.fail(kind)),
        }
    }
}

impl<T: Write> Sink for Counted<T> {
    ghost written = { λ s. T.contents s.inner };

    ghost failures = { λ s. s.failures };

    fn write(&mut self, text: &[u8]) -> Result<usize, Failed> {
        match write_through(&mut self.inner, text) {
            Ok(0) if !text.is_empty() => Err(self.fail(io::ErrorKind::WriteZero)),
            Ok(count) => Ok(count),
            Err(kind) => Err(self.fail(kind)),
        }
    }
}

/// One read, tried again where a signal cuts it short.
fn read_through<T: Read>(reader: &mut T, room: &mut [u8]) -> Result<usize, io::ErrorKind>
    ensures bound { ReadsAtMost result room.new }
    ensures bytes { ReadConsumes (T.remaining reader.old) (T.remaining reader.new) result room.new }
{
    for _ in 0..u64::MAX {
        match reader.read(room) {
            Ok(count) => return Ok(count),
            Err(error) => {
                let kind = error.kind();
                if kind != io::ErrorKind::Interrupted {
                    return Err(kind);
                }
            }
        }
    }
    Err(io::ErrorKind::TimedOut)
}

/// One write, tried again where a signal cuts it short.
fn write_through<T: Write>(writer: &mut T, text: &[u8]) -> Result<usize, io::ErrorKind>
    ensures bound { WritesAtMost result text.now }
    ensures bytes { WriteAppends (T.contents writer.old) (T.contents writer.new) result text.now }
{
    for _ in 0..u64::MAX {
        match writer.write(text) {
            Ok(count) => return Ok(count),
            Err(error) => {
                let kind = error.kind();
                if kind != io::ErrorKind::Interrupted {
                    return Err(kind);
                }
            }
        }
    }
    Err(io::ErrorKind::TimedOut)
}
