//! What takes bytes, and a whole text.

ghost use Rattle.std.specs.Prelude.{◌≡◌, ◌≢◌, ◌+◌, ◌<◌, ℕ, List, Option, Err, IfErr, IfOk, OnOk, OnErr, length};
ghost use Rattle.std.specs.Io.{WritesAtMost};
ghost use Rattle.std.specs.Io.KnownBytes.{Appends, WriteAppends};
ghost use Rattle.ob_device.specs.Devices.{AppendsPart, CanCount, failed_writes, told_failures};

use crate::fault::{Failed, IoFault};

/// What takes bytes, one write after the other.
pub trait Sink {
    /// The bytes that it has taken, where they are known.
    ghost written: { Self → Option (List ℕ) };

    /// How many of its writes have failed.
    ghost failures: { Self → ℕ };

    /// One write of the beginning of a text, as long as it likes. To take no byte of a text that has some is a failure too.
    fn write(&mut self, text: &[u8]) -> Result<usize, Failed>
        requires { CanCount (failures self.old) }
        ensures bound { WritesAtMost result text.now }
        ensures bytes { WriteAppends (written self.old) (written self.new) result text.now }
        ensures counted { failures self.new ≡ failures self.old + failed_writes result text.now };
}

/// Writes a text. It takes no memory.
pub fn emit<W: Sink>(writer: &mut W, text: &[u8]) -> Result<(), IoFault>
    requires { CanCount (W.failures writer.old) }
    ensures all { OnOk result (Appends (W.written writer.old) (W.written writer.new) text.now) }

    // After a fault what was written is a beginning of the text, and not all of it.
    ensures beginning { OnErr result (AppendsPart (W.written writer.old) (W.written writer.new) text.now) }

    // It stops at the first failure, and tells of a failure exactly where there was one.
    ensures device { W.failures writer.new ≡ W.failures writer.old + told_failures result }
    ensures memory { result ≢ Err IoFault.NoMemory }
{
    let mut rest = text;
    while !rest.is_empty() {
        let count = write_some(writer, rest)?;
        rest = &rest[count..];
    }
    Ok(())
}

/// One write of the beginning of a text that has some bytes, and how many it took.
fn write_some<W: Sink>(writer: &mut W, text: &[u8]) -> Result<usize, IoFault>
    requires some { 0 < length text.now }
    requires countable { CanCount (W.failures writer.old) }
    ensures some { IfOk result (λ count. 0 < count) }
    ensures bound { WritesAtMost result text.now }
    ensures bytes { WriteAppends (W.written writer.old) (W.written writer.new) result text.now }
    ensures device { W.failures writer.new ≡ W.failures writer.old + told_failures result }
    ensures memory { IfErr result (λ fault. fault ≡ IoFault.Device) }
{
    match writer.write(text) {
        Ok(0) | Err(Failed) => Err(IoFault::Device),
        Ok(count) => Ok(count),
    }
}
