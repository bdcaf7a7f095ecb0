//! What gives bytes, and all of them.

ghost use Rattle.std.specs.Prelude.{◌≡◌, ◌+◌, ◌<◌, ◌≤◌, ℕ, List, [], Option, length, take, drop, vec_len, IfOk, OnOk, OnErr};
ghost use Rattle.std.specs.Io.{ReadsAtMost};
ghost use Rattle.std.specs.Io.KnownBytes.{Consumes, IsAtEnd, Keeps, ReadConsumes};
ghost use Rattle.ob_device.specs.Devices.{CanCount, IsAll, LosesSome, failed_reads, told_failures};

use crate::fault::{Failed, IoFault};
use std::alloc::{AllocError, Global};

/// The most bytes that one read is given room for.
const LONGEST_READ: usize = 128 * 1024;

/// The least room by which the bytes grow.
const LEAST_GROWTH: usize = 512;

/// What gives bytes, one read after the other.
pub trait Source {
    /// The bytes that it has left, where they are known.
    ghost left: { Self → Option (List ℕ) };

    /// How many of its reads have failed.
    ghost failures: { Self → ℕ };

    /// One read, to the front of a room. It gives no byte only at the end, or where there is no room.
    fn read(&mut self, room: &mut [u8]) -> Result<usize, Failed>
        requires { CanCount (failures self.old) }
        ensures bound { ReadsAtMost result room.new }
        ensures bytes { ReadConsumes (left self.old) (left self.new) result room.new }
        ensures counted { failures self.new ≡ failures self.old + failed_reads result };
}

/// All that a reader has left.
pub fn slurp<R: Source>(alloc: Global, reader: &mut R) -> Result<Vec<u8>, IoFault>
    requires { CanCount (R.failures reader.old) }
    ensures all { IfOk result (λ bytes. IsAll (R.left reader.old) bytes.items) }
    ensures end { OnOk result (IsAtEnd (R.left reader.new)) }

    // After a fault what was read is gone, and the reader has the rest.
    ensures rest { LosesSome (R.left reader.old) (R.left reader.new) }

    // It stops at the first failure, and tells of a failure exactly where there was one.
    ensures device { R.failures reader.new ≡ R.failures reader.old + told_failures result }
{
    let mut bytes = Vec::new(alloc);
    let filled = fill(reader, &mut bytes)?;
    bytes.truncate(filled);
    Ok(bytes)
}

/// Reads to the end, in place, and gives how many of the bytes were read. What stands behind these was room for a read.
fn fill<R: Source>(reader: &mut R, bytes: &mut Vec<u8>) -> Result<usize, IoFault>
    requires empty { bytes.old.items ≡ [] }
    requires countable { CanCount (R.failures reader.old) }
    ensures within { IfOk result (λ filled. filled ≤ vec_len bytes.new) }
    ensures read { IfOk result (λ filled. Consumes (R.left reader.old) (R.left reader.new) (take filled bytes.new.items)) }
    ensures end { OnOk result (IsAtEnd (R.left reader.new)) }
    ensures rest { LosesSome (R.left reader.old) (R.left reader.new) }
    ensures device { R.failures reader.new ≡ R.failures reader.old + told_failures result }
{
    let mut filled = 0;
    loop {
        let count = read_behind(reader, bytes, filled)?;
        if count == 0 {
            return Ok(filled);
        }
        filled += count;
    }
}

/// One read, to behind what is filled. Room is made first, so that a refused growth loses no byte.
fn read_behind<R: Source>(
    reader: &mut R,
    bytes: &mut Vec<u8>,
    filled: usize,
) -> Result<usize, IoFault>
    requires within { filled ≤ vec_len bytes.old }
    requires countable { CanCount (R.failures reader.old) }
    ensures within { filled ≤ vec_len bytes.new }
    ensures front { take filled bytes.new.items ≡ take filled bytes.old.items }
    ensures fits { IfOk result (λ count. filled + count ≤ vec_len bytes.new) }
    ensures ok { IfOk result (λ count. Consumes (R.left reader.old) (R.left reader.new) (take count (drop filled bytes.new.items))) }
    ensures err { OnErr result (Keeps (R.left reader.old) (R.left reader.new)) }
    ensures end { IfOk result (λ count. count ≡ 0 → IsAtEnd (R.left reader.new)) }
    ensures device { R.failures reader.new ≡ R.failures reader.old + told_failures result }
{
    make_room(bytes, filled)?;
    let count = read_at(reader, bytes.as_mut_slice(), filled)?;
    Ok(count)
}

/// One read, to a place of a room and behind it.
fn read_at<R: Source>(reader: &mut R, room: &mut [u8], at: usize) -> Result<usize, Failed>
    requires within { at < length room.old }
    requires countable { CanCount (R.failures reader.old) }
    ensures front { take at room.new ≡ take at room.old }
    ensures fits { IfOk result (λ count. at + count ≤ length room.new) }
    ensures ok { IfOk result (λ count. Consumes (R.left reader.old) (R.left reader.new) (take count (drop at room.new))) }
    ensures err { OnErr result (Keeps (R.left reader.old) (R.left reader.new)) }
    ensures end { IfOk result (λ count. count ≡ 0 → IsAtEnd (R.left reader.new)) }
    ensures counted { R.failures reader.new ≡ R.failures reader.old + failed_reads result }
{
    reader.read(&mut room[at..])
}

/// Makes the bytes longer than what is filled, by zeros. What an earlier read left unfilled stays as it is.
fn make_room(bytes: &mut Vec<u8>, filled: usize) -> Result<(), AllocError>
    requires { filled ≤ vec_len bytes.old }
    ensures within { filled ≤ vec_len bytes.new }
    ensures front { take filled bytes.new.items ≡ take filled bytes.old.items }
    ensures room { OnOk result (filled < vec_len bytes.new) }
{
    if filled == bytes.capacity() {
        bytes.reserve(LEAST_GROWTH)?;
    }
    let end = filled + (bytes.capacity() - filled).min(LONGEST_READ);
    if bytes.len() < end {
        bytes.resize(end, 0)?;
    }
    Ok(())
}
