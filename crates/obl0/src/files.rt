//! The files of the host.

ghost use Rattle.std.specs.Prelude.{◌≡◌, ◌≢◌, ◌≤◌, length, IfOk, IfSome, None, Some, true};
ghost use Rattle.obl0.specs.Refusals.{file_fault};
ghost use Rattle.ob_fault_lines.specs.Counts.{CountsCalls};
ghost use Rattle.ob_device.specs.Devices.{IsAll};

use ob_answer::answer::INPUT_NAME;
use ob_answer_files::files::{FileFault, Files};
use ob_device::{Counted, IoFault, slurp};
use ob_fault_lines::call_counts::script_calls;
use std::alloc::Global;
use std::io::Read;
use std::rt::Files as HostRead;
use std::{fs, io};

/// The files of the host, by paths from the current directory on, and standard input by its name. Nothing is claimed of their bytes.
#[derive(Clone, Copy)]
pub struct HostFiles<'a, R> {
    pub rt: &'a R,
    /// What the host said of the last file that it gave no bytes of.
    pub refusal: Option<io::ErrorKind>,
    /// Whether calls are counted, as they are for a run: for other commands that would be time for nothing.
    pub counts: bool,
    /// How many calls the first file makes of which all was read: that of a run's script.
    pub calls: Option<usize>,
}

impl<R> HostFiles<'_, R> {
    /// Keeps what the host said of a file, and gives the fault that it is.
    fn refused(&mut self, kind: io::ErrorKind) -> FileFault
        ensures fault { result ≡ file_fault kind }
        ensures kept { self.new.refusal ≡ Some kind }
    {
        self.refusal = Some(kind);
        fault_of(kind)
    }

    /// Keeps how many calls the first file makes of which all was read, where calls are counted.
    fn count_calls(&mut self, bytes: &[u8])
        ensures first { self.old.calls ≡ None → self.old.counts ≡ true → self.new.calls ≢ None }
        ensures counted { self.old.calls ≡ None → IfSome self.new.calls (CountsCalls bytes.now) }
        ensures later { IfSome self.old.calls (λ calls. self.new.calls ≡ Some calls) }
        ensures refusal { self.new.refusal ≡ self.old.refusal }
    {
        if self.counts && self.calls.is_none() {
            self.calls = Some(script_calls(bytes));
        }
    }
}

impl<R: HostRead + Input + AllocGlobal> Files for HostFiles<'_, R> {
    ghost reads = { λ _ _ _ _. Unit {0} };

    fn read(&mut self, name: &str) -> Result<Vec<u8>, FileFault> {
        match whole(self.rt, name) {
            Ok(bytes) => {
                self.count_calls(&bytes);
                Ok(bytes)
            }
            Err(kind) => Err(self.refused(kind)),
        }
    }

    /// No byte behind the beginning is read, so a file without end is fine.
    fn read_beginning(&mut self, name: &str, most: usize) -> Result<Vec<u8>, FileFault> {
        match beginning(self.rt, name, most) {
            Ok(bytes) => Ok(bytes),
            Err(kind) => Err(self.refused(kind)),
        }
    }
}

/// All bytes of a file, or of standard input.
fn whole<R: HostRead + Input + AllocGlobal>(rt: &R, name: &str) -> Result<Vec<u8>, io::ErrorKind> {
    if name == INPUT_NAME {
        return all_of(rt.alloc(), rt.reader());
    }
    match fs::open(rt, name) {
        Ok(file) => all_of(rt.alloc(), file),
        Err(error) => Err(error.kind()),
    }
}

/// The first `most` bytes of a file, or of standard input; all where there are fewer.
fn beginning<R: HostRead + Input + AllocGlobal>(
    rt: &R,
    name: &str,
    most: usize,
) -> Result<Vec<u8>, io::ErrorKind>
    ensures { IfOk result (λ bytes. length bytes.items ≤ most) }
{
    let read = if name == INPUT_NAME {
        all_of(rt.alloc(), rt.reader().take(most as u64))
    } else {
        match fs::open(rt, name) {
            Ok(file) => all_of(rt.alloc(), file.take(most as u64)),
            Err(error) => Err(error.kind()),
        }
    };
    let mut bytes = read?;
    bytes.truncate(most);
    Ok(bytes)
}

/// All that a reader has left, or what was said where it failed.
fn all_of<S: Read + Drop>(alloc: Global, reader: S) -> Result<Vec<u8>, io::ErrorKind>
    ensures { IfOk result (λ bytes. IsAll (S.remaining reader) bytes.items) }
{
    let mut source = Counted::new(reader);
    match slurp(alloc, &mut source) {
        Ok(bytes) => Ok(bytes),
        Err(IoFault::NoMemory) => Err(io::ErrorKind::OutOfMemory),
        Err(IoFault::Device) => Err(source.reason().unwrap_or(io::ErrorKind::Other)),
    }
}

/// What a refusal of the host says of the file.
fn fault_of(kind: io::ErrorKind) -> FileFault
    ensures { result ≡ file_fault kind }
{
    match kind {
        io::ErrorKind::OutOfMemory => FileFault::NoMemory,
        _ => FileFault::Unreadable,
    }
}
