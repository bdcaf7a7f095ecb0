//! Devices that fail at a call.

ghost use Rattle.std.specs.Prelude.{Some};

use crate::{Counted, Failed, IoFault, Sink, Source, emit, slurp};
use std::io;
use std::io::Read;
use std::test::Fail;

/// How many bytes one read gives.
const CHUNK: usize = 7;

/// Ten chunks.
const TEXT: &[u8] = b"x := x + 1; y := y + 2; z := z + 3; WHILE x < 9 DO x := x + z END";

/// Gives a text in chunks, and fails at one call.
#[derive(Drop)]
struct Chunks<'a> {
    text: &'a [u8],
    calls: usize,
    fails_at: usize,
    failures: u64,
}

impl Source for Chunks<'_> {
    ghost left = { λ s. Some s.text.now };

    ghost failures = { λ s. s.failures };

    fn read(&mut self, room: &mut [u8]) -> Result<usize, Failed> {
        self.calls = self.calls.saturating_add(1);
        if self.calls == self.fails_at {
            self.failures += 1;
            return Err(Failed);
        }
        let count = room.len().min(CHUNK).min(self.text.len());
        room[..count].copy_from_slice(&self.text[..count]);
        self.text = &self.text[count..];
        Ok(count)
    }
}

/// What a writer does at one call.
#[derive(Clone, Copy)]
enum Stop {
    Fails,
    TakesNone,
}

/// Takes one byte at each call but one.
#[derive(Drop)]
struct Drops {
    taken: Vec<u8>,
    calls: usize,
    stops_at: usize,
    stop: Stop,
    failures: u64,
}

impl Sink for Drops {
    ghost written = { λ s. Some s.taken.items };

    ghost failures = { λ s. s.failures };

    fn write(&mut self, text: &[u8]) -> Result<usize, Failed> {
        let Some(first) = text.first() else {
            return Ok(0);
        };
        self.calls = self.calls.saturating_add(1);
        let stops = self.calls == self.stops_at;
        if !stops && self.taken.push(*first).is_ok() {
            return Ok(1);
        }
        self.failures += 1;
        match self.stop {
            Stop::Fails => Err(Failed),
            Stop::TakesNone => Ok(0),
        }
    }
}

/// A reader of std that a signal cuts short, and that then may not be read.
#[derive(Drop)]
struct Denied {
    calls: usize,
}

impl Read for Denied {
    fn read(&mut self, _room: &mut [u8]) -> io::Result<usize> {
        self.calls = self.calls.saturating_add(1);
        if self.calls == 1 {
            return Err(io::Error::from(io::ErrorKind::Interrupted));
        }
        Err(io::Error::from(io::ErrorKind::PermissionDenied))
    }
}

#[test]
fn a_reader_fails_at_each_call(rt: HostRuntime) -> Result<(), Fail> {
    // the eleventh read finds the end
    for fails_at in 1..=11 {
        let mut reader = Chunks {
            text: TEXT,
            calls: 0,
            fails_at,
            failures: 0,
        };
        let fault = slurp(rt.alloc(), &mut reader).err();
        assert_eq!(rt; fault, Some(IoFault::Device), "at {fails_at}");
        assert_eq!(rt;
            (reader.calls, reader.failures),
            (fails_at, 1),
            "at {fails_at}"
        );
    }
    Ok(())
}

#[test]
fn all_chunks_are_read(rt: HostRuntime) -> Result<(), Fail> {
    let mut reader = Chunks {
        text: TEXT,
        calls: 0,
        fails_at: 12,
        failures: 0,
    };
    let bytes = slurp(rt.alloc(), &mut reader)?;
    assert_eq!(rt; bytes.as_slice(), TEXT);
    assert_eq!(rt; reader.calls, 11);
    Ok(())
}

#[test]
fn a_writer_stops_at_each_call(rt: HostRuntime) -> Result<(), Fail> {
    for stop in [Stop::Fails, Stop::TakesNone] {
        for stops_at in 1..=TEXT.len() {
            let mut writer = Drops {
                taken: Vec::new(rt.alloc()),
                calls: 0,
                stops_at,
                stop,
                failures: 0,
            };
            let fault = emit(&mut writer, TEXT).err();
            assert_eq!(rt; fault, Some(IoFault::Device), "at {stops_at}");
            assert_eq!(rt;
                (writer.calls, writer.failures),
                (stops_at, 1),
                "at {stops_at}"
            );
            assert_eq!(rt;
                writer.taken.as_slice(),
                &TEXT[..stops_at - 1],
                "at {stops_at}"
            );
        }
    }
    Ok(())
}

#[test]
fn a_text_is_written_byte_by_byte(rt: HostRuntime) -> Result<(), Fail> {
    let mut writer = Drops {
        taken: Vec::new(rt.alloc()),
        calls: 0,
        stops_at: 0,
        stop: Stop::Fails,
        failures: 0,
    };
    emit(&mut writer, TEXT)?;
    assert_eq!(rt; writer.taken.as_slice(), TEXT);
    Ok(())
}

#[test]
fn readers_and_writers_of_std(rt: HostRuntime) -> Result<(), Fail> {
    let bytes = slurp(rt.alloc(), &mut Counted::new(TEXT))?;
    assert_eq!(rt; bytes.as_slice(), TEXT);

    let mut denied = Counted::new(Denied { calls: 0 });
    let fault = slurp(rt.alloc(), &mut denied).err();
    assert_eq!(rt; fault, Some(IoFault::Device));
    assert!(rt; denied.reason() == Some(io::ErrorKind::PermissionDenied));

    let mut room = [0; 5];
    let mut full = Counted::new(&mut room[..]);
    let fault = emit(&mut full, TEXT).err();
    assert_eq!(rt; fault, Some(IoFault::Device));
    assert!(rt; full.reason() == Some(io::ErrorKind::WriteZero));
    Ok(())
}
