//! Sources, sinks and files of the machine. They tell no bytes: what a file, a terminal or a pipe holds is not proved.

ghost use Rattle.std.specs.Prelude.{◌≡◌, ◌≤◌, length, IfOk, None};

use crate::files::{Files, ReadEnd};
use crate::list::{Bytes, Failed};
use crate::sink::Sink;
use crate::source::Source;
use sqlite_items::Items;
use std::alloc::Global;
use std::fs::File;
use std::io::{ErrorKind, Read, Write};
use std::{fs, io, str};

/// A source over any reader. A read that was broken off by a signal counts as a failure, like any other that
/// fails.
#[derive(Drop)]
pub struct RealSource<R: Read> {
    inner: R,
    faults: u64,
}

impl<R: Read> RealSource<R> {
    /// A source over this reader.
    pub fn new(inner: R) -> RealSource<R> {
        RealSource { inner, faults: 0 }
    }
}

impl<R: Read> Source for RealSource<R> {
    ghost rest = { λ _. None };

    ghost faults = { λ s. s.faults };

    fn read(&mut self, buf: &mut [u8]) -> Result<usize, Failed> {
        if buf.is_empty() {
            return Ok(0);
        }
        match self.inner.read(buf) {
            Ok(count) => Ok(count),
            Err(_) => {
                self.faults = self.faults.saturating_add(1);
                Err(Failed)
            }
        }
    }
}

/// A sink over any writer. Each piece is flushed; a write of no byte counts as a failure.
#[derive(Drop)]
pub struct RealSink<W: Write> {
    inner: W,
    faults: u64,
}

impl<W: Write> RealSink<W> {
    /// A sink over this writer.
    pub fn new(inner: W) -> RealSink<W> {
        RealSink { inner, faults: 0 }
    }
}

impl<W: Write> Sink for RealSink<W> {
    ghost written = { λ _. None };

    ghost faults = { λ s. s.faults };

    fn write(&mut self, bytes: &[u8]) -> Result<usize, Failed> {
        if bytes.is_empty() {
            return Ok(0);
        }
        match self.inner.write(bytes) {
            Ok(count) if count > 0 && self.inner.flush().is_ok() => Ok(count),
            _ => {
                self.faults = self.faults.saturating_add(1);
                Err(Failed)
            }
        }
    }
}

/// The files of the machine. A name that is not UTF-8 counts as a failure.
#[derive(Drop)]
pub struct RealFiles<'a, R: fs::Files> {
    host: &'a R,
    faults: u64,
    failed: Option<Bytes>,
}

impl<'a, R: fs::Files> RealFiles<'a, R> {
    /// The files that this host has.
    pub fn new(host: &'a R) -> RealFiles<'a, R> {
        RealFiles {
            host,
            faults: 0,
            failed: None,
        }
    }

    /// The first `limit` bytes and one more, if there are so many.
    fn read_front(&self, alloc: Global, name: &[u8], limit: u64) -> io::Result<Vec<u8>> {
        let name = str::from_utf8(name).map_err(|_| ErrorKind::InvalidInput)?;
        let file = File::open(self.host, name)?;
        let mut bytes = Vec::new(alloc);
        file.take(limit.saturating_add(1)).read_to_end(&mut bytes)?;
        Ok(bytes)
    }
}

impl<'a, R: fs::Files> Files for RealFiles<'a, R> {
    ghost contents = { λ _. None };

    ghost tally = { λ s. record { faults = s.faults; failed = s.failed } };

    fn read(&mut self, alloc: Global, name: &[u8], limit: u64) -> Result<Bytes, ReadEnd> {
        let copy = Items::from_slice(alloc, name)?;
        match self.read_front(alloc, name, limit) {
            Ok(bytes) if bytes.len() as u64 > limit => Err(ReadEnd::TooLong),
            Ok(bytes) => Ok(Items::from_vec(bytes)),
            Err(error) if error.kind() == ErrorKind::OutOfMemory => Err(ReadEnd::NoMemory),
            Err(_) => {
                self.faults = self.faults.saturating_add(1);
                self.failed = Some(copy);
                Err(ReadEnd::Fault)
            }
        }
    }
}
