//! A source, a sink and files in memory, whose calls fail where they are told to.

ghost use Rattle.std.specs.Prelude.{◌≡◌, ◌≢◌, ◌↔◌, ◌⊎◌, ◌+◌, ◌-◌, ◌<◌, ◌≤◌, ◌^◌, [], ◌++◌, Ok, length, take, min, true, IfOk, IsOk, IfSome, MatchResult, option_copied};
ghost use Rattle.std.specs.Io.KnownBytes.{ReadConsumes, WriteAppends};
ghost use Rattle.std.specs.Io.{ReadsAtMost};
ghost use Rattle.tok_base.specs.Fault.{HasCause};
ghost use Rattle.tok_base.specs.Files.{Finds, Marks};
ghost use Rattle.tok_base.specs.Memory.{is_to_fail as to_fail, bytes_of, found, tally_of, taken, after_write, given, after_source_read, filled, answer_of, Answers, after_file_read};

use crate::files::{Files, ReadEnd};
use crate::list::{Bytes, Failed, NoMemory, behind};
use crate::sink::Sink;
use crate::source::Source;
use sqlite_items::Items;
use std::alloc::Global;
use std::marker::Model;

fn is_to_fail(fails: &Items<u64>, call: u64) -> bool
    ensures { result ≡ to_fail fails.now call }
{
    fails.as_slice().iter().any(|fail| *fail == call)
}

/// A source that gives these bytes. Of its calls, those on empty buffers aside, exactly the ones that `fails`
/// numbers from 0 fail. Each of the others gives as many bytes as fit, but at most `most`.
#[derive(Debug, Drop)]
pub struct MemSource {
    bytes: Bytes,
    done: usize,
    most: usize,
    fails: Items<u64>,
    calls: u64,
    faults: u64,
}

impl Model for MemSource {
    ghost use Rattle.std.specs.Prelude.{◌≤◌, length, drop};
    ghost use Rattle.tok_base.specs.Memory.{SourceState};

    ghost Value = { SourceState };

    ghost view = { λ s. record { rest = drop s.done s.bytes; most = s.most; fails = s.fails; calls = s.calls; faults = s.faults } };

    ghost invariant = { λ s. (s.done ≤ length s.bytes) × (1 ≤ s.most) };
}

impl MemSource {
    /// These bytes, each call of which gives as many as fit.
    pub fn new(bytes: Bytes, fails: Items<u64>) -> MemSource
        ensures { result ≡ record { rest = bytes; most = 2 ^ 64 - 1; fails = fails; calls = 0; faults = 0 } }
    {
        MemSource {
            bytes,
            done: 0,
            most: usize::MAX,
            fails,
            calls: 0,
            faults: 0,
        }
    }

    /// These bytes, each call of which gives at most `most`.
    pub fn slow(bytes: Bytes, fails: Items<u64>, most: u32) -> MemSource
        requires { 1 ≤ most }
        ensures { result ≡ record { rest = bytes; most = most; fails = fails; calls = 0; faults = 0 } }
    {
        MemSource {
            bytes,
            done: 0,
            most: most as usize,
            fails,
            calls: 0,
            faults: 0,
        }
    }
}

impl Source for MemSource {
    ghost use Rattle.std.specs.Prelude.{Some};

    ghost rest = { λ s. Some s.rest };

    ghost faults = { λ s. s.faults };

    fn read(&mut self, buf: &mut [u8]) -> Result<usize, Failed>
        ensures bound { ReadsAtMost result buf.new }
        ensures empty { buf.old ≡ [] → result ≡ Ok 0 }
        ensures bytes { ReadConsumes (Some self.old.rest) (Some self.new.rest) result buf.new }
        ensures cause { HasCause self.old.faults self.new.faults result }
        ensures exact { MatchResult result (λ n. given self.old (length buf.old) ≡ Some n) (λ _. given self.old (length buf.old) ≡ None) }
        ensures after { self.new ≡ after_source_read self.old (length buf.old) }
        ensures filled { buf.new ≡ filled self.old buf.old (given self.old (length buf.old)) }
    {
        if buf.is_empty() {
            return Ok(0);
        }
        let fails = is_to_fail(&self.fails, self.calls);
        self.calls = self.calls.saturating_add(1);
        if fails {
            self.faults = self.faults.saturating_add(1);
            return Err(Failed);
        }
        let rest = behind(self.bytes.as_slice(), self.done);
        let count = buf.len().min(rest.len()).min(self.most);
        buf[..count].copy_from_slice(&rest[..count]);
        self.done += count;
        Ok(count)
    }
}

/// A sink with room for so many bytes. Of its calls, those on empty pieces aside, the ones that `fails`
/// numbers from 0 fail, and so do those that find no room left. Each of the others takes as many bytes as
/// there is room for, but at most `most`.
#[derive(Debug, Drop)]
pub struct MemSink {
    written: Vec<u8>,
    room: usize,
    most: usize,
    fails: Items<u64>,
    calls: u64,
    faults: u64,
}

impl Model for MemSink {
    ghost use Rattle.std.specs.Prelude.{◌-◌, ◌≤◌, ◌+◌, vec_capacity, vec_len};
    ghost use Rattle.tok_base.specs.Memory.{SinkState};

    ghost Value = { SinkState };

    ghost view = { λ s. record { written = s.written.items; room = s.room; most = s.most; fails = s.fails; calls = s.calls; faults = s.faults } };

    ghost invariant = { λ s. (vec_len s.written + s.room ≤ vec_capacity s.written) × (1 ≤ s.most) };
}

impl MemSink {
    /// An empty sink with room for `room` bytes, each call of which takes as many as there is room for.
    pub fn new(alloc: Global, room: u64, fails: Items<u64>) -> Result<MemSink, NoMemory>
        ensures { IfOk result (λ s. s ≡ record { written = []; room = room; most = 2 ^ 64 - 1; fails = fails; calls = 0; faults = 0 }) }
    {
        let room = room as usize;
        let written = Vec::with_capacity(alloc, room)?;
        Ok(MemSink {
            written,
            room,
            most: usize::MAX,
            fails,
            calls: 0,
            faults: 0,
        })
    }

    /// An empty sink with room for `room` bytes, each call of which takes at most `most`.
    pub fn slow(alloc: Global, room: u64, fails: Items<u64>, most: u32) -> Result<MemSink, NoMemory>
        requires { 1 ≤ most }
        ensures { IfOk result (λ s. s ≡ record { written = []; room = room; most = most; fails = fails; calls = 0; faults = 0 }) }
    {
        let room = room as usize;
        let written = Vec::with_capacity(alloc, room)?;
        Ok(MemSink {
            written,
            room,
            most: most as usize,
            fails,
            calls: 0,
            faults: 0,
        })
    }

    /// The bytes written so far.
    pub fn bytes(&self) -> &[u8]
        ensures { result.now ≡ self.now.written }
    {
        self.written.as_slice()
    }
}

impl Sink for MemSink {
    ghost use Rattle.std.specs.Prelude.{Some};

    ghost written = { λ s. Some s.written };

    ghost faults = { λ s. s.faults };

    fn write(&mut self, bytes: &[u8]) -> Result<usize, Failed>
        ensures bound { IfOk result (λ n. n ≤ length bytes.now) }
        ensures progress { IfOk result (λ n. bytes.now ≢ [] → 1 ≤ n) }
        ensures empty { bytes.now ≡ [] → result ≡ Ok 0 }
        ensures bytes { WriteAppends (Some self.old.written) (Some self.new.written) result bytes.now }
        ensures cause { HasCause self.old.faults self.new.faults result }
        ensures exact { MatchResult result (λ n. taken self.old bytes.now ≡ Some n) (λ _. taken self.old bytes.now ≡ None) }
        ensures after { self.new ≡ after_write self.old bytes.now }
    {
        if bytes.is_empty() {
            return Ok(0);
        }
        let fails = self.room == 0 || is_to_fail(&self.fails, self.calls);
        self.calls = self.calls.saturating_add(1);
        if fails {
            self.faults = self.faults.saturating_add(1);
            return Err(Failed);
        }
        let count = bytes.len().min(self.room).min(self.most);
        self.written.extend_from_slice(&bytes[..count]).unwrap();
        self.room -= count;
        Ok(count)
    }
}

/// Files in memory. Of the reads, the ones that `fails` numbers from 0 fail, and so do those of names that
/// it does not hold. Of several files of one name the first counts.
#[derive(Debug, Drop)]
pub struct MemFiles {
    files: Items<(Bytes, Bytes)>,
    fails: Items<u64>,
    calls: u64,
    faults: u64,
    failed: Option<Bytes>,
}

impl Model for MemFiles {
    ghost use Rattle.tok_base.specs.Memory.{FilesState};

    ghost Value = { FilesState };

    ghost view = { λ s. record { files = s.files; fails = s.fails; calls = s.calls; faults = s.faults; failed = s.failed } };
}

impl MemFiles {
    /// These files, by name.
    pub fn new(files: Items<(Bytes, Bytes)>, fails: Items<u64>) -> MemFiles
        ensures { result ≡ record { files = files; fails = fails; calls = 0; faults = 0; failed = None } }
    {
        MemFiles {
            files,
            fails,
            calls: 0,
            faults: 0,
            failed: None,
        }
    }

    /// The bytes of the first file of this name.
    fn find(&self, name: &[u8]) -> Option<&Bytes>
        ensures { option_copied result ≡ bytes_of self.now.files name.now }
    {
        let files = self.files.as_slice();
        let file = files.iter().find(|file| file.0.as_slice() == name)?;
        Some(&file.1)
    }

    /// What this read finds, unless it is to fail.
    fn found(&self, name: &[u8]) -> Option<&Bytes>
        ensures { option_copied result ≡ found self.now name.now }
    {
        if is_to_fail(&self.fails, self.calls) {
            None
        } else {
            self.find(name)
        }
    }
}

impl Files for MemFiles {
    ghost use Rattle.std.specs.Prelude.{Some};
    ghost use Rattle.tok_base.specs.Memory.{bytes_of, tally_of};

    ghost contents = { λ s. Some (bytes_of s.files) };

    ghost tally = { tally_of };

    /// Each call is counted, also one that finds no memory for the copy of the name.
    fn read(&mut self, alloc: Global, name: &[u8], limit: u64) -> Result<Bytes, ReadEnd>
        ensures limit { IfOk result (λ bytes. length bytes ≤ limit) }
        ensures bytes { Finds (bytes_of self.old.files) name.now limit result }
        ensures same { self.new.files ≡ self.old.files }
        ensures later { self.old.faults ≤ self.new.faults }
        ensures marks { Marks (tally_of self.old) (tally_of self.new) name.now result }
        ensures exact { Answers (answer_of (found self.old name.now) limit) result }
        ensures after { self.new ≡ after_file_read self.old name.now result }
    {
        let copy = Items::from_slice(alloc, name);
        let found = self.found(name);
        let read = match found {
            None => Err(ReadEnd::Fault),
            Some(bytes) if bytes.len() as u64 > limit => Err(ReadEnd::TooLong),
            Some(bytes) => Items::from_slice(alloc, bytes.as_slice()).map_err(
                |_| ReadEnd::NoMemory,
            ),
        };
        self.calls = self.calls.saturating_add(1);
        let copy = copy?;
        if let Err(ReadEnd::Fault) = read {
            self.faults = self.faults.saturating_add(1);
            self.failed = Some(copy);
        }
        read
    }
}
