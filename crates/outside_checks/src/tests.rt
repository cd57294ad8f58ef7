//! Tables of calls on objects in memory, and each adapter over the real thing.

use super::takes_whole;
use chacha_words::ChaChaWords;
use std::alloc::Global;
use std::fs::File;
use std::io;
use std::io::Write;
use std::process::Abort;
use std::test::Fail;
use tok_base::{
    Bytes, Failed, Files, FixedWords, Gate, Items, MemFiles, MemSink, MemSource, NoGate, NoMemory,
    ReadEnd, RealFiles, RealSink, RealSource, Reason, Reserved, Sink, Source, Span, Status,
    TraceRule, UnitFault, Which, Words, read_whole, write_whole,
};

fn sink(alloc: Global, room: u64, fail: u64) -> Result<MemSink, NoMemory> {
    let fails = Items::from_slice(alloc, &[fail])?;
    MemSink::new(alloc, room, fails)
}

fn slow_sink(alloc: Global, room: u64, fail: u64) -> Result<MemSink, NoMemory> {
    let fails = Items::from_slice(alloc, &[fail])?;
    MemSink::slow(alloc, room, fails, 1)
}

fn assert_written(
    rt: &impl Abort,
    sink: Result<MemSink, NoMemory>,
    piece: &str,
    written: &str,
    whole: bool,
) {
    match sink {
        Ok(mut sink) => {
            assert_eq!(rt; takes_whole(&mut sink, piece.as_bytes()), whole);
            assert_eq!(rt; sink.write(b""), Ok(0));
            assert_eq!(rt; sink.bytes(), written.as_bytes());
        }
        Err(NoMemory) => assert!(rt; false),
    }
}

fn read_at_once(alloc: Global, bytes: &str, fail: u64, limit: u64) -> Result<Bytes, ReadEnd> {
    let bytes = Items::from_slice(alloc, bytes.as_bytes())?;
    let fails = Items::from_slice(alloc, &[fail])?;
    let mut source = MemSource::new(bytes, fails);
    read_whole(alloc, &mut source, limit)
}

fn read_slowly(alloc: Global, bytes: &str, fail: u64, limit: u64) -> Result<Bytes, ReadEnd> {
    let bytes = Items::from_slice(alloc, bytes.as_bytes())?;
    let fails = Items::from_slice(alloc, &[fail])?;
    let mut source = MemSource::slow(bytes, fails, 1);
    read_whole(alloc, &mut source, limit)
}

fn assert_read(rt: &impl Abort, read: Result<Bytes, ReadEnd>, bytes: &[u8], end: Option<ReadEnd>) {
    match read {
        Ok(read) => {
            assert_eq!(rt; end, None);
            assert_eq!(rt; read.as_slice(), bytes);
        }
        Err(why) => assert_eq!(rt; Some(why), end),
    }
}

/// The room, the call that is to fail, the text, what is then written, and whether it is the whole text.
const SINKS: [(u64, u64, &str, &str, bool); 5] = [
    (8, 9, "abcdefgh", "abcdefgh", true),
    (4, 9, "abcdef", "abcd", false),
    (8, 0, "a", "", false),
    (8, 1, "abcd", "abcd", true),
    (0, 9, "", "", true),
];

const SLOW_SINKS: [(u64, u64, &str, &str, bool); 4] = [
    (8, 9, "abcd", "abcd", true),
    (8, 2, "abcd", "ab", false),
    (3, 9, "abcd", "abc", false),
    (8, 4, "abcd", "abcd", true),
];

/// The bytes, the call that is to fail, the limit, and the error.
const SOURCES: [(&str, u64, u64, Option<ReadEnd>); 6] = [
    ("abcdef", 9, 6, None),
    ("abcdef", 9, 5, Some(ReadEnd::TooLong)),
    ("abcdef", 0, 6, Some(ReadEnd::Fault)),
    ("abcdef", 1, 6, Some(ReadEnd::Fault)),
    ("abcdef", 2, 6, None),
    ("", 9, 0, None),
];

const SLOW_SOURCES: [(&str, u64, u64, Option<ReadEnd>); 6] = [
    ("abcdef", 9, 6, None),
    ("abcdef", 7, 6, None),
    ("abcdef", 6, 6, Some(ReadEnd::Fault)),
    ("abcdef", 3, 6, Some(ReadEnd::Fault)),
    ("abcdef", 6, 5, Some(ReadEnd::TooLong)),
    ("a", 9, 0, Some(ReadEnd::TooLong)),
];

#[test]
fn sinks_and_sources_in_memory_keep_to_their_tables(rt: HostRuntime) {
    let alloc = rt.alloc();
    for (room, fail, piece, written, whole) in &SINKS {
        assert_written(&rt, sink(alloc, *room, *fail), piece, written, *whole);
    }
    for (room, fail, piece, written, whole) in &SLOW_SINKS {
        assert_written(&rt, slow_sink(alloc, *room, *fail), piece, written, *whole);
    }
    for (bytes, fail, limit, end) in &SOURCES {
        assert_read(
            &rt,
            read_at_once(alloc, bytes, *fail, *limit),
            bytes.as_bytes(),
            *end,
        );
    }
    for (bytes, fail, limit, end) in &SLOW_SOURCES {
        assert_read(
            &rt,
            read_slowly(alloc, bytes, *fail, *limit),
            bytes.as_bytes(),
            *end,
        );
    }
}

/// Writes into room for four bytes, of which the second is to fail, and what each answers.
const WRITES: [(&str, Result<usize, Failed>); 5] = [
    ("ab", Ok(2)),
    ("", Ok(0)),
    ("c", Err(Failed)),
    ("def", Ok(2)),
    ("g", Err(Failed)),
];

#[test]
fn each_write_answers_what_the_sink_took(rt: HostRuntime) {
    match sink(rt.alloc(), 4, 1) {
        Ok(mut sink) => {
            for (piece, answer) in &WRITES {
                assert_eq!(rt; sink.write(piece.as_bytes()), *answer);
            }
            assert_eq!(rt; sink.bytes(), b"abde".as_slice());
        }
        Err(NoMemory) => assert!(rt; false),
    }
}

fn two_files(alloc: Global) -> Result<MemFiles, NoMemory> {
    let mut files = Items::new(alloc);
    let name = Items::from_slice(alloc, b"a.c")?;
    files.push((name, Items::from_slice(alloc, b"int x;")?))?;
    let name = Items::from_slice(alloc, b"b.c")?;
    files.push((name, Items::new(alloc)))?;
    let fails = Items::from_slice(alloc, &[4])?;
    Ok(MemFiles::new(files, fails))
}

/// Reads of files, of which the fifth is to fail: the name, the limit, and the bytes or the error.
const FILES: [(&str, u64, &str, Option<ReadEnd>); 6] = [
    ("a.c", 6, "int x;", None),
    ("b.c", 0, "", None),
    ("a.c", 5, "", Some(ReadEnd::TooLong)),
    ("c.c", 5, "", Some(ReadEnd::Fault)),
    ("a.c", 5, "", Some(ReadEnd::Fault)),
    ("a.c", 6, "int x;", None),
];

#[test]
fn files_in_memory_keep_to_their_table(rt: HostRuntime) {
    let alloc = rt.alloc();
    match two_files(alloc) {
        Ok(mut files) => {
            for (name, limit, bytes, end) in &FILES {
                let read = files.read(alloc, name.as_bytes(), *limit);
                assert_read(&rt, read, bytes.as_bytes(), *end);
            }
        }
        Err(NoMemory) => assert!(rt; false),
    }
}

const PLACE: Span = Span { start: 1, end: 2 };

/// Each status and its number.
const CODES: [(Status, u8); 25] = [
    (Status::Done, 0),
    (Status::Usage, 2),
    (Status::FileFault, 3),
    (Status::ReadFault, 4),
    (Status::WriteFault, 5),
    (Status::TooLong(Which::Unit), 6),
    (Status::TooLong(Which::Input), 6),
    (Status::Lex(3), 7),
    (Status::Syntax(3), 8),
    (Status::Check(3, PLACE), 9),
    (Status::NoMemory, 10),
    (Status::Trap(Reason::Null, PLACE), 11),
    (Status::Spent, 12),
    (Status::StackFull, 13),
    (Status::OutputFull, 14),
    (Status::TooDeep, 15),
    (Status::ReservedName(PLACE), 16),
    (Status::Stateful(PLACE), 17),
    (Status::BadTrace(1, TraceRule::Form), 18),
    (Status::Clash(1, PLACE), 21),
    (Status::NoMain, 22),
    (Status::NoBlock, 23),
    (Status::InUnit(1, UnitFault::TooLong), 6),
    (Status::InUnit(1, UnitFault::Check(3, PLACE)), 9),
    (Status::InUnit(1, UnitFault::TooDeep), 15),
];

#[test]
fn each_status_has_its_number(rt: HostRuntime) {
    for (status, code) in &CODES {
        assert_eq!(rt; status.code(), *code);
    }
}

#[test]
fn lists_words_and_gates_do_what_they_say(rt: HostRuntime) -> Result<(), Fail> {
    let alloc = rt.alloc();
    let mut list = Reserved::with_room(alloc, 2).map_err(|_| "no memory")?;
    list.push(7u32);
    list.push(8);
    list.set(0, 9);
    assert_eq!(rt; list.as_slice(), [9, 8].as_slice());
    assert_eq!(rt; list.len(), 2);
    assert_eq!(rt; list.get(1), Some(&8));
    list.clear();
    list.reserve(3).map_err(|_| "no memory")?;
    assert!(rt; list.room() >= 3);
    list.push(5);
    assert_eq!(rt; list.into_items().as_slice(), [5].as_slice());
    let words = FixedWords::new(Items::from_slice(alloc, &[5, 17])?);
    for (k, word) in &[(0, 5), (1, 17), (2, 5), (5, 17)] {
        assert_eq!(rt; words.word(9, *k), *word);
    }
    assert_eq!(rt; FixedWords::new(Items::new(alloc)).word(0, 3), 0);
    NoGate.before(0, 0);
    NoGate.inside(0, 0);
    Ok(())
}

/// A file that takes one byte of each piece.
#[derive(Drop)]
struct ByOne {
    file: File,
}

impl Write for ByOne {
    fn write(&mut self, piece: &[u8]) -> io::Result<usize> {
        let count = piece.len().min(1);
        self.file.write(&piece[..count])
    }

    fn flush(&mut self) -> io::Result<()> {
        self.file.flush()
    }
}

#[test]
fn a_short_write_is_not_the_whole(rt: HostRuntime) -> Result<(), Fail> {
    let file = File::create(&rt, "a.txt")?;
    let mut sink = RealSink::new(ByOne { file });
    assert_eq!(rt; sink.write(b"some "), Ok(1));
    assert_eq!(rt; sink.write(b""), Ok(0));
    assert!(rt; write_whole(&mut sink, b"ome text").is_ok());
    let mut files = RealFiles::new(&rt);
    let read = files.read(rt.alloc(), b"a.txt", 9);
    assert_read(&rt, read, b"some text", None);
    Ok(())
}

/// Reads of files of the machine: the name, the limit, and the error.
const REAL_FILES: [(&[u8], u64, Option<ReadEnd>); 5] = [
    (b"a.txt", 9, None),
    (b"a.txt", 8, Some(ReadEnd::TooLong)),
    (b"a.txt", 0, Some(ReadEnd::TooLong)),
    (b"missing.txt", 8, Some(ReadEnd::Fault)),
    (b"\xff", 8, Some(ReadEnd::Fault)),
];

#[test]
fn real_files_and_sources_do_the_same(rt: HostRuntime) -> Result<(), Fail> {
    let alloc = rt.alloc();
    let mut sink = RealSink::new(File::create(&rt, "a.txt")?);
    assert!(rt; write_whole(&mut sink, b"some text").is_ok());
    let mut files = RealFiles::new(&rt);
    for (name, limit, end) in &REAL_FILES {
        assert_read(&rt, files.read(alloc, name, *limit), b"some text", *end);
    }
    let mut source = RealSource::new(File::open(&rt, "a.txt")?);
    let mut first = [0; 1];
    assert_eq!(rt; source.read(&mut []), Ok(0));
    assert_eq!(rt; source.read(&mut first), Ok(1));
    assert_read(&rt, read_whole(alloc, &mut source, 8), b"ome text", None);
    let mut long = RealSource::new(File::open(&rt, "a.txt")?);
    assert_read(
        &rt,
        read_whole(alloc, &mut long, 8),
        b"",
        Some(ReadEnd::TooLong),
    );
    let mut unreadable = RealSource::new(File::create(&rt, "b.txt")?);
    assert_eq!(rt; unreadable.read(&mut first), Err(Failed));
    Ok(())
}

/// Seed, number of the word, and the word, as the ChaCha20 of OpenSSL has them.
const WORDS: [(u64, u64, u64); 12] = [
    (0x0, 0x0, 0x903df1a0ade0b876),
    (0x0, 0x1, 0x28bd8653e56a5d40),
    (0x0, 0x7, 0x8665eeb269b687c3),
    (0x0, 0x8, 0x7a385155bee7079f),
    (0x0, 0x1f, 0x7e1667316c1e6ae8),
    (0x0, 0x20, 0xadc5472b7488a6e5),
    (0x1, 0x0, 0x9311ece17c0ad3c5),
    (0x2a, 0x3, 0x2666a8a4f7a882dc),
    (0x100, 0x0, 0x789c00210e34f4d2),
    (0x123456789abcdef, 0x2, 0xf8d5a067ad4088c7),
    (0xffffffffffffffff, 0xf4243, 0xf572bea96b5dc639),
    (0x7, 0x7ffffffff, 0xb500db0b260af9c6),
];

#[test]
fn each_word_is_that_of_the_key_stream(rt: HostRuntime) {
    for (seed, k, word) in &WORDS {
        assert_eq!(rt; ChaChaWords.word(*seed, *k), *word);
    }
}
