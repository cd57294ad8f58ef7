//! What a run comes to: the report that is to be written, or a refusal.

ghost use Rattle.std.specs.Prelude.{◌≡◌, IfOk};
ghost use Rattle.std.specs.Option.{option_copied};
ghost use Rattle.trace_format.specs.WellFormed.{WellFormed};
ghost use Rattle.tokenreplay.specs.Course as asked;
ghost use Rattle.tokenreplay.specs.Reading.{IsReport, ReadsFile, Replays, Serves, Takes, refusal_of};

use std::alloc::Global;
use tok_base::{Bytes, Files, Items, NoMemory, ReadEnd, TraceRule};
use trace_format::{Trace, TraceEnd, read_trace};
use trace_replay::{replay_alone, report_text};

/// The most bytes of a trace.
const TRACE_LIMIT: u64 = 67108864;

/// Why a run writes no report.
#[derive(Clone, Copy, Debug, PartialEq, Eq)]
pub enum Refusal {
    /// The words are none that the program takes.
    Usage,
    /// The file could not be read.
    FileFault,
    /// The text has more bytes than a trace may have.
    TooLong,
    /// The line of this number, from 1, is the first that breaks a rule, and this is the first that it breaks.
    BadTrace(u32, TraceRule),
    /// There was no memory.
    NoMemory,
}

fn is_plain(word: &[u8]) -> bool
    ensures { result ≡ asked.is_plain word.now }
{
    match word {
        [] => false,
        [b, ..] => *b != b'-',
    }
}

/// The name of the file that the words ask for; none where they are none that the program takes.
fn file_of(words: &[Bytes]) -> Option<&Bytes>
    ensures { option_copied result ≡ asked.file_of words.now }
{
    match words {
        [word] => {
            if is_plain(word.as_slice()) {
                Some(word)
            } else {
                None
            }
        }
        _ => None,
    }
}

/// The bytes of the file, if they are no more than a trace may have.
fn text_of<F: Files>(alloc: Global, files: &mut F, name: &[u8]) -> Result<Bytes, Refusal>
    ensures file { ReadsFile (F.contents files.old) (F.tally files.old) (F.tally files.new) name.now result }
{
    match files.read(alloc, name, TRACE_LIMIT) {
        Ok(text) => Ok(text),
        Err(ReadEnd::Fault) => Err(Refusal::FileFault),
        Err(ReadEnd::TooLong) => Err(Refusal::TooLong),
        Err(ReadEnd::NoMemory) => Err(Refusal::NoMemory),
    }
}

/// The report of a replay of a trace.
fn report_of(alloc: Global, trace: &Trace) -> Result<Bytes, NoMemory>
    requires { WellFormed trace.now }
    ensures { IfOk result (IsReport trace.now) }
{
    let histories = replay_alone(alloc, trace)?;
    let text = report_text(alloc, &histories)?;
    Ok(text)
}

/// Why a text is no trace.
fn refusal_of(end: TraceEnd) -> Refusal
    ensures { result ≡ refusal_of end }
{
    match end {
        TraceEnd::Line(number, rule) => Refusal::BadTrace(number, rule),
        TraceEnd::NoMemory => Refusal::NoMemory,
    }
}

/// The report of the trace that a text is.
fn replayed(alloc: Global, text: &[u8]) -> Result<Bytes, Refusal>
    ensures { Replays text.now result }
{
    match read_trace(alloc, text) {
        Ok(trace) => match report_of(alloc, &trace) {
            Ok(report) => Ok(report),
            Err(NoMemory) => Err(Refusal::NoMemory),
        },
        Err(end) => Err(refusal_of(end)),
    }
}

/// The report that the file asks for.
fn served<F: Files>(alloc: Global, files: &mut F, name: &Bytes) -> Result<Bytes, Refusal>
    ensures { Serves name.now (F.contents files.old) (F.tally files.old) (F.tally files.new) result }
{
    match text_of(alloc, files, name.as_slice()) {
        Ok(text) => replayed(alloc, text.as_slice()),
        Err(refusal) => Err(refusal),
    }
}

/// The report that the words ask for.
pub fn course<F: Files>(
    alloc: Global,
    words: &Items<Bytes>,
    files: &mut F,
) -> Result<Bytes, Refusal>
    ensures { Takes words.now (F.contents files.old) (F.tally files.old) (F.tally files.new) result }
{
    match file_of(words.as_slice()) {
        Some(name) => served(alloc, files, name),
        None => Err(Refusal::Usage),
    }
}
