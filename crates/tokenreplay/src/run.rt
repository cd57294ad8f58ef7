//! The whole program over the objects that it is handed.

ghost use Rattle.std.specs.Prelude.{◌≡◌, ◌≢◌, ◌⊎◌, ◌++◌, [], ◌∷◌, ℕ, List, Some, None, IfOk, decimal, codes};
ghost use Rattle.std.specs.Io.KnownBytes.{Appends};
ghost use Rattle.tok_base.specs.Fault.{Rose};
ghost use Rattle.tok_base.specs.Files.{Contents};
ghost use Rattle.tokenreplay.specs.Course as asked;
ghost use Rattle.tokenreplay.specs.Course.{IsBroken, IsDue, NamesText, NamesTooLong, Reports, Runs, Writes, change, line_of, rule_name};
ghost use Rattle.tokenreplay.specs.Reading.{Tells, WritesOrTells};

use crate::course::{Refusal, course};
use itoa::Buffer;
use std::alloc::{AllocError, Global};
use std::thread::Threads;
use tok_base::{Bytes, Files, Gate, Items, Sink, Status, TraceRule, Which, write_whole};

/// Writes on a sink; the status is `good` where all was written.
fn write_on<S: Sink>(sink: &mut S, bytes: &[u8], good: Status) -> Status
    ensures { Writes result good (change (S.written sink.old) (S.faults sink.old) (S.written sink.new) (S.faults sink.new)) bytes.now }
{
    match write_whole(sink, bytes) {
        Ok(()) => good,
        Err(_) => Status::WriteFault,
    }
}

/// The name of a rule.
fn rule_name(rule: TraceRule) -> &'static [u8]
    ensures { result.now ≡ rule_name rule }
{
    match rule {
        TraceRule::Many => b"Many",
        TraceRule::Form => b"Form",
        TraceRule::Range => b"Range",
        TraceRule::Name => b"Name",
        TraceRule::Freed => b"Freed",
    }
}

/// The line of a broken trace.
fn broken_line(alloc: Global, number: u32, rule: TraceRule) -> Result<Bytes, AllocError>
    ensures { IfOk result (λ line. line ≡ codes "trace line " ++ decimal number ++ codes ": " ++ rule_name rule ++ 10 ∷ []) }
{
    let mut buffer = Buffer::new();
    let mut line = Vec::from_slice(alloc, b"trace line ")?;
    line.extend_from_slice(buffer.format(number).as_bytes())?;
    line.extend_from_slice(b": ")?;
    line.extend_from_slice(rule_name(rule))?;
    line.push(b'\n')?;
    Ok(Items::from_vec(line))
}

/// Writes the line of a broken trace on a sink, or that there was no memory for it.
fn write_broken<S: Sink>(alloc: Global, sink: &mut S, number: u32, rule: TraceRule) -> Status
    ensures { WritesOrTells result (Status.BadTrace number rule) (change (S.written sink.old) (S.faults sink.old) (S.written sink.new) (S.faults sink.new)) (line_of (Status.BadTrace number rule)) }
{
    match broken_line(alloc, number, rule) {
        Ok(line) => write_on(sink, line.as_slice(), Status::BadTrace(number, rule)),
        Err(_) => write_on(sink, b"no memory\n", Status::NoMemory),
    }
}

/// Writes the line of a refusal.
fn refuse<S: Sink>(alloc: Global, report: &mut S, refusal: Refusal) -> Status
    ensures { Tells result refusal (change (S.written report.old) (S.faults report.old) (S.written report.new) (S.faults report.new)) }
{
    match refusal {
        Refusal::Usage => write_on(report, b"usage: tokenreplay FILE\n", Status::Usage),
        Refusal::FileFault => write_on(report, b"file fault\n", Status::FileFault),
        Refusal::TooLong => write_on(report, b"unit too long\n", Status::TooLong(Which::Unit)),
        Refusal::BadTrace(number, rule) => write_broken(alloc, report, number, rule),
        Refusal::NoMemory => write_on(report, b"no memory\n", Status::NoMemory),
    }
}

/// Takes the course that the words and the files come to.
fn run<F: Files, O: Sink, E: Sink>(
    alloc: Global,
    words: &Items<Bytes>,
    files: &mut F,
    out: &mut O,
    report: &mut E,
) -> Status
    ensures { Runs words.now (F.contents files.old) (F.tally files.old) (F.tally files.new) result
        (change (O.written out.old) (O.faults out.old) (O.written out.new) (O.faults out.new))
        (change (E.written report.old) (E.faults report.old) (E.written report.new) (E.faults report.new)) }
{
    match course(alloc, words, files) {
        Ok(text) => write_on(out, text.as_slice(), Status::Done),
        Err(refusal) => refuse(alloc, report, refusal),
    }
}

/// The program: `words` are those of the command line without the program's name, as bytes. It replays the trace of
/// the file that they name, writes the report on `out`, or a refusal's line on `report`, and says how it ended. The
/// events are made one after another, in one thread, and the gate is told of none of them. Want of memory may be
/// answered at any time; nothing was written on `out` then.
pub fn replay_main<R: Threads + Sync, F: Files, O: Sink, E: Sink, G: Gate + Sync>(
    _rt: &R,
    alloc: Global,
    words: &Items<Bytes>,
    files: &mut F,
    out: &mut O,
    report: &mut E,
    _gate: &G,
) -> Status
    // All of it: the course that the words and the files come to, and how far it got.
    ensures runs { Runs words.now (F.contents files.old) (F.tally files.old) (F.tally files.new) result
        (change (O.written out.old) (O.faults out.old) (O.written out.new) (O.faults out.new))
        (change (E.written report.old) (E.faults report.old) (E.written report.new) (E.faults report.new)) }

    // Where nothing fails, the due status is answered and the due bytes are written.
    ensures due { (all : Contents) → F.contents files.old ≡ Some all → (Rose (F.tally files.old).faults (F.tally files.new).faults → ⊥)
        → (Rose (O.faults out.old) (O.faults out.new) → ⊥) → (Rose (E.faults report.old) (E.faults report.new) → ⊥)
        → result ≢ Status.NoMemory → IsDue words.now all result
        (change (O.written out.old) (O.faults out.old) (O.written out.new) (O.faults out.new))
        (change (E.written report.old) (E.faults report.old) (E.written report.new) (E.faults report.new)) }

    // Where a report was written, it is that of a replay of the trace.
    ensures reports { result ≡ Status.Done → Reports words.now (F.contents files.old)
        (change (O.written out.old) (O.faults out.old) (O.written out.new) (O.faults out.new)) }

    // Each refusal has its cause.
    ensures usage { result ≡ Status.Usage → asked.file_of words.now ≡ None }
    ensures usage_only { asked.file_of words.now ≡ None → (result ≡ Status.Usage) ⊎ ((result ≡ Status.WriteFault) ⊎ (result ≡ Status.NoMemory)) }
    ensures file_fault { result ≡ Status.FileFault → (name : List ℕ) × (asked.file_of words.now ≡ Some name)
        × Rose (F.tally files.old).faults (F.tally files.new).faults × ((F.tally files.new).failed ≡ Some name) }
    ensures too_long { (which : Which) → result ≡ Status.TooLong which → (which ≡ Which.Unit) × NamesTooLong words.now (F.contents files.old) }
    ensures bad_trace { (i : ℕ) → (rule : TraceRule) → result ≡ Status.BadTrace i rule → NamesText words.now (F.contents files.old) (IsBroken i rule) }
    ensures write_fault { result ≡ Status.WriteFault → Rose (O.faults out.old) (O.faults out.new) ⊎ Rose (E.faults report.old) (E.faults report.new) }

    // After a refusal, report holds its line and no more, and nothing was written on out.
    ensures refused { result ≢ Status.Done → result ≢ Status.WriteFault →
        Appends (E.written report.old) (E.written report.new) (line_of result) × (O.written out.new ≡ O.written out.old) }

    // No fault is passed over.
    ensures files_kept { result ≢ Status.FileFault → result ≢ Status.WriteFault → F.tally files.new ≡ F.tally files.old }
    ensures sinks_kept { result ≢ Status.WriteFault → (O.faults out.new ≡ O.faults out.old) × (E.faults report.new ≡ E.faults report.old) }
{
    run(alloc, words, files, out, report)
}
