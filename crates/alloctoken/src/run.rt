//! The whole program over the objects that it is handed.

ghost use Rattle.std.specs.Prelude.{◌≡◌, ◌≢◌, ◌⊎◌, ◌++◌, [], ◌∷◌, ℕ, List, Some, None, IfOk, IfSome, decimal};
ghost use Rattle.std.specs.Io.KnownBytes.{Appends};
ghost use Rattle.tok_base.specs.Fault.{Rose};
ghost use Rattle.tok_base.specs.Files.{Contents};
ghost use Rattle.c_lexer.specs.Cut.{IsBad};
ghost use Rattle.command_line.specs.declared.options.Options.{Options};
ghost use Rattle.command_line.specs.Options as options;
ghost use Rattle.alloctoken.specs.Course.{Runs, Writes, IsDue, ReadsBack, NamesTooLong, NamesText, GoesWrongAt, GoesTooDeep, change, line_of};
ghost use Rattle.alloctoken.specs.Reading.{Tells, WritesNumbered};

use crate::course::{Refusal, course};
use itoa::Buffer;
use std::alloc::{AllocError, Global};
use tok_base::{Bytes, Files, Items, Sink, Status, Which, write_whole};

/// Writes on a sink; the status is `good` where all was written.
fn write_on<S: Sink>(sink: &mut S, bytes: &[u8], good: Status) -> Status
    ensures { Writes result good (change (S.written sink.old) (S.faults sink.old) (S.written sink.new) (S.faults sink.new)) bytes.now }
{
    match write_whole(sink, bytes) {
        Ok(()) => good,
        Err(_) => Status::WriteFault,
    }
}

/// A line that ends with a number.
fn numbered_line(alloc: Global, text: &[u8], number: u32) -> Result<Bytes, AllocError>
    ensures { IfOk result (λ line. line ≡ text.now ++ decimal number ++ 10 ∷ []) }
{
    let mut buffer = Buffer::new();
    let mut line = Vec::from_slice(alloc, text)?;
    line.extend_from_slice(buffer.format(number).as_bytes())?;
    line.push(b'\n')?;
    Ok(Items::from_vec(line))
}

/// Writes a line that ends with a number on a sink, or that there was no memory for it.
fn write_numbered<S: Sink>(
    alloc: Global,
    sink: &mut S,
    text: &[u8],
    number: u32,
    good: Status,
) -> Status
    ensures { WritesNumbered result good (change (S.written sink.old) (S.faults sink.old) (S.written sink.new) (S.faults sink.new)) (text.now ++ decimal number ++ 10 ∷ []) }
{
    match numbered_line(alloc, text, number) {
        Ok(line) => write_on(sink, line.as_slice(), good),
        Err(_) => write_on(sink, b"no memory\n", Status::NoMemory),
    }
}

/// Writes the line of a refusal.
fn refuse<S: Sink>(alloc: Global, report: &mut S, refusal: Refusal) -> Status
    ensures { Tells result refusal (change (S.written report.old) (S.faults report.old) (S.written report.new) (S.faults report.new)) }
{
    match refusal {
        Refusal::Usage => write_on(
            report,
            b"usage: alloctoken rewrite|tokens|exec|run|sample [options] FILE\n",
            Status::Usage,
        ),
        Refusal::FileFault => write_on(report, b"file fault\n", Status::FileFault),
        Refusal::TooLong => write_on(report, b"unit too long\n", Status::TooLong(Which::Unit)),
        Refusal::Lex(place) => write_numbered(
            alloc,
            report,
            b"bad character at ",
            place,
            Status::Lex(place),
        ),
        Refusal::Syntax(place) => write_numbered(
            alloc,
            report,
            b"syntax at token ",
            place,
            Status::Syntax(place),
        ),
        Refusal::TooDeep => write_on(report, b"too deep\n", Status::TooDeep),
        Refusal::NoMemory => write_on(report, b"no memory\n", Status::NoMemory),
    }
}

/// Takes the course that the words and the files come to.
fn run<F: Files, O: Sink, E: Sink>(
    alloc: Global,
    words: &Items<Bytes>,
    files: &mut F,
    out: &mut O,
    report: &mut E,
) -> Status
    ensures { Runs words.now (F.contents files.old) (F.tally files.old) (F.tally files.new) result
        (change (O.written out.old) (O.faults out.old) (O.written out.new) (O.faults out.new))
        (change (E.written report.old) (E.faults report.old) (E.written report.new) (E.faults report.new)) }
{
    match course(alloc, words, files) {
        Ok(text) => write_on(out, text.as_slice(), Status::Done),
        Err(refusal) => refuse(alloc, report, refusal),
    }
}

/// The program: `words` are those of the command line without the program's name, as bytes. It rewrites the
/// file that they name, writes the text on `out`, or a refusal's line on `report`, and says how it ended.
/// Want of memory may be answered at any time; nothing was written on `out` then.
pub fn alloctoken_main<F: Files, O: Sink, E: Sink>(
    alloc: Global,
    words: &Items<Bytes>,
    files: &mut F,
    out: &mut O,
    report: &mut E,
) -> Status
    // All of it: the course that the words and the files come to, and how far it got.
    ensures runs { Runs words.now (F.contents files.old) (F.tally files.old) (F.tally files.new) result
        (change (O.written out.old) (O.faults out.old) (O.written out.new) (O.faults out.new))
        (change (E.written report.old) (E.faults report.old) (E.written report.new) (E.faults report.new)) }

    // Where nothing fails, the due status is answered and the due bytes are written.
    ensures due { (all : Contents) → F.contents files.old ≡ Some all → (Rose (F.tally files.old).faults (F.tally files.new).faults → ⊥)
        → (Rose (O.faults out.old) (O.faults out.new) → ⊥) → (Rose (E.faults report.old) (E.faults report.new) → ⊥)
        → result ≢ Status.NoMemory → IsDue words.now all result
        (change (O.written out.old) (O.faults out.old) (O.written out.new) (O.faults out.new))
        (change (E.written report.old) (E.faults report.old) (E.written report.new) (E.faults report.new)) }

    // Where the text was written, it reads as the unit with its sites tagged.
    ensures reads_back { result ≡ Status.Done → ReadsBack words.now (F.contents files.old)
        (change (O.written out.old) (O.faults out.old) (O.written out.new) (O.faults out.new)) }

    // Each refusal has its cause.
    ensures usage { result ≡ Status.Usage → options.options_of words.now ≡ None }
    ensures usage_only { options.options_of words.now ≡ None → (result ≡ Status.Usage) ⊎ ((result ≡ Status.WriteFault) ⊎ (result ≡ Status.NoMemory)) }
    ensures file_fault { result ≡ Status.FileFault → (o : Options) × (options.options_of words.now ≡ Some o)
        × Rose (F.tally files.old).faults (F.tally files.new).faults × ((F.tally files.new).failed ≡ Some o.file) }
    ensures too_long { (which : Which) → result ≡ Status.TooLong which → (which ≡ Which.Unit) × NamesTooLong words.now (F.contents files.old) }
    ensures lex { (p : ℕ) → result ≡ Status.Lex p → NamesText words.now (F.contents files.old) (λ text. IsBad text p) }
    ensures syntax { (k : ℕ) → result ≡ Status.Syntax k → NamesText words.now (F.contents files.old) (GoesWrongAt k) }
    ensures too_deep { result ≡ Status.TooDeep → NamesText words.now (F.contents files.old) GoesTooDeep }
    ensures write_fault { result ≡ Status.WriteFault → Rose (O.faults out.old) (O.faults out.new) ⊎ Rose (E.faults report.old) (E.faults report.new) }

    // After a refusal, report holds its line and no more, and nothing was written on out.
    ensures refused { result ≢ Status.Done → result ≢ Status.WriteFault →
        Appends (E.written report.old) (E.written report.new) (line_of result) × (O.written out.new ≡ O.written out.old) }

    // No fault is passed over.
    ensures files_kept { result ≢ Status.FileFault → result ≢ Status.WriteFault → F.tally files.new ≡ F.tally files.old }
    ensures sinks_kept { result ≢ Status.WriteFault → (O.faults out.new ≡ O.faults out.old) × (E.faults report.new ≡ E.faults report.old) }
{
    run(alloc, words, files, out, report)
}
