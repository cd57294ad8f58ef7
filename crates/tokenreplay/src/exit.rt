//! From what the process is given to how it ends.

ghost use Rattle.std.specs.Process.{exit_status};
ghost use Rattle.tokenreplay.specs.Course.{change};
ghost use Rattle.tokenreplay.specs.Exit.{Exits};

use crate::run::replay_main;
use command_line::{exit_of, words_of};
use std::alloc::Global;
use std::env::Args;
use std::io;
use std::process::ExitCode;
use std::thread::Threads;
use tok_base::{Files, Gate, NoMemory, Sink, Status};

/// All that `main` does with what it is given: the arguments of the process, the files, and as sinks standard
/// output and standard error. The program runs on the arguments behind the first, byte for byte, and the exit
/// status is the number of the status that it answers.
pub fn exit_code<R: Threads + Sync, F: Files, O: Sink, E: Sink, G: Gate + Sync>(
    rt: &R,
    alloc: Global,
    args: io::Result<Args>,
    files: &mut F,
    out: &mut O,
    report: &mut E,
    gate: &G,
) -> ExitCode
    ensures { Exits args (F.contents files.old) (F.tally files.old) (F.tally files.new) (exit_status result)
        (change (O.written out.old) (O.faults out.old) (O.written out.new) (O.faults out.new))
        (change (E.written report.old) (E.faults report.old) (E.written report.new) (E.faults report.new)) }
{
    match words_of(alloc, args) {
        Ok(words) => exit_of(&replay_main(rt, alloc, &words, files, out, report, gate)),
        Err(NoMemory) => exit_of(&Status::NoMemory),
    }
}
