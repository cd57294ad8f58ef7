//! What a text comes to.

ghost use Rattle.trace_format.specs.WellFormed.{WellFormed};

use std::alloc::Global;
use tok_base::{NoMemory, TraceRule};
use trace_format::{Trace, TraceEnd, phases, read_trace, write_trace};
use trace_replay::{replay_alone, report_text};

fn name_of(rule: TraceRule) -> &'static str {
    match rule {
        TraceRule::Many => "Many",
        TraceRule::Form => "Form",
        TraceRule::Range => "Range",
        TraceRule::Name => "Name",
        TraceRule::Freed => "Freed",
    }
}

/// The bytes, with `|` for a line end.
fn push_shown(text: &mut String, bytes: &[u8]) -> Result<(), NoMemory> {
    for b in bytes {
        text.push(if *b == b'\n' { '|' } else { char::from(*b) })?;
    }
    Ok(())
}

/// The text of a trace, its phases and the report of its replay.
fn shown(alloc: Global, trace: &Trace) -> Result<String, NoMemory>
    requires { WellFormed trace.now }
{
    let mut text = String::new(alloc);
    push_shown(&mut text, write_trace(alloc, trace)?.as_slice())?;
    for phase in phases(alloc, trace)?.as_slice() {
        text.push_str(format!(in alloc; " {}..{}", phase.start, phase.end)?.as_str())?;
    }
    text.push(' ')?;
    let histories = replay_alone(alloc, trace)?;
    push_shown(&mut text, report_text(alloc, &histories)?.as_slice())?;
    Ok(text)
}

/// How many events and phases a trace has, and how many bytes the report of its replay.
fn counted(alloc: Global, trace: &Trace) -> Result<String, NoMemory>
    requires { WellFormed trace.now }
{
    let found = phases(alloc, trace)?;
    let histories = replay_alone(alloc, trace)?;
    let report = report_text(alloc, &histories)?;
    Ok(format!(in alloc;
        "{} events, {} phases, {} bytes",
        trace.events.len(),
        found.len(),
        report.len()
    )?)
}

fn broken(alloc: Global, end: TraceEnd) -> Result<String, NoMemory> {
    match end {
        TraceEnd::Line(number, rule) => Ok(format!(in alloc; "line {number}: {}", name_of(rule))?),
        TraceEnd::NoMemory => Err(NoMemory),
    }
}

/// All that a text comes to.
pub fn whole(alloc: Global, text: &[u8]) -> Result<String, NoMemory> {
    match read_trace(alloc, text) {
        Ok(trace) => shown(alloc, &trace),
        Err(end) => broken(alloc, end),
    }
}

/// What a long text comes to, in short.
pub fn long(alloc: Global, text: &[u8]) -> Result<String, NoMemory> {
    match read_trace(alloc, text) {
        Ok(trace) => counted(alloc, &trace),
        Err(end) => broken(alloc, end),
    }
}
