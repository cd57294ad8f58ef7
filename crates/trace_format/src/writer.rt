//! From a trace to its text.

ghost use Rattle.std.specs.Prelude.{◌≡◌, ◌++◌, decimal, OnOk, IfOk};
ghost use Rattle.trace_format.specs.Text.{event_text, header_text, mode_text, ranges_text, settings_text, trace_text, workers_text};

use crate::trace::{Event, Trace};
use itoa::Buffer;
use std::alloc::{AllocError, Global};
use tok_base::{Bytes, Items, NoMemory};
use token_modes::Mode;

/// The text of a trace: a line for each event behind the four lines of the header.
pub fn write_trace(alloc: Global, trace: &Trace) -> Result<Bytes, NoMemory>
    ensures { IfOk result (λ text. text ≡ trace_text trace.now) }
{
    let mut text = Vec::new(alloc);
    write_header(&mut text, trace)?;
    for event in trace.events.as_slice() {
        write_event(&mut text, event)?;
    }
    Ok(Items::from_vec(text))
}

/// Appends a text and a number.
fn write_number(text: &mut Vec<u8>, lead: &[u8], value: u64) -> Result<(), AllocError>
    ensures { OnOk result (text.new.items ≡ text.old.items ++ lead.now ++ decimal value) }
{
    let mut buffer = Buffer::new();
    text.extend_from_slice(lead)?;
    text.extend_from_slice(buffer.format(value).as_bytes())
}

/// Appends the four lines of the header.
fn write_header(text: &mut Vec<u8>, trace: &Trace) -> Result<(), AllocError>
    ensures { OnOk result (text.new.items ≡ text.old.items ++ header_text trace.now) }
{
    text.extend_from_slice(b"alloctoken-trace 1\n")?;
    write_settings(text, trace)
}

/// Appends the lines of the ranges, of the mode and of the workers.
fn write_settings(text: &mut Vec<u8>, trace: &Trace) -> Result<(), AllocError>
    ensures { OnOk result (text.new.items ≡ text.old.items ++ settings_text trace.now) }
{
    write_ranges(text, trace.count, trace.size)?;
    write_mode(text, trace.mode)?;
    write_workers(text, trace.workers)
}

/// Appends the line of the ranges.
fn write_ranges(text: &mut Vec<u8>, count: u32, size: u32) -> Result<(), AllocError>
    ensures { OnOk result (text.new.items ≡ text.old.items ++ ranges_text count size) }
{
    write_number(text, b"ranges ", u64::from(count))?;
    write_number(text, b" ", u64::from(size))?;
    text.extend_from_slice(b"\n")
}

/// Appends the line of the mode.
fn write_mode(text: &mut Vec<u8>, mode: Mode) -> Result<(), AllocError>
    ensures { OnOk result (text.new.items ≡ text.old.items ++ mode_text mode) }
{
    text.extend_from_slice(b"mode ")?;
    text.extend_from_slice(mode.name().as_bytes())?;
    text.extend_from_slice(b"\n")
}

/// Appends the line of the workers.
fn write_workers(text: &mut Vec<u8>, workers: u32) -> Result<(), AllocError>
    ensures { OnOk result (text.new.items ≡ text.old.items ++ workers_text workers) }
{
    write_number(text, b"workers ", u64::from(workers))?;
    text.extend_from_slice(b"\n")
}

/// Appends the line of an event.
fn write_event(text: &mut Vec<u8>, event: &Event) -> Result<(), AllocError>
    ensures { OnOk result (text.new.items ≡ text.old.items ++ event_text event.now) }
{
    match *event {
        Event::Alloc {
            worker,
            name,
            token,
            size,
        } => {
            write_number(text, b"a ", u64::from(worker))?;
            write_number(text, b" ", u64::from(name))?;
            write_number(text, b" ", u64::from(token))?;
            write_number(text, b" ", size)?;
        }
        Event::Free { worker, name } => {
            write_number(text, b"f ", u64::from(worker))?;
            write_number(text, b" ", u64::from(name))?;
        }
    }
    text.extend_from_slice(b"\n")
}
