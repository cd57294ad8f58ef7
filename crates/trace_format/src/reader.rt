//! From a text to its trace.

ghost use Rattle.std.specs.Prelude.{◌≡◌, ◌+◌, ◌≤◌, ◌++◌, ◌∷◌, ◌*◌, ◌%◌, [], true, length, OnOk, IfOk};
ghost use Rattle.trace_format.specs.Lines.{lines};
ghost use Rattle.trace_format.specs.Reading.{event_at, event_of, broken, fitting, events_from, line_at, is_first, ranges_fit, ranges_of, mode_named, workers_of, trace_in, or_form};
ghost use Rattle.trace_format.specs.Seen.{pair_seen, unit_seen};
ghost use Rattle.trace_format.specs.Noted.{Noted, Flags, flags_after, OrNoMemory};
ghost use Rattle.trace_format.specs.WellFormed.{Fits, AllFit, WellFormed};

use crate::lines::{Fields, event_fields, next_line, ranges_fields, workers_fields};
use crate::trace::{Event, Trace, TraceEnd};
use std::alloc::Global;
use tok_base::{Items, NoMemory, TraceRule};
use token_modes::Mode;

/// The number of the last line that may be an event: four lines of a header and 1,000,000 events.
const LAST_LINE: u32 = 1000004;

/// The trace of a text, or the first line that breaks a rule and the first rule that it breaks.
pub fn read_trace(alloc: Global, text: &[u8]) -> Result<Trace, TraceEnd>
    ensures value { OrNoMemory result (trace_in (lines text.now)) }
    ensures well_formed { IfOk result WellFormed }
{
    let (first, rest) = line_of(text, 1)?;
    first_line(first)?;
    let (second, rest) = line_of(rest, 2)?;
    let (count, size) = ranges_line(second)?;
    let (third, rest) = line_of(rest, 3)?;
    let mode = mode_line(third)?;
    let (fourth, rest) = line_of(rest, 4)?;
    let workers = workers_line(fourth)?;
    let events = read_events(alloc, count, workers, rest)?;
    Ok(Trace {
        count,
        size,
        mode,
        workers,
        events,
    })
}

/// The first line, which is the one of this number, and what stands behind it.
fn line_of(text: &[u8], number: u32) -> Result<(&[u8], &[u8]), TraceEnd>
    ensures { pair_seen result ≡ line_at number (lines text.now) }
{
    match next_line(text) {
        Some(line) => Ok(line),
        None => Err(TraceEnd::Line(number, TraceRule::Form)),
    }
}

fn first_line(line: &[u8]) -> Result<(), TraceEnd>
    ensures { unit_seen result ≡ is_first line.now }
{
    if line == b"alloctoken-trace 1".as_slice() {
        Ok(())
    } else {
        Err(TraceEnd::Line(1, TraceRule::Form))
    }
}

fn ranges_line(line: &[u8]) -> Result<(u32, u32), TraceEnd>
    ensures value { result ≡ ranges_of line.now }
    ensures fits { IfOk result (λ r. (1 ≤ r.0) × (r.0 ≤ 256) × (r.1 % 16 ≡ 0) × (16 ≤ r.1) × (r.1 ≤ 1048576) × (r.0 * r.1 ≤ 33554432)) }
{
    let Some((count, size)) = ranges_fields(line) else {
        return Err(TraceEnd::Line(2, TraceRule::Form));
    };
    if fit(count, size) {
        Ok((count as u32, size as u32))
    } else {
        Err(TraceEnd::Line(2, TraceRule::Range))
    }
}

fn fit(count: u64, size: u64) -> bool
    ensures value { result ≡ ranges_fit count size }
    ensures fits { result ≡ true → (1 ≤ count) × (count ≤ 256) × (size % 16 ≡ 0) × (16 ≤ size) × (size ≤ 1048576) × (count * size ≤ 33554432) }
{
    1 <= count
        && count <= 256
        && size % 16 == 0
        && 16 <= size
        && size <= 1048576
        && count * size <= 33554432
}

fn mode_line(line: &[u8]) -> Result<Mode, TraceEnd>
    ensures { result ≡ or_form 3 (mode_named line.now) }
{
    if line == b"mode increment".as_slice() {
        Ok(Mode::Increment)
    } else if line == b"mode random".as_slice() {
        Ok(Mode::Random)
    } else if line == b"mode typehash".as_slice() {
        Ok(Mode::TypeHash)
    } else if line == b"mode typehashpointersplit".as_slice() {
        Ok(Mode::Split)
    } else {
        Err(TraceEnd::Line(3, TraceRule::Form))
    }
}

fn workers_line(line: &[u8]) -> Result<u32, TraceEnd>
    ensures value { result ≡ workers_of line.now }
    ensures fits { IfOk result (λ w. (1 ≤ w) × (w ≤ 64)) }
{
    let Some(workers) = workers_fields(line) else {
        return Err(TraceEnd::Line(4, TraceRule::Form));
    };
    if 1 <= workers && workers <= 64 {
        Ok(workers as u32)
    } else {
        Err(TraceEnd::Line(4, TraceRule::Range))
    }
}

/// The events so far, and which of their allocations are freed.
#[derive(Drop)]
struct Notes {
    events: Items<Event>,
    freed: Items<bool>,
}

impl Notes {
    /// The event that the numbers of line `number` are.
    fn checked(
        &self,
        count: u32,
        workers: u32,
        number: u32,
        fields: Fields,
    ) -> Result<Event, TraceEnd>
        requires noted { Noted self.now.freed self.now.events }
        requires small { length self.now.freed ≤ 1000000 }
        requires workers { workers ≤ 64 }
        requires count { count ≤ 256 }
        ensures value { result ≡ fitting number (broken count workers self.now.events fields) (event_of fields) }
        ensures fits { IfOk result (λ event. Fits count workers self.now.events event) }
    {
        match fields {
            Fields::Alloc {
                worker,
                name,
                token,
                size,
            } => {
                if worker >= u64::from(workers) || token >= u64::from(count) {
                    return Err(TraceEnd::Line(number, TraceRule::Range));
                }
                if name != self.freed.len() as u64 {
                    return Err(TraceEnd::Line(number, TraceRule::Name));
                }
                Ok(Event::Alloc {
                    worker: worker as u32,
                    name: name as u32,
                    token: token as u32,
                    size,
                })
            }
            Fields::Free { worker, name } => {
                if worker >= u64::from(workers) {
                    return Err(TraceEnd::Line(number, TraceRule::Range));
                }
                if name >= self.freed.len() as u64 || self.freed.as_slice()[name as usize] {
                    return Err(TraceEnd::Line(number, TraceRule::Freed));
                }
                Ok(Event::Free {
                    worker: worker as u32,
                    name: name as u32,
                })
            }
        }
    }

    /// The event of line `number`.
    fn event_line(
        &self,
        count: u32,
        workers: u32,
        number: u32,
        line: &[u8],
    ) -> Result<Event, TraceEnd>
        requires noted { Noted self.now.freed self.now.events }
        requires small { length self.now.freed ≤ 1000000 }
        requires workers { workers ≤ 64 }
        requires count { count ≤ 256 }
        ensures value { result ≡ event_at count workers number self.now.events line.now }
        ensures fits { IfOk result (λ event. Fits count workers self.now.events event) }
        ensures within { OnOk result (number ≤ 1000004) }
    {
        if number > LAST_LINE {
            return Err(TraceEnd::Line(number, TraceRule::Many));
        }
        match event_fields(line) {
            Some(fields) => self.checked(count, workers, number, fields),
            None => Err(TraceEnd::Line(number, TraceRule::Form)),
        }
    }

    /// Notes one event more.
    fn push(&mut self, count: u32, workers: u32, event: Event) -> Result<(), NoMemory>
        requires noted { Noted self.old.freed self.old.events }
        requires fits { Fits count workers self.old.events event }
        ensures events { OnOk result (self.new.events ≡ self.old.events ++ event ∷ []) }
        ensures noted { OnOk result (Noted self.new.freed self.new.events) }
        ensures small { OnOk result (length self.new.freed ≤ length self.old.freed + 1) }
    {
        flag(&mut self.freed, &event)?;
        self.events.push(event)?;
        Ok(())
    }
}

/// Notes in the flags whether the allocations of one event more are freed.
fn flag(freed: &mut Items<bool>, event: &Event) -> Result<(), NoMemory>
    requires { Flags freed.old event.now }
    ensures { OnOk result (freed.new ≡ flags_after freed.old event.now) }
{
    match *event {
        Event::Alloc { .. } => freed.push(false)?,
        Event::Free { name, .. } => freed.set(name as usize, true),
    }
    Ok(())
}

/// The events of the lines behind the header.
fn read_events(
    alloc: Global,
    count: u32,
    workers: u32,
    text: &[u8],
) -> Result<Items<Event>, TraceEnd>
    requires workers { workers ≤ 64 }
    requires count { count ≤ 256 }
    ensures value { OrNoMemory result (events_from count workers 5 [] (lines text.now)) }
    ensures fit { IfOk result (λ events. AllFit count workers [] events) }
    ensures few { IfOk result (λ events. length events ≤ 1000000) }
{
    let mut notes = Notes {
        events: Items::new(alloc),
        freed: Items::new(alloc),
    };
    let mut rest = text;
    let mut number = 5;
    while let Some((line, behind)) = next_line(rest) {
        let event = notes.event_line(count, workers, number, line)?;
        notes.push(count, workers, event)?;
        rest = behind;
        number += 1;
    }
    let Notes { events, .. } = notes;
    Ok(events)
}
