//! The phases of a trace.

ghost use Rattle.std.specs.Prelude.{◌≡◌, ◌+◌, ◌<◌, true, false, length, slice_index_or, OnOk, IfOk};
ghost use Rattle.trace_format.specs.WellFormed.{WellFormed};
ghost use Rattle.trace_format.specs.Phases.{Clash, PhasesFrom};
ghost use Rattle.trace_format.specs.Cut.{IsCut, is_other};
ghost use Rattle.trace_format.specs.declared.phase.Owner as declared_owner;

use crate::trace::{Event, Trace};
use std::alloc::Global;
use tok_base::{Items, NoMemory};

/// A run of events in which no two workers touch one name.
#[derive(Clone, Copy, Debug, PartialEq, Eq)]
pub struct Phase {
    /// The number of its first event, from 0.
    pub start: u32,
    /// One more than the number of its last event.
    pub end: u32,
}

/// Who made an allocation, and at which event.
#[derive(Clone, Copy, Debug)]
struct Owner {
    worker: u32,
    event: u32,
}

/// The phases so far: those that have ended, where the last one begins, and the owner of each name.
#[derive(Drop)]
struct Cutting {
    owners: Items<Owner>,
    found: Items<Phase>,
    start: u32,
}

/// Whether an allocation is of another worker, and not made before the event `start`.
fn is_other(owner: Owner, start: u32, worker: u32) -> bool
    ensures { result ≡ is_other owner start worker }
{
    start <= owner.event && owner.worker != worker
}

/// The owner of a name.
fn owner_at(owners: &Items<Owner>, name: u32) -> Owner
    requires { name < length owners.now }
    ensures { (o : declared_owner.Owner) → result ≡ slice_index_or owners.now name o }
{
    owners.as_slice()[name as usize]
}

impl Cutting {
    /// Whether another worker's event of the phase has the name of event `at`.
    fn clashes(&self, trace: &Trace, at: usize) -> bool
        requires trace { WellFormed trace.now }
        requires within { at < length trace.now.events }
        requires cut { IsCut trace.now.events at at self.now.owners self.now.found self.now.start }
        ensures yes { result ≡ true → Clash trace.now.events self.now.start at }
        ensures no { result ≡ false → ¬ Clash trace.now.events self.now.start at }
    {
        match trace.event(at) {
            Event::Alloc { .. } => false,
            Event::Free { worker, name } => {
                is_other(owner_at(&self.owners, name), self.start, worker)
            }
        }
    }

    /// Ends the phase where event `at` clashes.
    fn turn(&mut self, trace: &Trace, at: usize) -> Result<(), NoMemory>
        requires trace { WellFormed trace.now }
        requires within { at < length trace.now.events }
        requires cut { IsCut trace.now.events at at self.old.owners self.old.found self.old.start }
        ensures { OnOk result (IsCut trace.now.events at (at + 1) self.new.owners self.new.found self.new.start) }
    {
        if !self.clashes(trace, at) {
            return Ok(());
        }
        self.found.push(Phase {
            start: self.start,
            end: at as u32,
        })?;
        self.start = at as u32;
        Ok(())
    }

    /// Notes event `at`.
    fn note(&mut self, trace: &Trace, at: usize) -> Result<(), NoMemory>
        requires trace { WellFormed trace.now }
        requires within { at < length trace.now.events }
        requires cut { IsCut trace.now.events at (at + 1) self.old.owners self.old.found self.old.start }
        ensures { OnOk result (IsCut trace.now.events (at + 1) (at + 1) self.new.owners self.new.found self.new.start) }
    {
        match trace.event(at) {
            Event::Alloc { worker, .. } => {
                self.owners.push(Owner {
                    worker,
                    event: at as u32,
                })?;
                Ok(())
            }
            Event::Free { .. } => Ok(()),
        }
    }

    /// The phases of a trace whose events were all gone over.
    fn finish(self, trace: &Trace) -> Result<Items<Phase>, NoMemory>
        requires trace { WellFormed trace.now }
        requires cut { IsCut trace.now.events (length trace.now.events) (length trace.now.events) self.owners self.found self.start }
        ensures { IfOk result (λ found. PhasesFrom trace.now.events 0 found) }
    {
        let Cutting {
            mut found,
            start,
            ..
        } = self;
        let end = trace.events.len() as u32;
        if start >= end {
            return Ok(found);
        }
        found.push(Phase { start, end })?;
        Ok(found)
    }
}

/// The phases of a well-formed trace, in order. A phase ends before the first event whose name another worker's
/// event of the same phase has; a trace without events has none.
pub fn phases(alloc: Global, trace: &Trace) -> Result<Items<Phase>, NoMemory>
    requires { WellFormed trace.now }
    ensures { IfOk result (λ found. PhasesFrom trace.now.events 0 found) }
{
    let mut cutting = Cutting {
        owners: Items::new(alloc),
        found: Items::new(alloc),
        start: 0,
    };
    for at in 0..trace.events.len() {
        cutting.turn(trace, at)?;
        cutting.note(trace, at)?;
    }
    cutting.finish(trace)
}
