//! A trace's events, one after another.

ghost use Rattle.std.specs.Prelude.{◌≡◌, ◌+◌, ◌<◌, ◌≤◌, take, length, Some, OnOk, IfOk};
ghost use Rattle.range_heap.specs.declared.call.RangeCall.TheVariants.{Ask, GiveBack};
ghost use Rattle.range_heap.specs.Steps.{histories};
ghost use Rattle.trace_format.specs.WellFormed.{WellFormed};
ghost use Rattle.trace_replay.specs.Due.{Alone, fate_of};
ghost use Rattle.trace_replay.specs.Going.{Asked, GivenBack, Going};
ghost use Rattle.trace_replay.specs.Replayed.{Replayed};
ghost use Rattle.trace_replay.specs.Report.{Reportable};

use crate::histories::Histories;
use range_heap::{RangeCall, Ranges};
use std::alloc::Global;
use tok_base::{Items, NoMemory, Reserved};
use trace_format::{Event, Trace};

/// The address of the first range.
const FIRST: u64 = 16777216;

/// Makes the events of a well-formed trace in their order, on one thread. All memory but that of the answer is
/// taken before the first event.
pub fn replay_alone(alloc: Global, trace: &Trace) -> Result<Histories, NoMemory>
    requires { WellFormed trace.now }
    ensures alone { IfOk result (Alone trace.now) }
    ensures replayed { IfOk result (Replayed trace.now) }
    ensures reportable { IfOk result Reportable }
{
    let mut ranges = Ranges::new(alloc, trace.count, trace.size)?;
    make_room(alloc, &mut ranges, trace)?;
    let mut fates = Reserved::with_room(alloc, trace.events.len())?;
    for at in 0..trace.events.len() {
        make(&mut ranges, &mut fates, trace, at)?;
    }
    finish(alloc, trace, ranges, &fates)
}

/// The histories of ranges on which all events were made.
fn finish(
    alloc: Global,
    trace: &Trace,
    ranges: Ranges,
    _fates: &Reserved<Option<u64>>,
) -> Result<Histories, NoMemory>
    requires trace { WellFormed trace.now }
    requires size { ranges.size ≡ trace.now.size }
    requires going { Going trace.now.count trace.now.events trace.now.events _fates.now.items (histories ranges) }
    ensures alone { IfOk result (Alone trace.now) }
    ensures replayed { IfOk result (Replayed trace.now) }
    ensures reportable { IfOk result Reportable }
{
    ranges.stands();
    let rows = ranges.into_histories(alloc)?;
    Ok(Histories {
        first: FIRST,
        size: trace.size,
        mode: trace.mode,
        ranges: rows,
    })
}

/// Makes room in each range for all calls that the events of a trace make there.
fn make_room(alloc: Global, ranges: &mut Ranges, trace: &Trace) -> Result<(), NoMemory>
    ensures size { ranges.new.size ≡ ranges.old.size }
    ensures kept { histories ranges.new ≡ histories ranges.old }
{
    let rooms = rooms(alloc, trace)?;
    for token in 0..rooms.len() {
        room(ranges, token as u64, rooms[token])?;
    }
    Ok(())
}

/// Makes the room of a token's range at least `more`.
fn room(ranges: &mut Ranges, token: u64, more: u64) -> Result<(), NoMemory>
    ensures size { ranges.new.size ≡ ranges.old.size }
    ensures kept { histories ranges.new ≡ histories ranges.old }
{
    ranges.reserve(token, more)
}

/// How many calls the events of a trace make at most in each range.
fn rooms(alloc: Global, trace: &Trace) -> Result<Vec<u64>, NoMemory> {
    let mut rooms = vec![in alloc; 0u64; trace.count as usize]?;
    let mut tokens = Items::new(alloc);
    for event in trace.events.as_slice() {
        let token = match *event {
            Event::Alloc { token, .. } => {
                tokens.push(token)?;
                Some(token)
            }
            Event::Free { name, .. } => tokens.get(name as usize).copied(),
        };
        count(&mut rooms, token);
    }
    Ok(rooms)
}

/// One call more in the range of a token.
fn count(rooms: &mut [u64], token: Option<u32>) {
    let Some(token) = token else {
        return;
    };
    if let Some(room) = rooms.get_mut(token as usize) {
        *room = room.saturating_add(1);
    }
}

/// A request of this worker.
fn ask(who: u32, token: u32, size: u64) -> RangeCall
    ensures { result ≡ Ask who token size }
{
    RangeCall::Ask {
        who,
        token: u64::from(token),
        size: u128::from(size),
    }
}

/// A release by this worker.
fn back(who: u32, place: u64) -> RangeCall
    ensures { result ≡ GiveBack who place }
{
    RangeCall::GiveBack { who, place }
}

/// What became of a name: the place that it was granted, or none where it was refused.
fn fate_at(fates: &Reserved<Option<u64>>, name: u32) -> Option<u64>
    requires { name < length fates.now.items }
    ensures { result ≡ fate_of fates.now.items name }
{
    fates.as_slice()[name as usize]
}

/// Makes event `at`.
fn make(
    ranges: &mut Ranges,
    fates: &mut Reserved<Option<u64>>,
    trace: &Trace,
    at: usize,
) -> Result<(), NoMemory>
    requires trace { WellFormed trace.now }
    requires within { at < length trace.now.events }
    requires room { 0 < fates.old.room }
    requires going { Going trace.now.count trace.now.events (take at trace.now.events) fates.old.items (histories ranges.old) }
    ensures size { ranges.new.size ≡ ranges.old.size }
    ensures room { fates.old.room ≤ fates.new.room + 1 }
    ensures going { OnOk result (Going trace.now.count trace.now.events (take (at + 1) trace.now.events) fates.new.items (histories ranges.new)) }
{
    match trace.event(at) {
        Event::Alloc {
            worker,
            token,
            size,
            ..
        } => allocate(ranges, fates, worker, token, size),
        Event::Free { worker, name } => release(ranges, worker, fate_at(fates, name)),
    }
}

/// Asks for a block, and notes what became of it.
fn allocate(
    ranges: &mut Ranges,
    fates: &mut Reserved<Option<u64>>,
    who: u32,
    token: u32,
    size: u64,
) -> Result<(), NoMemory>
    requires { 0 < fates.old.room }
    ensures size { ranges.new.size ≡ ranges.old.size }
    ensures room { fates.old.room ≤ fates.new.room + 1 }
    ensures asked { OnOk result (Asked who token size fates.old.items fates.new.items ranges.old ranges.new) }
{
    let call = ask(who, token, size);
    let fate = ranges.make(&call)?;
    ranges.stands();
    fates.push(fate);
    Ok(())
}

/// Releases what was granted; what was refused gives no call.
fn release(ranges: &mut Ranges, who: u32, fate: Option<u64>) -> Result<(), NoMemory>
    ensures size { ranges.new.size ≡ ranges.old.size }
    ensures given { OnOk result (GivenBack who fate (histories ranges.old) (histories ranges.new)) }
{
    match fate {
        Some(place) => give_back(ranges, who, place),
        None => Ok(()),
    }
}

/// Releases the block at `place`.
fn give_back(ranges: &mut Ranges, who: u32, place: u64) -> Result<(), NoMemory>
    ensures size { ranges.new.size ≡ ranges.old.size }
    ensures given { OnOk result (GivenBack who (Some place) (histories ranges.old) (histories ranges.new)) }
{
    let call = back(who, place);
    ranges.make(&call)?;
    Ok(())
}
