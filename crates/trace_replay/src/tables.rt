//! Tables by unit of 16 bytes: which storage of a range is live, and which was ever granted.

ghost use Rattle.std.specs.Prelude.{◌≡◌, ◌*◌, ◌+◌, ◌≤◌, ◌^◌, ◌%◌, length, sum, max, cond, nat_lt, slice_set, slice_index, IfOk};
ghost use Rattle.range_heap.specs.History.{Legal, region};
ghost use Rattle.trace_replay.specs.Report.{RangesLegal, granted_below, granted_bytes, live_bytes, over_all};
ghost use Rattle.trace_replay.specs.Tables.{covered, marked, table, unit_at, unit_count, units_of};

use range_heap::{HeapCall, HeapEvent};
use std::alloc::Global;
use tok_base::{Items, NoMemory};

/// What a table keeps at the unit where a block begins.
#[derive(Clone, Copy, Debug)]
pub(crate) enum Kept {
    /// The units of the live block that begins there.
    Live,
    /// The units of the largest block that ever began there.
    Ever,
}

/// How many units a block of a range takes.
fn units_of(size: u128) -> u32
    ensures value { result ≡ units_of size }
    ensures few { result ≤ 65536 }
{
    let size = size.min(1048576) as u32;
    ((size + 15) / 16).max(1)
}

/// The number of a place among the units of the range that begins at `first`.
fn unit_at(first: u64, place: u64) -> u64
    ensures { result ≡ unit_at first place }
{
    (place / 16).saturating_sub(first / 16)
}

/// What stands at a unit, and 0 outside of the table.
#[tactic(auto, using(std::proofs::lemmas::List::get_or_past))]
fn at(units: &Items<u32>, unit: u64) -> u32
    ensures { result ≡ slice_index units.now unit }
{
    if unit >= units.len() as u64 {
        return 0;
    }
    units.as_slice()[unit as usize]
}

/// Notes a number at a unit, if that is one of the table.
#[tactic(auto, using(std::proofs::lemmas::List::set_past))]
fn put(units: &mut Items<u32>, unit: u64, count: u32)
    ensures { units.new ≡ slice_set units.old unit count }
{
    if unit >= units.len() as u64 {
        return;
    }
    units.set(unit as usize, count);
}

/// Notes the larger of a number and the one that stands at the unit.
fn raise(units: &mut Items<u32>, unit: u64, count: u32)
    ensures { units.new ≡ slice_set units.old unit (max (slice_index units.old unit) count) }
{
    let most = at(units, unit).max(count);
    put(units, unit, most);
}

/// Notes an entry in the table of live blocks.
fn mark_live(first: u64, units: &mut Items<u32>, what: HeapEvent)
    ensures { units.new ≡ marked Kept.Live first units.old what }
{
    match what {
        HeapEvent::Grant { size, place } => put(units, unit_at(first, place), units_of(size)),
        HeapEvent::Refuse { .. } => {}
        HeapEvent::Release { place } => put(units, unit_at(first, place), 0),
    }
}

/// Notes an entry in the table of the largest blocks.
fn mark_ever(first: u64, units: &mut Items<u32>, what: HeapEvent)
    ensures { units.new ≡ marked Kept.Ever first units.old what }
{
    match what {
        HeapEvent::Grant { size, place } => raise(units, unit_at(first, place), units_of(size)),
        HeapEvent::Refuse { .. } => {}
        HeapEvent::Release { .. } => {}
    }
}

/// Notes an entry.
fn mark(kept: Kept, first: u64, units: &mut Items<u32>, what: HeapEvent)
    ensures { units.new ≡ marked kept first units.old what }
{
    match kept {
        Kept::Live => mark_live(first, units, what),
        Kept::Ever => mark_ever(first, units, what),
    }
}

/// The table of a history.
fn table(
    alloc: Global,
    kept: Kept,
    first: u64,
    size: u32,
    calls: &[HeapCall],
) -> Result<Items<u32>, NoMemory>
    requires { size ≤ 1048576 }
    ensures value { IfOk result (λ units. units ≡ table kept first size calls.now) }
    ensures few { IfOk result (λ units. length units ≤ 65537) }
{
    let zeros = vec![in alloc; 0u32; size as usize / 16 + 1]?;
    let mut units = Items::from_vec(zeros);
    for call in calls {
        mark(kept, first, &mut units, call.what);
    }
    Ok(units)
}

/// The sum of a table.
fn sum(units: &[u32]) -> u64
    requires { length units.now ≤ 65537 }
    ensures value { result ≡ sum units.now }
    ensures few { result ≤ 4294967295 * length units.now }
{
    let mut all: u64 = 0;
    for count in units {
        all += u64::from(*count);
    }
    all
}

/// 1 where the unit is below the end, and 0 elsewhere.
fn is_below(unit: u64, end: u64) -> u64
    ensures value { result ≡ cond (nat_lt unit end) 1 0 }
    ensures one { result ≤ 1 }
{
    if unit < end { 1 } else { 0 }
}

/// How many units lie in one of the blocks that begin at each unit.
fn covered(units: &[u32]) -> u64
    requires { length units.now ≤ 65537 }
    ensures value { result ≡ covered 0 0 units.now }
    ensures few { result ≤ 65537 }
{
    let mut all: u64 = 0;
    let mut end: u64 = 0;
    for (unit, count) in units.iter().enumerate() {
        end = end.max(unit as u64 + u64::from(*count));
        all += is_below(unit as u64, end);
    }
    all
}

/// The bytes of live storage in a range.
fn live_bytes(alloc: Global, first: u64, size: u32, calls: &[HeapCall]) -> Result<u64, NoMemory>
    requires multiple { size % 16 ≡ 0 }
    requires most { size ≤ 1048576 }
    requires legal { Legal (region first size) calls.now }
    ensures bytes { IfOk result (λ bytes. bytes ≡ live_bytes calls.now) }
    ensures few { IfOk result (λ bytes. bytes ≤ 4503668346847232) }
{
    let units = table(alloc, Kept::Live, first, size, calls)?;
    Ok(16 * sum(units.as_slice()))
}

/// How many addresses of a range were ever granted.
fn granted_bytes(alloc: Global, first: u64, size: u32, calls: &[HeapCall]) -> Result<u64, NoMemory>
    requires multiple { size % 16 ≡ 0 }
    requires most { size ≤ 1048576 }
    requires legal { Legal (region first size) calls.now }
    ensures bytes { IfOk result (λ bytes. bytes ≡ granted_below (first + size) calls.now) }
    ensures few { IfOk result (λ bytes. bytes ≤ 1048592) }
{
    let units = table(alloc, Kept::Ever, first, size, calls)?;
    Ok(16 * covered(units.as_slice()))
}

/// The bytes of live storage in all ranges, of which the first begins at `first`.
pub(crate) fn live_in_all(
    alloc: Global,
    first: u64,
    size: u32,
    ranges: &[Items<HeapCall>],
) -> Result<u64, NoMemory>
    requires first_below { first ≤ 4611686018427387904 + 268435456 }
    requires multiple { size % 16 ≡ 0 }
    requires most { size ≤ 1048576 }
    requires count { length ranges.now ≤ 256 }
    requires legal { RangesLegal size first ranges.now }
    ensures { IfOk result (λ bytes. bytes ≡ over_all live_bytes ranges.now) }
{
    let mut all: u64 = 0;
    let mut start = first;
    for calls in ranges {
        all += live_bytes(alloc, start, size, calls.as_slice())?;
        start += u64::from(size);
    }
    Ok(all)
}

/// How many addresses were ever granted in ranges of which the first begins at `first`.
pub(crate) fn granted_in_all(
    alloc: Global,
    first: u64,
    size: u32,
    ranges: &[Items<HeapCall>],
) -> Result<u64, NoMemory>
    requires first_below { first ≤ 4611686018427387904 + 268435456 }
    requires multiple { size % 16 ≡ 0 }
    requires most { size ≤ 1048576 }
    requires count { length ranges.now ≤ 256 }
    requires legal { RangesLegal size first ranges.now }
    ensures { IfOk result (λ bytes. bytes ≡ granted_bytes size first ranges.now) }
{
    let mut all: u64 = 0;
    let mut start = first;
    for calls in ranges {
        all += granted_bytes(alloc, start, size, calls.as_slice())?;
        start += u64::from(size);
    }
    Ok(all)
}
