//! How many entries of a sort histories have.

ghost use Rattle.std.specs.Prelude.{◌≡◌, ◌*◌, ◌≤◌, ◌^◌, length};
ghost use Rattle.trace_replay.specs.Report.{how_many, is_of, over_all};

use range_heap::{HeapCall, HeapEvent};
use tok_base::Items;

/// The sorts of entries.
#[derive(Clone, Copy, Debug)]
pub(crate) enum Sort {
    Grants,
    Refusals,
    Releases,
}

/// 1 for a grant, and 0 for another event.
fn is_grant(what: HeapEvent) -> u64
    ensures value { result ≡ is_of Sort.Grants what }
    ensures one { result ≤ 1 }
{
    match what {
        HeapEvent::Grant { .. } => 1,
        HeapEvent::Refuse { .. } => 0,
        HeapEvent::Release { .. } => 0,
    }
}

/// 1 for a refusal, and 0 for another event.
fn is_refusal(what: HeapEvent) -> u64
    ensures value { result ≡ is_of Sort.Refusals what }
    ensures one { result ≤ 1 }
{
    match what {
        HeapEvent::Grant { .. } => 0,
        HeapEvent::Refuse { .. } => 1,
        HeapEvent::Release { .. } => 0,
    }
}

/// 1 for a release, and 0 for another event.
fn is_release(what: HeapEvent) -> u64
    ensures value { result ≡ is_of Sort.Releases what }
    ensures one { result ≤ 1 }
{
    match what {
        HeapEvent::Grant { .. } => 0,
        HeapEvent::Refuse { .. } => 0,
        HeapEvent::Release { .. } => 1,
    }
}

/// 1 for an event of this sort, and 0 for another.
fn is_of(sort: Sort, what: HeapEvent) -> u64
    ensures value { result ≡ is_of sort what }
    ensures one { result ≤ 1 }
{
    match sort {
        Sort::Grants => is_grant(what),
        Sort::Refusals => is_refusal(what),
        Sort::Releases => is_release(what),
    }
}

/// How many entries of this sort a history has.
fn how_many(sort: Sort, calls: &[HeapCall]) -> u64
    ensures { result ≡ how_many sort calls.now }
{
    let mut count = 0;
    for call in calls {
        count += is_of(sort, call.what);
    }
    count
}

/// How many entries of this sort all histories have.
pub(crate) fn count_all(sort: Sort, ranges: &[Items<HeapCall>]) -> u128
    requires { length ranges.now ≤ 256 }
    ensures { result ≡ over_all (how_many sort) ranges.now }
{
    let mut count: u128 = 0;
    for calls in ranges {
        count += u128::from(how_many(sort, calls.as_slice()));
    }
    count
}
