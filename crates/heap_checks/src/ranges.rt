//! Calls on the ranges of all tokens.
//!
//! `new COUNT SIZE` makes new ranges; `ask WHO TOKEN SIZE`, `back WHO PLACE` and `where ADDRESS` ask of them, as do
//! `half TOKEN` (0 the lower, 1 the upper half), `size TOKEN PLACE` (of a live block), `calls TOKEN` and `count`.
//! `mix` compares 400 grants and releases with the definition.

use crate::mix::mix;
use crate::numbers::Numbers;
use range_heap::{Half, RangeCall, Ranges};
use std::alloc::Global;
use tok_base::NoMemory;

fn new_ranges(
    alloc: Global,
    ranges: &mut Ranges,
    count: u64,
    size: u64,
) -> Result<Option<u64>, NoMemory> {
    if count < 1 || count > 256 || size % 16 != 0 || size < 16 || size > 1048576 {
        return Ok(None);
    }
    *ranges = Ranges::new(alloc, count as u32, size as u32)?;
    Ok(Some(count))
}

fn half(ranges: &Ranges, token: u64) -> Option<u64> {
    match ranges.half_of(token) {
        Some(Half::Lower) => Some(0),
        Some(Half::Upper) => Some(1),
        None => None,
    }
}

fn size_at(ranges: &Ranges, token: u64, place: u64) -> Option<u64> {
    if token < u64::from(ranges.count()) {
        ranges.heap(token as u32).live_at(place)
    } else {
        None
    }
}

fn calls_of(ranges: &Ranges, token: u64) -> Option<u64> {
    if token < u64::from(ranges.count()) {
        Some(ranges.heap(token as u32).history().len() as u64)
    } else {
        None
    }
}

fn ask(ranges: &mut Ranges, numbers: &Numbers) -> Result<Option<u64>, NoMemory> {
    ranges.make(&RangeCall::Ask {
        who: numbers.first.min(63) as u32,
        token: numbers.second,
        size: numbers.third,
    })
}

fn back(ranges: &mut Ranges, numbers: &Numbers) -> Result<Option<u64>, NoMemory> {
    ranges.make(&RangeCall::GiveBack {
        who: numbers.first.min(63) as u32,
        place: numbers.second,
    })
}

/// The answer to a call on the ranges.
pub fn ranges_answer(
    alloc: Global,
    ranges: &mut Ranges,
    command: &str,
    numbers: &Numbers,
) -> Result<Option<u64>, NoMemory> {
    match command {
        "new" => new_ranges(alloc, ranges, numbers.first, numbers.second),
        "ask" => ask(ranges, numbers),
        "back" => back(ranges, numbers),
        "where" => Ok(ranges.range_of(numbers.first).map(u64::from)),
        "half" => Ok(half(ranges, numbers.first)),
        "size" => Ok(size_at(ranges, numbers.first, numbers.second)),
        "calls" => Ok(calls_of(ranges, numbers.first)),
        "count" => Ok(Some(u64::from(ranges.count()))),
        "mix" => Ok(Some(mix(alloc)?)),
        _ => Ok(None),
    }
}
