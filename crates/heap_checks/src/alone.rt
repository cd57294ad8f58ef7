//! One range by itself, and the laws.

use range_heap::{
    RangeHeap, histories_grow, live_starts_differ, ranges_stay_apart, sizes_are_rounded_up,
};
use std::alloc::Global;
use tok_base::NoMemory;

/// The answers to a grant, to one that is too large, and to a question, and how many calls were noted.
pub fn alone(alloc: Global) -> Result<String, NoMemory> {
    let mut heap = RangeHeap::new(alloc, 16777216, 64, 2)?;
    heap.reserve(3)?;
    let granted = heap.grant(0, 17);
    let refused = heap.grant(1, 33);
    let live = heap.live_at(16777216);
    let calls = heap.into_history().len();
    sizes_are_rounded_up();
    live_starts_differ();
    ranges_stay_apart();
    histories_grow();
    Ok(format!(in alloc; "{granted:?} {refused:?} {live:?} {calls}")?)
}
