//! One range of the heap, and all ranges.
//!
//! `RangeHeap` serves one range: a grant takes the lowest multiple of 16 from which the rounded
//! interval meets no live block, and a refusal comes exactly where there is none. It is seen as its
//! history, which is legal (specs/History). `Ranges` has one such heap for each token, each in its own
//! addresses (specs/Ranges). Only the constructors and `reserve` take memory.
#![tactic(auto)]

mod call;
mod half;
mod heap;
mod laws;
mod making;
mod plain;
mod ranges;

pub use call::{HeapCall, HeapEvent, RangeCall};
pub use half::Half;
pub use heap::RangeHeap;
pub use laws::{histories_grow, live_starts_differ, ranges_stay_apart, sizes_are_rounded_up};
pub use plain::lowest_place;
pub use ranges::Ranges;
