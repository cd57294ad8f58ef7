//! What is kept beside the memory.

ghost use Rattle.std.specs.Prelude.{◌≡◌, ℕ, ◌+◌, ◌*◌, ◌<◌, ◌≤◌, ◌^◌, [], length, slice_index_or, IfOk};
ghost use Rattle.c_meaning.specs.Meaning as meaning;
ghost use Rattle.range_heap.specs.Seen.{Kept};
ghost use Rattle.machine_state.specs.State.{state_in, IsSound};

use machine_frames::Rest;
use range_heap::Ranges;
use std::alloc::Global;

/// An object below the ranges: the number of its block, and the end of its addresses.
#[derive(Clone, Copy, Debug, PartialEq, Eq)]
pub struct Spot {
    pub number: u32,
    pub end: u32,
}

/// Everything but the memory.
#[derive(Drop)]
pub struct Ledger {
    /// The heap.
    pub ranges: Ranges,
    /// The objects below the ranges in the order in which they stand; those that are dead leave at the end.
    pub region: Vec<Spot>,
    /// How many blocks were made.
    pub count: u32,
    /// The token of what has no site.
    pub fallback: u32,
    /// The state of the run but for its blocks.
    pub rest: Rest,
}

/// The state of a run.
#[derive(Drop)]
pub struct Machine<M> {
    pub memory: M,
    pub ledger: Ledger,
}

impl Ledger {
    /// Before anything was made.
    pub fn new(alloc: Global, ranges: Ranges, fallback: u32, input: Vec<u8>, ticks: u64) -> Ledger
        requires { (t : ℕ) (d : Kept) → t < length ranges.heaps → (slice_index_or ranges.heaps t d).history ≡ [] }
        ensures state { state_in [] result ≡ meaning.start input.items ticks }
        ensures ranges { result.ranges ≡ ranges }
        ensures fallback { result.fallback ≡ fallback }
        ensures sound { (top : ℕ) → 16777216 + length ranges.heaps * ranges.size ≤ top → IsSound [] [] top result }
    {
        ranges.stands();
        Ledger {
            ranges,
            region: Vec::new(alloc),
            count: 0,
            fallback,
            rest: Rest {
                ticks,
                locals: Vec::new(alloc),
                base: 0,
                input,
                read: 0,
                output: Vec::new(alloc),
                room: 4194304,
                log: Vec::new(alloc),
            },
        }
    }
}
