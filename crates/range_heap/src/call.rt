//! The entries of a history, and calls on all ranges.

/// What happened.
#[derive(Clone, Copy, Debug, PartialEq, Eq)]
pub enum HeapEvent {
    /// A block of `size` bytes was granted at `place`.
    Grant { size: u128, place: u64 },
    /// A block of `size` bytes was asked for and fits nowhere.
    Refuse { size: u128 },
    /// The block at `place` was given back.
    Release { place: u64 },
}

/// One call: which caller made it, and what happened.
#[derive(Clone, Copy, Debug, PartialEq, Eq)]
pub struct HeapCall {
    pub who: u32,
    pub what: HeapEvent,
}

/// A call on all ranges.
#[derive(Clone, Copy, Debug, PartialEq, Eq)]
pub enum RangeCall {
    /// The caller `who` asks for `size` bytes in the range of `token`.
    Ask { who: u32, token: u64, size: u128 },
    /// The caller `who` gives back the block at `place`.
    GiveBack { who: u32, place: u64 },
}
