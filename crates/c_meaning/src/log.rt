//! The log of a run, and how a statement ends.

use c_core::Value;

/// What the heap answered to one request.
#[derive(Clone, Copy, Debug, PartialEq, Eq)]
pub enum LogEntry {
    /// A block of `size` bytes was granted at `place`.
    Grant { token: u64, size: u128, place: u64 },
    /// A request of `size` bytes was refused.
    Refuse { token: u64, size: u128 },
    /// The block at `place` was given back.
    Release { token: u64, place: u64 },
}

/// How a statement ends (ISO/IEC 9899:2018, 6.8.6).
#[derive(Clone, Copy, Debug, PartialEq, Eq)]
pub enum Flow {
    /// The next statement follows.
    Next,
    /// `break`
    Broke,
    /// `continue`
    Continued,
    /// `return`, with its value if it has one.
    Returned(Option<Value>),
}
