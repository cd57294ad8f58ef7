//! Calls on a memory, and what they answer.

use c_core::{BlockKind, Cell, Fault, Pointer, Scalar, Value};
use num_ops::IntKind;

/// A call on a memory.
#[derive(Clone, Copy, Debug)]
pub enum Call {
    /// The kind of the block, its size and its start.
    Place(BlockKind, u64, u64),
    Load(Pointer, Scalar),
    /// Where, the kind, and the bits.
    StoreInt(Pointer, IntKind, u64),
    /// Where, and the pointer that is stored.
    StorePointer(Pointer, Pointer),
    /// Target, source, how many bytes, and whether they may overlap.
    Copy(Pointer, Pointer, u64, bool),
    Fill(Pointer, u8, u64),
    Kill(u32),
    Init(u32, u64, Cell),
}

/// What a call answers.
#[derive(Clone, Copy, Debug, PartialEq, Eq)]
pub enum Answer {
    /// Its conditions don't hold, and it wasn't made.
    Barred,
    NoMemory,
    Placed(u32),
    Loaded(Value),
    Done,
    Refused(Fault),
}
