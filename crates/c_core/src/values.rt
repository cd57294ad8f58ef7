//! Values, the cells that hold them, faults, and the ends of a run.

ghost use Rattle.std.specs.Prelude.{◌≡◌};
ghost use Rattle.c_core.specs.Values as values;
ghost use Rattle.c_core.specs.Blocks as blocks;

use num_ops::{Int, IntKind};
use tok_base::{Reason, Span};

/// A pointer: null, a place in the block with a number, or the function with a number. There are no
/// addresses.
#[derive(Clone, Copy, Debug, PartialEq, Eq)]
pub enum Pointer {
    Null,
    /// A block's number, and the offset in it in bytes.
    Object(u32, u64),
    Function(u32),
}

/// The value of an expression.
#[derive(Clone, Copy, Debug, PartialEq, Eq)]
pub enum Value {
    Int(Int),
    Ptr(Pointer),
}

/// A byte of storage (6.2.6.1).
#[derive(Clone, Copy, Debug, PartialEq, Eq)]
pub enum Cell {
    /// Nothing was stored here.
    Undefined,
    Byte(u8),
    /// The part of a stored pointer with this number, 0 to 7.
    Part(Pointer, u8),
}

/// What a scalar access reads or writes (6.2.5, paragraph 21).
#[derive(Clone, Copy, Debug, PartialEq, Eq)]
pub enum Scalar {
    Int(IntKind),
    Ptr,
}

/// What a block was made for.
#[derive(Clone, Copy, Debug, PartialEq, Eq)]
pub enum BlockKind {
    /// An object of static storage duration (6.2.4, paragraph 3).
    Fixed,
    /// A string literal, which no store may modify (6.4.5, paragraph 7).
    ReadOnly,
    /// An object of automatic storage duration, or a parameter (6.2.4, paragraph 5).
    Auto,
    /// Allocated storage (7.22.3).
    Heap,
}

/// Why an access is undefined, in the order in which the faults are tested.
#[derive(Clone, Copy, Debug, PartialEq, Eq)]
pub enum Fault {
    /// The pointer is null or a function.
    Null,
    /// The block's lifetime has ended.
    Dead,
    /// The access reaches past the block's end.
    Bounds,
    /// The offset is no multiple of the scalar's size.
    Misaligned,
    /// A write to a string literal.
    ReadOnly,
    /// A cell that is read is undefined.
    Indeterminate,
    /// An integer is read from a part of a pointer.
    PointerBytes,
    /// A pointer is read from cells that hold none.
    TornPointer,
    /// Source and target of a copy overlap.
    Overlap,
}

/// How a run ends.
#[derive(Clone, Copy, Debug, PartialEq, Eq)]
pub enum End {
    /// `main` returned, or `exit` was called (5.1.2.2.3, 7.22.4.4).
    Exit(i32),
    /// Undefined behaviour, at the expression that has it.
    Trap(Reason, Span),
    /// A tick more than the bound on steps was due.
    Spent,
    /// Something did not fit into the region of objects.
    StackFull,
    /// A byte more than may be put out was due.
    OutputFull,
}

/// How many bytes a scalar takes (6.5.3.4).
pub fn size_of(kind: Scalar) -> u64
    ensures { result ≡ values.scalar_size kind }
{
    match kind {
        Scalar::Int(kind) => match kind {
            IntKind::Bool | IntKind::Char | IntKind::SChar | IntKind::UChar => 1,
            IntKind::Short | IntKind::UShort => 2,
            IntKind::Int | IntKind::UInt => 4,
            IntKind::Long | IntKind::ULong | IntKind::LongLong | IntKind::ULongLong => 8,
        },
        Scalar::Ptr => 8,
    }
}

/// What a value is read and written as.
pub fn kind_of(value: Value) -> Scalar
    ensures { result ≡ values.kind_of value }
{
    match value {
        Value::Int(number) => Scalar::Int(number.kind),
        Value::Ptr(_) => Scalar::Ptr,
    }
}

/// Why a run stops at a fault.
pub fn reason_of(fault: Fault) -> Reason
    ensures { result ≡ blocks.reason_of fault }
{
    match fault {
        Fault::Null => Reason::Null,
        Fault::Dead => Reason::Dead,
        Fault::Bounds => Reason::Bounds,
        Fault::Misaligned => Reason::Misaligned,
        Fault::ReadOnly => Reason::ReadOnly,
        Fault::Indeterminate => Reason::Indeterminate,
        Fault::PointerBytes => Reason::PointerBytes,
        Fault::TornPointer => Reason::TornPointer,
        Fault::Overlap => Reason::Overlap,
    }
}
