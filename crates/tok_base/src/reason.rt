//! Why a run of a C program stops at undefined behaviour.

/// What the C program did that has no defined meaning, or cannot go on (ISO/IEC 9899:2018).
#[derive(Clone, Copy, Debug, PartialEq, Eq)]
pub enum Reason {
    /// An access through a null pointer, or through a pointer to a function (6.5.3.2, paragraph 4).
    Null,
    /// An access to an object whose lifetime has ended (6.2.4, paragraph 2).
    Dead,
    /// An access that reaches past the end of the object (6.5.6, paragraph 8).
    Bounds,
    /// An access at an address that is no multiple of the alignment (6.3.2.3, paragraph 7).
    Misaligned,
    /// A write to a string literal (6.4.5, paragraph 7).
    ReadOnly,
    /// A read of a byte that was never written (6.2.6.1, paragraph 5).
    Indeterminate,
    /// A read of a number from bytes that are part of a pointer.
    PointerBytes,
    /// A read of a pointer from bytes that are not the whole of one.
    TornPointer,
    /// A copy between objects that overlap, where they may not (6.5.16.1, paragraph 3).
    Overlap,
    /// A signed result is out of range (6.5, paragraph 5).
    Overflow,
    /// A divisor is 0 (6.5.5, paragraph 5).
    DivZero,
    /// A shift by a count, or of a value, that has none (6.5.7).
    Shift,
    /// An offset outside the object, or arithmetic on no object (6.5.6, paragraph 8).
    PointerRange,
    /// An order of pointers into different objects (6.5.8, paragraph 5).
    PointerOrder,
    /// A difference of pointers that are not into one array (6.5.6, paragraph 9).
    PointerDiff,
    /// What is freed is no start of a live allocated block (7.22.3.3).
    BadFree,
    /// A function or an object that has no definition is used (6.9, paragraph 5).
    NoBody,
    /// What is called is no function.
    NoFunction,
    /// A function is called through another type (6.3.2.3, paragraph 8).
    BadCall,
    /// The value of a call is used, and the function returned none (6.9.1, paragraph 12).
    NoReturn,
    /// `abort` was called (7.22.4.1).
    Abort,
}
