//! The core tree: C with types, conversions and sizes written out.

use crate::values::{Cell, Scalar, Value};
use num_ops::{Cmp, IntKind, Op};
use tok_base::{Boxed, Bytes, Items, Span};

/// An object: one of `Core::fixed`, or one of the function's locals, by its number.
#[derive(Clone, Copy, Debug, PartialEq, Eq)]
pub enum Place {
    Fixed(u32),
    Local(u32),
}

/// Which token a direct call of an allocation function is for.
#[derive(Clone, Copy, Debug, PartialEq, Eq)]
pub enum LibMark {
    /// The token of the allocation site with this number.
    Site(u32),
    /// No site: the fallback token, or no allocation at all.
    Untagged,
    /// The last argument is the token.
    Given,
    /// This token.
    Fixed(u32),
}

/// What a compound assignment, `++` or `--` does to the value (6.5.16.2).
#[derive(Clone, Copy, Debug, PartialEq, Eq)]
pub enum ModifyOp {
    Arith(Op),
    /// A shift, to the left where true.
    ShiftBits(bool),
    /// A sum of a pointer and elements of this size, or the difference where true.
    PtrAdd(u64, bool),
}

/// An expression, with the span of the C expression that it is for.
#[cycle(expr)]
#[derive(Drop)]
pub struct Expr {
    pub span: Span,
    pub form: Form,
}

/// The forms of expressions; parts are evaluated from left to right.
#[cycle(expr)]
#[derive(Drop)]
pub enum Form {
    /// An integer or null.
    Const(Value),
    /// The address of a string literal, by its number in `Core::fixed`.
    Text(u32),
    /// The address of a function, by its number in `Core::funcs`.
    Func(u32),
    /// The address of an object.
    Object(Place),
    /// The value at a place; the span is that of the lvalue.
    Load(Boxed<Expr>, Scalar),
    /// Stores a value at a place, and gives it; the place stands with the span of the lvalue.
    Store(Boxed<Expr>, Span, Scalar, Boxed<Expr>),
    /// Copies this many bytes to the first place from the second, each with the span of its lvalue;
    /// no value.
    CopyRecord(Boxed<Expr>, Span, Boxed<Expr>, Span, u64),
    /// An integer, converted (6.3.1).
    Convert(IntKind, Boxed<Expr>),
    /// Whether a value is not zero or null, as 0 or 1; the other way round where true.
    Truth(Boxed<Expr>, bool),
    /// Arithmetic of two integers of one kind (6.5.5, 6.5.6, 6.5.10 to 6.5.12).
    Arith(Op, Boxed<Expr>, Boxed<Expr>),
    /// A shift, to the left where true (6.5.7).
    ShiftBits(bool, Boxed<Expr>, Boxed<Expr>),
    /// A comparison of two integers of one kind (6.5.8, 6.5.9).
    CompareInt(Cmp, Boxed<Expr>, Boxed<Expr>),
    /// A pointer and a number of elements of this size, added, or subtracted where true (6.5.6).
    PtrAdd(Boxed<Expr>, Boxed<Expr>, u64, bool),
    /// The difference of two pointers, in elements of this size (6.5.6).
    PtrDiff(Boxed<Expr>, Boxed<Expr>, u64),
    /// A comparison of two pointers (6.5.8, 6.5.9).
    ComparePtr(Cmp, Boxed<Expr>, Boxed<Expr>),
    /// `&&` (6.5.13).
    Both(Boxed<Expr>, Boxed<Expr>),
    /// `||` (6.5.14).
    Either(Boxed<Expr>, Boxed<Expr>),
    /// `?:` (6.5.15).
    Choose(Boxed<Expr>, Boxed<Expr>, Boxed<Expr>),
    /// The comma (6.5.17).
    Then(Boxed<Expr>, Boxed<Expr>),
    /// Place, span of the lvalue, kind of the object, operator, operand, kind in which it is computed, and whether the old
    /// value is the result (6.5.2.4, 6.5.3.1, 6.5.16.2).
    Modify(Boxed<Expr>, Span, Scalar, ModifyOp, Boxed<Expr>, IntKind, bool),
    /// A call through a function value: the function, the spelling of its type, the arguments, and
    /// whether the value is used (6.5.2.2).
    Call(Boxed<Expr>, Bytes, Items<Expr>, bool),
    /// A direct call of the library function with this number.
    LibCall(u32, Items<Expr>, LibMark),
    /// The token of the builtin with this number.
    Mark(u32),
}

/// A statement (6.8).
#[derive(Drop)]
pub enum Stmt {
    /// The objects, each the number of a local and its size, and the statements.
    Block(Items<(u32, u64)>, Items<Stmt>),
    Expr(Expr),
    /// Initialises a local: with zero bytes first where true, then by these stores and copies.
    Init(u32, bool, Items<Expr>),
    If(Expr, Boxed<Stmt>, Option<Boxed<Stmt>>),
    /// Whether the condition is tested before the first turn, the condition, the step and the body.
    Loop(bool, Expr, Option<Expr>, Boxed<Stmt>),
    Break,
    Continue,
    Return(Option<Expr>),
}

/// A function; a library function and an entry point of the allocator have no body.
#[derive(Drop)]
pub struct Func {
    pub name: Bytes,
    /// The spelling of its type.
    pub ty: Bytes,
    /// The sizes of what the type takes, of a function without a body too; with one, those of its
    /// parameters, which are the first locals.
    pub params: Items<u32>,
    pub body: Option<Stmt>,
}

/// An object of static storage duration, or a string literal.
#[derive(Drop)]
pub struct FixedObject {
    pub size: u32,
    /// A string literal.
    pub read_only: bool,
    /// Not only declared.
    pub defined: bool,
    /// The cells that are no zero bytes, by their offsets.
    pub cells: Items<(u32, Cell)>,
}

/// A whole program. The number of a fixed object is its block's number too.
#[derive(Drop)]
pub struct Core {
    pub funcs: Items<Func>,
    pub fixed: Items<FixedObject>,
    /// The number of `main`.
    pub main: Option<u32>,
}
