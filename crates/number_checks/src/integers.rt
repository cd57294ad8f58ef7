//! Sums, shifts, comparisons and kinds of integers.

use num_ops::{
    Cmp, Int, IntKind, Op, Undefined, arith, common, compare, convert, greatest, is_signed, least,
    promote, shift, width,
};
use std::alloc::{AllocError, Global};

const KINDS: [(&str, IntKind); 12] = [
    ("Bool", IntKind::Bool),
    ("Char", IntKind::Char),
    ("SChar", IntKind::SChar),
    ("UChar", IntKind::UChar),
    ("Short", IntKind::Short),
    ("UShort", IntKind::UShort),
    ("Int", IntKind::Int),
    ("UInt", IntKind::UInt),
    ("Long", IntKind::Long),
    ("ULong", IntKind::ULong),
    ("LongLong", IntKind::LongLong),
    ("ULongLong", IntKind::ULongLong),
];

/// The kind of the name, or `int`.
fn kind_of(name: &str) -> IntKind {
    for (other, kind) in KINDS {
        if name == other {
            return kind;
        }
    }
    IntKind::Int
}

/// The number as an `int`.
fn int(word: &str) -> Int {
    Int {
        kind: IntKind::Int,
        value: word.parse::<i32>().unwrap_or(0) as i128,
    }
}

/// The value, or why there is none.
fn shown(alloc: Global, value: Result<Int, Undefined>) -> Result<String, AllocError> {
    match value {
        Ok(a) => {
            let value = a.value;
            format!(in alloc; "{value}")
        }
        Err(undefined) => format!(in alloc; "{undefined:?}"),
    }
}

/// `a op b` of two numbers of the kind `int`.
fn of_ints(alloc: Global, op: Op, given: &str) -> Result<String, AllocError> {
    let (a, b) = given.split_once(' ').unwrap_or((given, ""));
    let a = convert(IntKind::Int, int(a));
    let b = convert(IntKind::Int, int(b));
    shown(alloc, arith(op, a, b))
}

/// `KIND A B`: A, of this kind, shifted by B.
fn shifted(alloc: Global, left: bool, given: &str) -> Result<String, AllocError> {
    let (kind, rest) = given.split_once(' ').unwrap_or((given, ""));
    let (a, b) = rest.split_once(' ').unwrap_or((rest, ""));
    shown(alloc, shift(left, convert(kind_of(kind), int(a)), int(b)))
}

/// Whether the relation holds of two numbers of the kind `int`.
fn compared(alloc: Global, cmp: Cmp, given: &str) -> Result<String, AllocError> {
    let (a, b) = given.split_once(' ').unwrap_or((given, ""));
    let a = convert(IntKind::Int, int(a));
    let b = convert(IntKind::Int, int(b));
    let holds = compare(cmp, a, b);
    format!(in alloc; "{holds}")
}

/// The common kind of two.
fn of_kinds(alloc: Global, given: &str) -> Result<String, AllocError> {
    let (a, b) = given.split_once(' ').unwrap_or((given, ""));
    let kind = common(kind_of(a), kind_of(b));
    format!(in alloc; "{kind:?}")
}

/// The width, the sign and the range of a kind, and what it is promoted to.
fn told(alloc: Global, kind: IntKind) -> Result<String, AllocError> {
    let sign = if is_signed(kind) {
        "signed"
    } else {
        "unsigned"
    };
    let (bits, low, high, promoted) = (width(kind), least(kind), greatest(kind), promote(kind));
    format!(in alloc; "{bits} {sign} {low} {high} {promoted:?}")
}

/// What the call gives.
pub fn answer(alloc: Global, call: &str, given: &str) -> Result<String, AllocError> {
    match call {
        "add" => of_ints(alloc, Op::Add, given),
        "mul" => of_ints(alloc, Op::Mul, given),
        "div" => of_ints(alloc, Op::Div, given),
        "rem" => of_ints(alloc, Op::Rem, given),
        "left" => shifted(alloc, true, given),
        "right" => shifted(alloc, false, given),
        "less" => compared(alloc, Cmp::Lt, given),
        "differs" => compared(alloc, Cmp::Ne, given),
        "common" => of_kinds(alloc, given),
        "kind" => told(alloc, kind_of(given)),
        _ => String::from_str(alloc, "no case"),
    }
}
