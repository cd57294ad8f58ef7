//! The operands of a step, as its rule takes them.

ghost use Rattle.std.specs.Prelude.{◌≡◌};
ghost use Rattle.c_meaning.specs.Rules as rules;

use c_core::{Pointer, Value};
use num_ops::{Int, IntKind};

/// An integer operand. A well-formed program has no pointer there; it would count as 0.
pub fn number_in(value: Value) -> Int
    ensures { result ≡ rules.number_in value }
{
    match value {
        Value::Int(number) => number,
        Value::Ptr(_) => Int {
            kind: IntKind::Int,
            value: 0,
        },
    }
}

/// A pointer operand. A well-formed program has no integer there; it would count as null.
pub fn pointer_in(value: Value) -> Pointer
    ensures { result ≡ rules.pointer_in value }
{
    match value {
        Value::Int(_) => Pointer::Null,
        Value::Ptr(pointer) => pointer,
    }
}

/// Whether a pointer is null.
pub fn is_null(pointer: Pointer) -> bool
    ensures { result ≡ rules.is_null pointer }
{
    match pointer {
        Pointer::Null => true,
        Pointer::Object(_, _) | Pointer::Function(_) => false,
    }
}
