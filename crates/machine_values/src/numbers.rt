//! Integers, and what a value is as one.

ghost use Rattle.std.specs.Prelude.{◌≡◌};
ghost use Rattle.c_meaning.specs.Rules as rules;
ghost use Rattle.c_meaning.specs.Storage as storage;

use c_core::{Pointer, Scalar, Value};
use c_meaning::{number_in, pointer_in};
use num_ops::{Cmp, Int, IntKind, Op, Undefined};
use tok_base::Reason;

/// 0 or 1 of type `int` (6.5.8, 6.5.9).
#[inline]
pub fn truth_value(holds: bool) -> Value
    ensures { result ≡ rules.truth_value holds }
{
    if holds {
        Value::Int(Int {
            kind: IntKind::Int,
            value: 1,
        })
    } else {
        Value::Int(Int {
            kind: IntKind::Int,
            value: 0,
        })
    }
}

/// What stands where there is no value; nothing uses it.
#[inline]
pub fn no_value() -> Value
    ensures { result ≡ rules.no_value }
{
    Value::Ptr(Pointer::Null)
}

/// Whether a condition holds: its value compares unequal to 0.
#[inline]
pub fn holds(v: Value) -> bool
    ensures { result ≡ rules.holds v }
{
    number_in(v).value != 0
}

/// A value without its sign.
#[inline]
#[tactic(auto, using(num_ops::proofs::Bounds::holds_abs))]
pub fn natural_in(v: Value) -> u64
    ensures { result ≡ rules.natural_in v }
{
    number_in(v).value.unsigned_abs() as u64
}

/// A value modulo 256.
#[inline]
pub fn byte_in(v: Value) -> u8
    ensures { result ≡ storage.byte_in v }
{
    number_in(v).value.rem_euclid(256) as u8
}

/// The argument of `exit`, or the result of `main`, as an `int` (7.22.4.4, 5.1.2.2.3).
pub fn exit_code(v: Value) -> i32
    ensures { result ≡ rules.exit_code v }
{
    num_ops::convert(IntKind::Int, number_in(v)).value as i32
}

/// A value as one of an integer kind (6.3.1).
#[inline]
pub fn convert(kind: IntKind, v: Value) -> Value
    ensures { result ≡ rules.convert kind v }
{
    Value::Int(num_ops::convert(kind, number_in(v)))
}

/// A value as the object has it in which it is stored (6.5.16.1, 6.5.16.2).
#[inline]
pub fn as_kind(kind: Scalar, v: Value) -> Value
    ensures { result ≡ rules.as_kind kind v }
{
    match kind {
        Scalar::Int(kind) => convert(kind, v),
        Scalar::Ptr => Value::Ptr(pointer_in(v)),
    }
}

/// Why an operation of integers traps.
pub fn reason_of(cause: Undefined) -> Reason
    ensures { result ≡ rules.undefined_reason cause }
{
    match cause {
        Undefined::Overflow => Reason::Overflow,
        Undefined::DivZero => Reason::DivZero,
        Undefined::Shift => Reason::Shift,
    }
}

/// Arithmetic (6.5.5, 6.5.6, 6.5.10 to 6.5.12).
#[tactic(auto, using(crate::proofs::Outcomes::outcomes))]
pub fn arith(op: Op, a: Value, b: Value) -> Result<Value, Reason>
    ensures { result ≡ rules.arith op a b }
{
    let left = number_in(a);
    let right = num_ops::convert(left.kind, number_in(b));
    match num_ops::arith(op, left, right) {
        Ok(number) => Ok(Value::Int(number)),
        Err(cause) => Err(reason_of(cause)),
    }
}

/// A shift, to the left where true (6.5.7).
#[tactic(auto, using(crate::proofs::Outcomes::outcomes))]
pub fn shift(to_left: bool, a: Value, b: Value) -> Result<Value, Reason>
    ensures { result ≡ rules.shift to_left a b }
{
    match num_ops::shift(to_left, number_in(a), number_in(b)) {
        Ok(number) => Ok(Value::Int(number)),
        Err(cause) => Err(reason_of(cause)),
    }
}

/// A comparison (6.5.8, 6.5.9).
pub fn compare_int(op: Cmp, a: Value, b: Value) -> Value
    ensures { result ≡ rules.compare_int op a b }
{
    let left = number_in(a);
    let right = num_ops::convert(left.kind, number_in(b));
    truth_value(num_ops::compare(op, left, right))
}
