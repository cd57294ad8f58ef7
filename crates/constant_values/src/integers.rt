//! What the operators make of values, as constants.

ghost use Rattle.std.specs.Prelude.{◌≡◌, ◌<◌, ◌^◌, ◌*ℤ◌, ◌<ℤ◌, ◌≤ℤ◌, pos, negsuc, true, false};
ghost use Rattle.std.specs.Int.{int_div_euclid};
ghost use Rattle.num_ops.specs.Arithmetic.{arithmetic, shifted, shifted_left, fitted, compared};
ghost use Rattle.num_ops.specs.Conversions.{wrapped, converted, promoted, is_zero};
ghost use Rattle.num_ops.specs.Kinds as kinds;
ghost use Rattle.num_ops.specs.declared.arithmetic.Op.TheVariants as op;
ghost use Rattle.c_rules.specs.Typed.{is};
ghost use Rattle.c_rules.specs.Constants.{constant_from, truth};
ghost use Rattle.constant_values.specs.Constants.{IsBounded};
ghost use Rattle.constant_values.specs.Forms as forms;

use crate::constant::Constant;
use num_ops::{
    Cmp, Int, IntKind, Op, Undefined, arith, compare, convert, greatest, is_signed, least, promote,
    width,
};

/// A value as one of a kind that has it.
fn int_of(value: i128) -> Int
    requires { IsBounded value }
    ensures { result.value ≡ value }
{
    if value < 0 {
        Int {
            kind: IntKind::Long,
            value,
        }
    } else {
        Int {
            kind: IntKind::ULong,
            value,
        }
    }
}

/// A value as one of a kind (ISO/IEC 9899:2018, 6.3.1.3).
pub(crate) fn converted(kind: IntKind, value: i128) -> Int
    requires { IsBounded value }
    ensures { result ≡ record { kind = kind; value = converted kind value } }
{
    convert(kind, int_of(value))
}

/// What an operation gives.
fn of_result(outcome: Result<Int, Undefined>) -> Constant
    ensures { result ≡ forms.of_result outcome }
{
    match outcome {
        Ok(int) => Constant::of_int(int),
        Err(_) => Constant::undefined(),
    }
}

/// 1 or 0.
pub(crate) fn of_truth(holds: bool) -> Constant
    ensures { result ≡ is (truth holds) }
{
    if holds {
        Constant::of_i32(1)
    } else {
        Constant::of_i32(0)
    }
}

/// An operator of 6.5.5, 6.5.6 or 6.5.10 to 6.5.12, of operands that are converted to one kind.
pub(crate) fn arithmetic_at(op: Op, kind: IntKind, a: i128, b: i128) -> Constant
    requires left { IsBounded a }
    requires right { IsBounded b }
    ensures { result ≡ constant_from (arithmetic op kind (converted kind a) (converted kind b)) }
{
    of_result(arith(op, converted(kind, a), converted(kind, b)))
}

/// A comparison of operands that are converted to one kind (6.5.8, 6.5.9).
pub(crate) fn comparison_at(cmp: Cmp, kind: IntKind, a: i128, b: i128) -> Constant
    requires left { IsBounded a }
    requires right { IsBounded b }
    ensures { result ≡ is (truth (compared cmp (converted kind a) (converted kind b))) }
{
    of_truth(compare(cmp, converted(kind, a), converted(kind, b)))
}

/// What 0 less a value is in a kind (6.5.3.3).
pub(crate) fn minus_at(kind: IntKind, a: i128) -> Constant
    requires { IsBounded a }
    ensures { result ≡ constant_from (arithmetic op.Sub kind (pos 0) a) }
{
    fit(kind, 0 - a)
}

/// Each bit turned, in a promoted kind.
pub(crate) fn complement_at(kind: IntKind, a: i128) -> Constant
    requires { IsBounded a }
    ensures { result ≡ constant_from (arithmetic op.BitXor (promoted kind) a (converted (promoted kind) (negsuc 0))) }
{
    arithmetic_at(Op::BitXor, promote(kind), a, -1)
}

/// A shift in a kind by a count that is perhaps none (6.5.7).
pub(crate) fn shift_at(left: bool, kind: IntKind, a: i128, count: i128) -> Constant
    requires { IsBounded a }
    ensures { result ≡ constant_from (shifted left kind a count) }
{
    if count < 0 || width(kind) as i128 <= count {
        return Constant::undefined();
    }
    if left {
        shift_left(kind, a, power_of_two(count as u32))
    } else {
        shift_right(a, power_of_two(count as u32))
    }
}

/// A value over a power of two, rounded down.
fn shift_right(a: i128, power: i128) -> Constant
    requires bounded { IsBounded a }
    requires low { pos 0 <ℤ power }
    ensures { result ≡ is (int_div_euclid a power) }
{
    Constant::is(a.div_euclid(power))
}

fn power_of_two(count: u32) -> i128
    requires { count < 64 }
    ensures value { result ≡ pos (2 ^ count) }
    ensures low { pos 0 <ℤ result }
    ensures high { result ≤ℤ pos (2 ^ 63) }
{
    (1u64 << count) as i128
}

fn shift_left(kind: IntKind, a: i128, power: i128) -> Constant
    requires bounded { IsBounded a }
    requires low { pos 0 <ℤ power }
    requires high { power ≤ℤ pos (2 ^ 63) }
    ensures { result ≡ constant_from (shifted_left kind a (a *ℤ power)) }
{
    fit_left(kind, a, a * power)
}

/// What a left shift makes of the exact product (6.5.7, paragraph 4).
fn fit_left(kind: IntKind, a: i128, product: i128) -> Constant
    ensures { result ≡ constant_from (shifted_left kind a product) }
{
    if is_signed(kind) {
        fit_signed_left(kind, a, product)
    } else {
        wrap(kind, product)
    }
}

fn fit_signed_left(kind: IntKind, a: i128, product: i128) -> Constant
    requires { kinds.is_signed kind ≡ true }
    ensures { result ≡ constant_from (shifted_left kind a product) }
{
    if 0 <= a && holds(kind, product) {
        Constant::is(product)
    } else {
        Constant::undefined()
    }
}

/// An exact result as a kind has it (6.5, paragraph 5, and 6.2.5, paragraph 9).
fn fit(kind: IntKind, value: i128) -> Constant
    ensures { result ≡ constant_from (fitted kind value) }
{
    if holds(kind, value) {
        Constant::is(value)
    } else if is_signed(kind) {
        Constant::undefined()
    } else {
        wrap(kind, value)
    }
}

/// What is left of a number modulo the count of an unsigned kind's values.
fn wrap(kind: IntKind, value: i128) -> Constant
    requires { kinds.is_signed kind ≡ false }
    ensures { result ≡ is (wrapped kind value) }
{
    Constant::is(value.rem_euclid(greatest(kind) + 1))
}

/// Whether a kind has this value.
fn holds(kind: IntKind, value: i128) -> bool
    ensures { result ≡ kinds.holds kind value }
{
    least(kind) <= value && value <= greatest(kind)
}

/// Whether a value is 0.
pub(crate) fn is_zero(value: i128) -> bool
    ensures { result ≡ is_zero value }
{
    value == 0
}
