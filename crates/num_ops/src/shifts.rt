//! Shifts and comparisons.

ghost use Rattle.std.specs.Prelude.{◌≡◌, ◌<◌, ◌^◌, ◌*ℤ◌, ◌<ℤ◌, ◌≤ℤ◌, pos, IsTrue};
ghost use Rattle.std.specs.Int.{int_div_euclid};
ghost use Rattle.num_ops.specs.Arithmetic.{outcome, shifted, shifted_left, compared};
ghost use Rattle.num_ops.specs.Kinds.{holds};

use crate::arithmetic::Undefined;
use crate::kinds::{IntKind, holds, is_signed, width};
use crate::numbers::{Int, exact, wrap};

/// A relational or equality operator (6.5.8, 6.5.9).
#[derive(Clone, Copy, Debug, PartialEq, Eq)]
pub enum Cmp {
    /// `<`
    Lt,
    /// `<=`
    Le,
    /// `>`
    Gt,
    /// `>=`
    Ge,
    /// `==`
    Eq,
    /// `!=`
    Ne,
}

/// The value of `a << b` where `left` is true, else of `a >> b`, of the left operand's kind. The
/// integer promotions come before it, on each operand.
pub fn shift(left: bool, a: Int, b: Int) -> Result<Int, Undefined>
    ensures { result ≡ outcome a.kind (shifted left a.kind a.value b.value) }
{
    shift_by(left, a.kind, a.value, b.value)
}

/// Whether `a cmp b`, of two values of one kind.
pub fn compare(cmp: Cmp, a: Int, b: Int) -> bool
    requires { a.kind ≡ b.kind }
    ensures { result ≡ compared cmp a.value b.value }
{
    match cmp {
        Cmp::Lt => a.value < b.value,
        Cmp::Le => a.value <= b.value,
        Cmp::Gt => a.value > b.value,
        Cmp::Ge => a.value >= b.value,
        Cmp::Eq => a.value == b.value,
        Cmp::Ne => a.value != b.value,
    }
}

/// A value moved by a count that is perhaps none.
fn shift_by(left: bool, kind: IntKind, a: i128, count: i128) -> Result<Int, Undefined>
    requires { IsTrue (holds kind a) }
    ensures { result ≡ outcome kind (shifted left kind a count) }
{
    if count < 0 || width(kind) as i128 <= count {
        return Err(Undefined::Shift);
    }
    let power = power_of_two(count as u32);
    if left {
        shift_left(kind, a, power)
    } else {
        Ok(shift_right(kind, a, power))
    }
}

fn power_of_two(count: u32) -> i128
    requires { count < 64 }
    ensures value { result ≡ pos (2 ^ count) }
    ensures low { pos 0 <ℤ result }
    ensures high { result ≤ℤ pos (2 ^ 63) }
{
    (1u64 << count) as i128
}

fn shift_left(kind: IntKind, a: i128, power: i128) -> Result<Int, Undefined>
    requires holds { IsTrue (holds kind a) }
    requires low { pos 0 <ℤ power }
    requires high { power ≤ℤ pos (2 ^ 63) }
    ensures { result ≡ outcome kind (shifted_left kind a (a *ℤ power)) }
{
    let product = a * power;
    if !is_signed(kind) {
        Ok(wrap(kind, product))
    } else if 0 <= a && holds(kind, product) {
        Ok(exact(kind, product))
    } else {
        Err(Undefined::Shift)
    }
}

fn shift_right(kind: IntKind, a: i128, power: i128) -> Int
    requires holds { IsTrue (holds kind a) }
    requires low { pos 0 <ℤ power }
    ensures { result ≡ record { kind = kind; value = int_div_euclid a power } }
{
    exact(kind, a.div_euclid(power))
}
