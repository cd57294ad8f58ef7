//! Arithmetic on two values of one promoted kind.

ghost use Rattle.std.specs.Prelude.{◌≡◌, ◌<◌, ◌+ℤ◌, ◌-ℤ◌, ◌*ℤ◌, ◌*◌, ◌^◌, pos, IsTrue};
ghost use Rattle.num_ops.specs.Arithmetic.{arithmetic, outcome, fitted, quotient, remainder};
ghost use Rattle.num_ops.specs.Conversions.{bits_of, wrapped};
ghost use Rattle.num_ops.specs.Kinds.{holds, width};

use crate::kinds::{IntKind, holds, is_signed, modulus};
use crate::numbers::{Int, exact, from_residue, wrap};

/// An operator of 6.5.5, 6.5.6 or 6.5.10 to 6.5.12.
#[derive(Clone, Copy, Debug, PartialEq, Eq)]
pub enum Op {
    /// `+`
    Add,
    /// `-`
    Sub,
    /// `*`
    Mul,
    /// `/`
    Div,
    /// `%`
    Rem,
    /// `&`
    BitAnd,
    /// `|`
    BitOr,
    /// `^`
    BitXor,
}

/// Why the standard leaves an operation undefined.
#[derive(Clone, Copy, Debug, PartialEq, Eq)]
pub enum Undefined {
    /// A signed result is out of range, that of `/` also where `%` is asked for (6.5, 6.5.5).
    Overflow,
    /// The divisor is 0 (6.5.5).
    DivZero,
    /// The count is negative or not below the width, or a left shift is of a negative value or out of
    /// range (6.5.7).
    Shift,
}

/// The value of `a op b`, of the operands' kind. The integer promotions and the usual arithmetic
/// conversions come before it, so that this is one promoted kind.
pub fn arith(op: Op, a: Int, b: Int) -> Result<Int, Undefined>
    requires { a.kind ≡ b.kind }
    ensures { result ≡ outcome a.kind (arithmetic op a.kind a.value b.value) }
{
    compute(op, a.kind, a.value, b.value)
}

fn compute(op: Op, kind: IntKind, a: i128, b: i128) -> Result<Int, Undefined>
    requires left { IsTrue (holds kind a) }
    requires right { IsTrue (holds kind b) }
    ensures { result ≡ outcome kind (arithmetic op kind a b) }
{
    match op {
        Op::Add => add(kind, a, b),
        Op::Sub => subtract(kind, a, b),
        Op::Mul => multiply(kind, a, b),
        Op::Div => divide(kind, a, b),
        Op::Rem => divide_rest(kind, a, b),
        Op::BitAnd => Ok(from_residue(kind, bits(kind, a) & bits(kind, b))),
        Op::BitOr => Ok(from_residue(kind, bits(kind, a) | bits(kind, b))),
        Op::BitXor => Ok(from_residue(kind, bits(kind, a) ^ bits(kind, b))),
    }
}

/// An exact result as a value of the kind.
fn fit(kind: IntKind, value: i128) -> Result<Int, Undefined>
    ensures { result ≡ outcome kind (fitted kind value) }
{
    if holds(kind, value) {
        Ok(exact(kind, value))
    } else if is_signed(kind) {
        Err(Undefined::Overflow)
    } else {
        Ok(wrap(kind, value))
    }
}

fn add(kind: IntKind, a: i128, b: i128) -> Result<Int, Undefined>
    requires left { IsTrue (holds kind a) }
    requires right { IsTrue (holds kind b) }
    ensures { result ≡ outcome kind (fitted kind (a +ℤ b)) }
{
    fit(kind, a + b)
}

fn subtract(kind: IntKind, a: i128, b: i128) -> Result<Int, Undefined>
    requires left { IsTrue (holds kind a) }
    requires right { IsTrue (holds kind b) }
    ensures { result ≡ outcome kind (fitted kind (a -ℤ b)) }
{
    fit(kind, a - b)
}

fn multiply(kind: IntKind, a: i128, b: i128) -> Result<Int, Undefined>
    requires left { IsTrue (holds kind a) }
    requires right { IsTrue (holds kind b) }
    ensures { result ≡ outcome kind (fitted kind (a *ℤ b)) }
{
    if is_signed(kind) {
        fit(kind, a * b)
    } else {
        Ok(multiply_unsigned(kind, a as u128, b as u128))
    }
}

/// The product of two unsigned values, which can have 128 bits.
fn multiply_unsigned(kind: IntKind, a: u128, b: u128) -> Int
    requires left { a < 2 ^ 64 }
    requires right { b < 2 ^ 64 }
    ensures { result ≡ record { kind = kind; value = wrapped kind (pos (a * b)) } }
{
    from_residue(kind, a * b % modulus(kind) as u128)
}

fn divide(kind: IntKind, a: i128, b: i128) -> Result<Int, Undefined>
    requires left { IsTrue (holds kind a) }
    requires right { IsTrue (holds kind b) }
    ensures { result ≡ outcome kind (quotient kind a b) }
{
    if b == 0 {
        return Err(Undefined::DivZero);
    }
    fit(kind, a / b)
}

/// What a division leaves.
fn divide_rest(kind: IntKind, a: i128, b: i128) -> Result<Int, Undefined>
    requires left { IsTrue (holds kind a) }
    requires right { IsTrue (holds kind b) }
    ensures { result ≡ outcome kind (remainder kind a b) }
{
    if b == 0 {
        Err(Undefined::DivZero)
    } else if holds(kind, a / b) {
        Ok(exact(kind, a % b))
    } else {
        Err(Undefined::Overflow)
    }
}

/// The bits of a value in two's complement.
fn bits(kind: IntKind, value: i128) -> u128
    ensures value { result ≡ bits_of kind value }
    ensures bound { result < 2 ^ width kind }
{
    value.rem_euclid(modulus(kind)) as u128
}
