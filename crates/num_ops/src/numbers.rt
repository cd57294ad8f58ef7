//! A value of an integer kind.

ghost use Rattle.std.specs.Prelude.{◌≡◌, ◌<◌, ◌^◌, IsTrue};
ghost use Rattle.num_ops.specs.Conversions.{wrapped, from_bits};
ghost use Rattle.num_ops.specs.Kinds.{holds, width};

use crate::kinds::{IntKind, greatest, modulus};
use std::marker::Model;

/// A value of an integer kind; `value` is in the kind's range.
#[derive(Clone, Copy, Debug, PartialEq, Eq)]
pub struct Int {
    pub kind: IntKind,
    pub value: i128,
}

impl Model for Int {
    ghost use Rattle.std.specs.Prelude.{IsTrue};
    ghost use Rattle.num_ops.specs.Numbers.{Number};
    ghost use Rattle.num_ops.specs.Kinds.{holds};

    ghost Value = { Number };

    ghost view = { λ a. record { kind = a.kind; value = a.value } };

    ghost invariant = { λ a. IsTrue (holds a.kind a.value) };

    ghost inverse = { λ n. record { kind = n.kind; value = n.value } };
}

/// What is left of a number modulo the count of the kind's values, as a value of the kind.
pub(crate) fn wrap(kind: IntKind, value: i128) -> Int
    ensures { result ≡ record { kind = kind; value = wrapped kind value } }
{
    from_residue(kind, value.rem_euclid(modulus(kind)) as u128)
}

/// A value of a kind that has it.
pub(crate) fn exact(kind: IntKind, value: i128) -> Int
    requires { IsTrue (holds kind value) }
    ensures { result ≡ record { kind = kind; value = value } }
{
    Int { kind, value }
}

/// The value with these bits.
pub(crate) fn from_residue(kind: IntKind, residue: u128) -> Int
    requires { residue < 2 ^ width kind }
    ensures { result ≡ record { kind = kind; value = from_bits kind residue } }
{
    let value = residue as i128;
    if value <= greatest(kind) {
        exact(kind, value)
    } else {
        exact(kind, value - modulus(kind))
    }
}
