//! Conversions between integer kinds.

ghost use Rattle.std.specs.Prelude.{◌≡◌};
ghost use Rattle.num_ops.specs.Conversions.{converted, fitted_value, promoted, mixed_kind, promoted_common, common_kind};
ghost use Rattle.num_ops.specs.Kinds.{unsigned_kind};
ghost use Rattle.num_ops.specs.declared.kinds.IntKind.TheVariants as kind;

use crate::kinds::{IntKind, greatest, holds, is_signed, rank};
use crate::numbers::{Int, exact, wrap};

/// A value as one of another kind (6.3.1.2, 6.3.1.3): unchanged where that kind has it; 0 or 1 for
/// `_Bool`; else modulo 2^width.
pub fn convert(kind: IntKind, a: Int) -> Int
    ensures { result ≡ record { kind = kind; value = converted kind a.value } }
{
    match kind {
        IntKind::Bool => truth(a.value),
        _ => fit(kind, a.value),
    }
}

/// The kind that the integer promotions give (6.3.1.1).
pub fn promote(kind: IntKind) -> IntKind
    ensures { result ≡ promoted kind }
{
    if rank(kind) < rank(IntKind::Int) {
        IntKind::Int
    } else {
        kind
    }
}

/// The kind that the usual arithmetic conversions give (6.3.1.8).
pub fn common(a: IntKind, b: IntKind) -> IntKind
    ensures { result ≡ common_kind a b }
{
    common_promoted(promote(a), promote(b))
}

fn common_promoted(a: IntKind, b: IntKind) -> IntKind
    ensures { result ≡ promoted_common a b }
{
    match (is_signed(a), is_signed(b)) {
        (true, false) => common_mixed(a, b),
        (false, true) => common_mixed(b, a),
        _ => { if rank(a) < rank(b) { b } else { a } }
    }
}

fn common_mixed(signed: IntKind, unsigned: IntKind) -> IntKind
    ensures { result ≡ mixed_kind signed unsigned }
{
    if rank(signed) <= rank(unsigned) {
        unsigned
    } else if greatest(unsigned) <= greatest(signed) {
        signed
    } else {
        to_unsigned(signed)
    }
}

/// The unsigned kind of the same rank.
fn to_unsigned(kind: IntKind) -> IntKind
    ensures { result ≡ unsigned_kind kind }
{
    match kind {
        IntKind::Char | IntKind::SChar => IntKind::UChar,
        IntKind::Short => IntKind::UShort,
        IntKind::Int => IntKind::UInt,
        IntKind::Long => IntKind::ULong,
        IntKind::LongLong => IntKind::ULongLong,
        _ => kind,
    }
}

fn truth(value: i128) -> Int
    ensures { result ≡ record { kind = kind.Bool; value = converted kind.Bool value } }
{
    if value == 0 {
        exact(IntKind::Bool, 0)
    } else {
        exact(IntKind::Bool, 1)
    }
}

fn fit(kind: IntKind, value: i128) -> Int
    ensures { result ≡ record { kind = kind; value = fitted_value kind value } }
{
    if holds(kind, value) {
        exact(kind, value)
    } else {
        wrap(kind, value)
    }
}
