//! The kinds of integer constants.

ghost use Rattle.std.specs.Prelude.{◌≡◌, pos, IfSome, IsTrue};
ghost use Rattle.num_ops.specs.Constants as constants;
ghost use Rattle.num_ops.specs.Kinds as kinds;

use crate::kinds::{IntKind, holds};

/// How an integer constant is written (ISO/IEC 9899:2018, 6.4.4.1).
#[derive(Clone, Copy, Debug, PartialEq, Eq)]
pub enum Base {
    Octal,
    Decimal,
    Hexadecimal,
}

/// How many letters `l` or `L` its suffix has.
#[derive(Clone, Copy, Debug, PartialEq, Eq)]
pub enum Length {
    Plain,
    Long,
    LongLong,
}

/// The kind of an integer constant of this value: the first one of the standard's list for its base and
/// suffix that has the value (6.4.4.1, paragraph 5). None exactly where none of the list has it.
/// `is_unsigned`: whether the suffix has a `u` or `U`.
pub fn constant_kind(base: Base, is_unsigned: bool, length: Length, value: u64) -> Option<IntKind>
    ensures kind { result ≡ constants.constant_kind base is_unsigned length value }
    ensures holds { IfSome result (λ kind. IsTrue (kinds.holds kind (pos value))) }
{
    first_kind(value, kinds_for(base, is_unsigned, length))
}

/// The first kind of a list that has the value.
fn first_kind(value: u64, list: &[IntKind]) -> Option<IntKind>
    ensures kind { result ≡ constants.first_kind value list.now }
    ensures holds { IfSome result (λ kind. IsTrue (kinds.holds kind (pos value))) }
{
    for kind in list {
        if holds(*kind, value as i128) {
            return Some(*kind);
        }
    }
    None
}

/// The kinds that a constant may have.
fn kinds_for(base: Base, is_unsigned: bool, length: Length) -> &'static [IntKind]
    ensures { result.now ≡ constants.kinds_for base is_unsigned length }
{
    if is_unsigned {
        return unsigned_list(length);
    }
    match base {
        Base::Decimal => decimal_list(length),
        Base::Octal | Base::Hexadecimal => other_list(length),
    }
}

fn unsigned_list(length: Length) -> &'static [IntKind]
    ensures { result.now ≡ constants.unsigned_list length }
{
    match length {
        Length::Plain => &[IntKind::UInt, IntKind::ULong, IntKind::ULongLong],
        Length::Long => &[IntKind::ULong, IntKind::ULongLong],
        Length::LongLong => &[IntKind::ULongLong],
    }
}

fn decimal_list(length: Length) -> &'static [IntKind]
    ensures { result.now ≡ constants.decimal_list length }
{
    match length {
        Length::Plain => &[IntKind::Int, IntKind::Long, IntKind::LongLong],
        Length::Long => &[IntKind::Long, IntKind::LongLong],
        Length::LongLong => &[IntKind::LongLong],
    }
}

fn other_list(length: Length) -> &'static [IntKind]
    ensures { result.now ≡ constants.other_list length }
{
    match length {
        Length::Plain => &[
            IntKind::Int,
            IntKind::UInt,
            IntKind::Long,
            IntKind::ULong,
            IntKind::LongLong,
            IntKind::ULongLong,
        ],
        Length::Long => &[
            IntKind::Long,
            IntKind::ULong,
            IntKind::LongLong,
            IntKind::ULongLong,
        ],
        Length::LongLong => &[IntKind::LongLong, IntKind::ULongLong],
    }
}
