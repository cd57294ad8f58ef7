//! Terms: a type by its parts, which are numbers of earlier types.

use num_ops::IntKind;
use std::alloc::AllocError;
use tok_base::{Bytes, Items, NoMemory};

/// The number of a type in its table.
#[derive(Clone, Copy, Debug, PartialEq, Eq, Hash)]
pub struct TypeId(pub u64);

/// A type by its parts (ISO/IEC 9899:2018, 6.2.5 and 6.7).
#[derive(Debug, Drop)]
pub enum Term {
    Void,
    Int(IntKind),
    /// An enumeration by its number.
    Enum(u64),
    Pointer(TypeId),
    /// So many elements of a type.
    Array(TypeId, u32),
    /// An array without a length.
    Flexible(TypeId),
    /// A function by its result and its parameters.
    Function(TypeId, Items<TypeId>),
    /// A struct or union by its number.
    Record(u64),
    /// A typedef name and its type.
    Named(Bytes, TypeId),
    /// A type with qualifiers: const is 1, volatile 2, restrict 4.
    Qualified(u8, TypeId),
}

/// Why a type can't be made.
#[derive(Clone, Copy, Debug, PartialEq, Eq)]
pub enum TypeEnd {
    /// It would have 2^28 bytes or more.
    TooLarge,
    /// An element or a member has no size.
    Incomplete,
    /// There was no memory.
    NoMemory,
}

impl From<NoMemory> for TypeEnd {
    ghost use Rattle.std.specs.Prelude.{◌≡◌};
    ghost use Rattle.c_types.specs.declared.terms.TypeEnd.TheVariants as end;

    ghost from_gives = { λ _ result. result ≡ end.NoMemory };

    fn from(_: NoMemory) -> TypeEnd {
        TypeEnd::NoMemory
    }
}

impl From<AllocError> for TypeEnd {
    ghost use Rattle.std.specs.Prelude.{◌≡◌};
    ghost use Rattle.c_types.specs.declared.terms.TypeEnd.TheVariants as end;

    ghost from_gives = { λ _ result. result ≡ end.NoMemory };

    fn from(_: AllocError) -> TypeEnd {
        TypeEnd::NoMemory
    }
}
