//! What the table keeps of each type.

ghost use Rattle.std.specs.Prelude.{◌≡◌, List, ℕ, Option};
ghost use Rattle.c_types.specs.CTypes as c;
ghost use Rattle.c_types.specs.CTypes.{CType, CTypes};
ghost use Rattle.c_types.specs.Pointers.{is_uintptr};

use crate::terms::TypeId;
use num_ops::{IntKind, width};
use tok_base::Bytes;

/// The size, alignment and pointer test of a type that is no record, also behind typedef names and
/// qualifiers; of a record its number, its body having the rest.
#[derive(Clone, Copy, Debug)]
pub struct Facts {
    pub record_number: Option<u64>,
    pub size: Option<u32>,
    pub align: Option<u32>,
    pub has_pointer: bool,
    pub is_flexible: bool,
    /// Whether it, or an array's element, is const.
    pub is_const: bool,
    /// The record that it is, or that an array's elements are.
    pub held: Option<u64>,
}

/// Types that are found from a type, and how long its spelling is.
#[derive(Clone, Copy, Debug)]
pub struct Shape {
    /// The canonical type.
    pub root: TypeId,
    /// The canonical type in which enumerations count as `int`.
    pub ints: TypeId,
    /// The type behind outer typedef names and qualifiers.
    pub plain: TypeId,
    /// The qualifiers that are met on the way to it.
    pub qualifiers: u8,
    pub spelled: Spelled,
}

/// How many bytes the spelling of a canonical type has, and whether a space comes in where a text stands
/// inside. The room for a spelling is made by it; no contract speaks of it.
#[derive(Clone, Copy, Debug)]
pub struct Spelled {
    /// It stops at 2^64 - 1.
    pub length: u64,
    pub takes_space: bool,
}

impl Facts {
    ghost use Rattle.c_types.specs.Facts.{IsFact};
    ghost use Rattle.c_types.specs.declared.records.Layout.{Layout};

    /// Of void, and of a function.
    pub fn without_size() -> Facts
        ensures void { (ls : List (Option Layout)) → IsFact ls c.Void result }
        ensures function { (ls : List (Option Layout)) (t : CType) (ps : CTypes) → IsFact ls (c.Function t ps) result }
    {
        Facts {
            record_number: None,
            size: None,
            align: None,
            has_pointer: false,
            is_flexible: false,
            is_const: false,
            held: None,
        }
    }

    /// Of an integer type.
    pub fn of_int(kind: IntKind) -> Facts
        ensures { (ls : List (Option Layout)) → IsFact ls (c.Int kind) result }
    {
        let size = (width(kind) + 7) / 8;
        Facts {
            record_number: None,
            size: Some(size),
            align: Some(size),
            has_pointer: false,
            is_flexible: false,
            is_const: false,
            held: None,
        }
    }

    /// Of an enumeration, which is stored as an `int`.
    pub fn of_enum() -> Facts
        ensures { (ls : List (Option Layout)) (e : ℕ) → IsFact ls (c.Enum e) result }
    {
        Facts {
            record_number: None,
            size: Some(4),
            align: Some(4),
            has_pointer: false,
            is_flexible: false,
            is_const: false,
            held: None,
        }
    }

    /// Of a pointer.
    pub fn of_pointer() -> Facts
        ensures { (ls : List (Option Layout)) (t : CType) → IsFact ls (c.Pointer t) result }
    {
        Facts {
            record_number: None,
            size: Some(8),
            align: Some(8),
            has_pointer: true,
            is_flexible: false,
            is_const: false,
            held: None,
        }
    }

    /// Of a record.
    pub fn of_record(number: u64) -> Facts
        ensures { (ls : List (Option Layout)) → IsFact ls (c.Record number) result }
    {
        Facts {
            record_number: Some(number),
            size: None,
            align: None,
            has_pointer: false,
            is_flexible: false,
            is_const: false,
            held: Some(number),
        }
    }
}

/// Whether a typedef name is that of the integer type which holds a pointer.
pub fn name_is_uintptr(name: &Bytes) -> bool
    ensures { result ≡ is_uintptr name.now }
{
    name.as_slice() == b"uintptr_t".as_slice()
}
