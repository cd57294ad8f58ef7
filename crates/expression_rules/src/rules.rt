//! Rules 15 to 28: what an expression demands of its parts, a function each (ISO/IEC 9899:2018, 6.5).

ghost use Rattle.std.specs.Prelude.{◌≡◌, ◌<◌, length};
ghost use Rattle.c_types.specs.CTypes as c;
ghost use Rattle.c_types.specs.Table.{type_at};
ghost use Rattle.c_rules.specs.Expressions as rules;
ghost use Rattle.c_world.specs.Seen.{seen};
ghost use Rattle.expression_rules.specs.Steps as steps;
ghost use Rattle.expression_rules.specs.Typed.{typed_of};

use crate::pointers::{
    are_alike, are_integers, is_beside_null, is_complete_pointer, is_function_pointer,
    is_object_pointer, is_void_pointer,
};
use crate::questions::{
    is_array, is_bool, is_function, is_integer, is_pointer, is_void, keeps_qualifiers, pointee,
};
use crate::typed::Typed;
use c_types::{Term, TypeId};
use c_world::World;

/// 15: an lvalue or a function.
pub fn has_address(world: &World, x: &Typed) -> bool
    requires { x.now.ty.0 < length world.now.table.terms }
    ensures { result ≡ rules.has_address (typed_of world.now.table.terms x.now) }
{
    x.is_lvalue || is_function(world, world.plain(x.ty))
}

/// 24: an lvalue that is no array, not const, no struct or union with a const member, and of a complete
/// type (6.3.2.1, paragraph 1).
pub fn is_modifiable(world: &World, x: &Typed) -> bool
    requires { x.now.ty.0 < length world.now.table.terms }
    ensures { result ≡ rules.is_modifiable (seen world.now) (typed_of world.now.table.terms x.now) }
{
    x.is_lvalue
        && !is_array(world, world.plain(x.ty))
        && !world.holds_const(x.ty)
        && world.is_complete(x.ty)
}

/// 16: a modifiable lvalue that is an integer or a pointer to a complete type.
pub fn can_step(world: &World, x: &Typed) -> bool
    requires { x.now.ty.0 < length world.now.table.terms }
    ensures { result ≡ rules.can_step (seen world.now) (typed_of world.now.table.terms x.now) }
{
    let plain = world.plain(x.ty);
    is_modifiable(world, x) && (is_integer(world, plain) || is_complete_pointer(world, plain))
}

/// 18: two integers, or a pointer to a complete type and an integer.
pub fn can_be_added(world: &World, a: TypeId, b: TypeId) -> bool
    requires left { a.0 < length world.now.table.terms }
    requires right { b.0 < length world.now.table.terms }
    ensures { result ≡ rules.can_be_added (seen world.now) (type_at world.now.table.terms a.0) (type_at world.now.table.terms b.0) }
{
    are_integers(world, a, b) || can_be_indexed(world, a, b)
}

/// 18: those with the pointer first, or pointers to compatible complete types.
pub fn can_be_subtracted(world: &World, a: TypeId, b: TypeId) -> bool
    requires left { a.0 < length world.now.table.terms }
    requires right { b.0 < length world.now.table.terms }
    ensures { result ≡ rules.can_be_subtracted (seen world.now) (type_at world.now.table.terms a.0) (type_at world.now.table.terms b.0) }
{
    are_integers(world, a, b)
        || (is_complete_pointer(world, a) && is_integer(world, b))
        || (are_alike(world, a, b)
            && is_complete_pointer(world, a)
            && is_complete_pointer(world, b))
}

/// 19: integers, or pointers to compatible object types.
pub fn can_be_ordered(world: &World, a: TypeId, b: TypeId) -> bool
    requires left { a.0 < length world.now.table.terms }
    requires right { b.0 < length world.now.table.terms }
    ensures { result ≡ rules.can_be_ordered (type_at world.now.table.terms a.0) (type_at world.now.table.terms b.0) }
{
    are_integers(world, a, b) || (are_alike(world, a, b) && is_object_pointer(world, a))
}

/// Two pointers of which one is a `void *`.
fn are_beside_void(world: &World, a: TypeId, b: TypeId) -> bool
    requires left { a.0 < length world.now.table.terms }
    requires right { b.0 < length world.now.table.terms }
    ensures { result ≡ steps.are_beside_void (type_at world.now.table.terms a.0) (type_at world.now.table.terms b.0) }
{
    (is_pointer(world, a) && is_void_pointer(world, b))
        || (is_void_pointer(world, a) && is_pointer(world, b))
}

/// A pointer to an object type and a `void *`.
fn are_objects_beside_void(world: &World, a: TypeId, b: TypeId) -> bool
    requires left { a.0 < length world.now.table.terms }
    requires right { b.0 < length world.now.table.terms }
    ensures { result ≡ steps.are_objects_beside_void (type_at world.now.table.terms a.0) (type_at world.now.table.terms b.0) }
{
    (is_object_pointer(world, a) && is_void_pointer(world, b))
        || (is_void_pointer(world, a) && is_object_pointer(world, b))
}

/// A pointer and a null pointer constant.
fn are_beside_null(world: &World, a: TypeId, b: TypeId, x: &Typed, y: &Typed) -> bool
    requires left { a.0 < length world.now.table.terms }
    requires right { b.0 < length world.now.table.terms }
    ensures { result ≡ steps.are_beside_null (type_at world.now.table.terms a.0) (type_at world.now.table.terms b.0) (typed_of world.now.table.terms x.now) (typed_of world.now.table.terms y.now) }
{
    is_beside_null(world, a, y) || is_beside_null(world, b, x)
}

/// 20: integers, pointers to compatible types, a pointer and a `void *`, or a pointer and a null pointer
/// constant; `a` and `b` are the types of the values of `x` and `y`.
pub fn can_be_equal(world: &World, a: TypeId, b: TypeId, x: &Typed, y: &Typed) -> bool
    requires left { a.0 < length world.now.table.terms }
    requires right { b.0 < length world.now.table.terms }
    ensures { result ≡ rules.can_be_equal (type_at world.now.table.terms a.0) (type_at world.now.table.terms b.0) (typed_of world.now.table.terms x.now) (typed_of world.now.table.terms y.now) }
{
    are_integers(world, a, b)
        || are_alike(world, a, b)
        || are_beside_void(world, a, b)
        || are_beside_null(world, a, b, x, y)
}

/// 22: two integers, two voids, two pointers to compatible types, a pointer and a null pointer constant, or
/// an object pointer and a `void *`.
pub fn can_be_chosen(world: &World, a: TypeId, b: TypeId, x: &Typed, y: &Typed) -> bool
    requires left { a.0 < length world.now.table.terms }
    requires right { b.0 < length world.now.table.terms }
    ensures { result ≡ rules.can_be_chosen (type_at world.now.table.terms a.0) (type_at world.now.table.terms b.0) (typed_of world.now.table.terms x.now) (typed_of world.now.table.terms y.now) }
{
    are_integers(world, a, b)
        || (is_void(world, a) && is_void(world, b))
        || are_alike(world, a, b)
        || are_beside_null(world, a, b, x, y)
        || are_objects_beside_void(world, a, b)
}

/// 23: whether a pointer that is no null pointer constant is converted to a pointer.
fn fits_pointer(world: &World, to: TypeId, from: TypeId) -> bool
    requires to { to.0 < length world.now.table.terms }
    requires from { from.0 < length world.now.table.terms }
    ensures { result ≡ rules.fits_pointer (type_at world.now.table.terms to.0) (type_at world.now.table.terms from.0) }
{
    (are_alike(world, to, from) || are_objects_beside_void(world, to, from))
        && keeps_qualifiers(world, pointee(world, to), pointee(world, from))
}

/// Whether both are one struct or union.
fn is_same_record(world: &World, a: TypeId, b: TypeId) -> bool
    requires left { a.0 < length world.now.table.terms }
    requires right { b.0 < length world.now.table.terms }
    ensures { result ≡ rules.is_same_record (type_at world.now.table.terms a.0) (type_at world.now.table.terms b.0) }
{
    match world.term(a) {
        Term::Record(number) => is_record_numbered(world, *number, b),
        _ => false,
    }
}

fn is_record_numbered(world: &World, number: u64, id: TypeId) -> bool
    requires { id.0 < length world.now.table.terms }
    ensures { result ≡ rules.is_same_record (c.Record number) (type_at world.now.table.terms id.0) }
{
    match world.term(id) {
        Term::Record(other) => number == *other,
        _ => false,
    }
}

/// Whether a value goes to a pointer or to `_Bool`.
fn fits_scalar(world: &World, to: TypeId, from: TypeId, x: &Typed) -> bool
    requires to { to.0 < length world.now.table.terms }
    requires from { from.0 < length world.now.table.terms }
    ensures { result ≡ steps.fits_scalar (type_at world.now.table.terms to.0) (type_at world.now.table.terms from.0) (typed_of world.now.table.terms x.now) }
{
    (is_bool(world, to) && is_pointer(world, from))
        || is_beside_null(world, to, x)
        || (is_pointer(world, to) && is_pointer(world, from) && fits_pointer(world, to, from))
}

/// 23: whether a value of `x`, whose type is `from`, is converted as by assignment to a plain type.
pub fn fits(world: &World, to: TypeId, from: TypeId, x: &Typed) -> bool
    requires to { to.0 < length world.now.table.terms }
    requires from { from.0 < length world.now.table.terms }
    ensures { result ≡ rules.fits (type_at world.now.table.terms to.0) (type_at world.now.table.terms from.0) (typed_of world.now.table.terms x.now) }
{
    are_integers(world, to, from)
        || fits_scalar(world, to, from, x)
        || is_same_record(world, to, from)
}

/// Two object pointers, or two function pointers.
fn are_pointers_of_a_sort(world: &World, a: TypeId, b: TypeId) -> bool
    requires left { a.0 < length world.now.table.terms }
    requires right { b.0 < length world.now.table.terms }
    ensures { result ≡ steps.are_pointers_of_a_sort (type_at world.now.table.terms a.0) (type_at world.now.table.terms b.0) }
{
    (is_object_pointer(world, a) && is_object_pointer(world, b))
        || (is_function_pointer(world, a) && is_function_pointer(world, b))
}

/// 26: whether a value of `x`, whose type is `from`, is cast to a plain type.
pub fn casts(world: &World, to: TypeId, from: TypeId, x: &Typed) -> bool
    requires to { to.0 < length world.now.table.terms }
    requires from { from.0 < length world.now.table.terms }
    ensures { result ≡ steps.casts (type_at world.now.table.terms to.0) (type_at world.now.table.terms from.0) (typed_of world.now.table.terms x.now) }
{
    is_void(world, to)
        || are_integers(world, to, from)
        || are_pointers_of_a_sort(world, to, from)
        || is_beside_null(world, to, x)
        || (is_bool(world, to) && is_pointer(world, from))
}

/// 28: a pointer to a complete type and an integer, on either side.
pub fn can_be_indexed(world: &World, a: TypeId, b: TypeId) -> bool
    requires left { a.0 < length world.now.table.terms }
    requires right { b.0 < length world.now.table.terms }
    ensures { result ≡ rules.can_be_indexed (seen world.now) (type_at world.now.table.terms a.0) (type_at world.now.table.terms b.0) }
{
    (is_complete_pointer(world, a) && is_integer(world, b))
        || (is_integer(world, a) && is_complete_pointer(world, b))
}
