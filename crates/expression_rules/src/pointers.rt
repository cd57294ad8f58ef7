//! What the rules ask of pointers and of two types.

ghost use Rattle.std.specs.Prelude.{◌≡◌, ◌<◌, ◌||◌, length, unwrap_or};
ghost use Rattle.c_types.specs.Table.{type_at};
ghost use Rattle.c_rules.specs.Expressions as rules;
ghost use Rattle.c_rules.specs.Forms as forms;
ghost use Rattle.c_rules.specs.Typed as typed;
ghost use Rattle.c_rules.specs.Types as types;
ghost use Rattle.c_rules.specs.World.{size_in};
ghost use Rattle.c_world.specs.Seen.{seen};
ghost use Rattle.expression_rules.specs.Typed.{typed_of};

use crate::questions::{
    is_array, is_function, is_integer, is_pointer, is_record, is_void, pointee,
};
use crate::typed::Typed;
use c_types::{Term, TypeId};
use c_world::World;
use constant_values::{Address, Constant};

/// Whether it points to an object type, complete or not (ISO/IEC 9899:2018, 6.2.5, paragraph 1).
pub fn is_object_pointer(world: &World, id: TypeId) -> bool
    requires { id.0 < length world.now.table.terms }
    ensures { result ≡ rules.is_object_pointer (type_at world.now.table.terms id.0) }
{
    match world.term(id) {
        Term::Pointer(to) => !is_function(world, world.plain(*to)),
        _ => false,
    }
}

pub fn is_function_pointer(world: &World, id: TypeId) -> bool
    requires { id.0 < length world.now.table.terms }
    ensures { result ≡ rules.is_function_pointer (type_at world.now.table.terms id.0) }
{
    match world.term(id) {
        Term::Pointer(to) => is_function(world, world.plain(*to)),
        _ => false,
    }
}

pub fn is_void_pointer(world: &World, id: TypeId) -> bool
    requires { id.0 < length world.now.table.terms }
    ensures { result ≡ rules.is_void_pointer (type_at world.now.table.terms id.0) }
{
    match world.term(id) {
        Term::Pointer(to) => is_void(world, world.plain(*to)),
        _ => false,
    }
}

pub fn is_complete_pointer(world: &World, id: TypeId) -> bool
    requires { id.0 < length world.now.table.terms }
    ensures { result ≡ rules.is_complete_pointer (seen world.now) (type_at world.now.table.terms id.0) }
{
    match world.term(id) {
        Term::Pointer(to) => world.is_complete(*to),
        _ => false,
    }
}

/// Whether both are pointers, to compatible types.
pub fn are_alike(world: &World, a: TypeId, b: TypeId) -> bool
    requires left { a.0 < length world.now.table.terms }
    requires right { b.0 < length world.now.table.terms }
    ensures { result ≡ rules.are_alike (type_at world.now.table.terms a.0) (type_at world.now.table.terms b.0) }
{
    is_pointer(world, a)
        && is_pointer(world, b)
        && world.alike(pointee(world, a), pointee(world, b))
}

pub fn are_integers(world: &World, a: TypeId, b: TypeId) -> bool
    requires left { a.0 < length world.now.table.terms }
    requires right { b.0 < length world.now.table.terms }
    ensures { result ≡ rules.are_integers (type_at world.now.table.terms a.0) (type_at world.now.table.terms b.0) }
{
    is_integer(world, a) && is_integer(world, b)
}

/// Whether `*` can lead to this type: a complete object type, a struct or union, or a function.
fn is_referent(world: &World, id: TypeId) -> bool
    requires { id.0 < length world.now.table.terms }
    ensures { result ≡ rules.is_referent (seen world.now) (type_at world.now.table.terms id.0) }
{
    let plain = world.plain(id);
    world.is_complete(id) || is_record(world, plain) || is_function(world, plain)
}

/// Whether `*` takes a value of this type (6.5.3.2).
pub fn can_be_followed(world: &World, id: TypeId) -> bool
    requires { id.0 < length world.now.table.terms }
    ensures { result ≡ rules.can_be_followed (seen world.now) (type_at world.now.table.terms id.0) }
{
    match world.term(id) {
        Term::Pointer(to) => is_referent(world, *to),
        _ => false,
    }
}

/// A null pointer constant (6.3.2.3, paragraph 3).
pub fn is_null_constant(x: &Typed) -> bool
    ensures { result ≡ (typed.is_zero_constant x.now.value || x.now.is_null) }
{
    x.value.is_zero() || x.is_null
}

/// Whether one type is a pointer and the other operand a null pointer constant.
pub fn is_beside_null(world: &World, id: TypeId, other: &Typed) -> bool
    requires { id.0 < length world.now.table.terms }
    ensures { result ≡ rules.is_beside_null (type_at world.now.table.terms id.0) (typed_of world.now.table.terms other.now) }
{
    is_pointer(world, id) && is_null_constant(other)
}

/// What the value of an expression points to, where that is constant.
#[tactic(auto, using(constant_values::specs::Forms::pointed_is))]
pub fn pointed(world: &World, x: &Typed) -> Address
    requires { x.now.ty.0 < length world.now.table.terms }
    ensures { result ≡ typed.pointed (typed_of world.now.table.terms x.now) }
{
    let is_an_array = is_array(world, world.plain(x.ty));
    x.address.pointed(x.is_lvalue, is_an_array)
}

/// The size in bytes of what a pointer points to, 0 where it has none.
pub fn step_size(world: &World, pointer: TypeId) -> u32
    requires { pointer.0 < length world.now.table.terms }
    ensures { result ≡ unwrap_or (size_in (seen world.now) (types.pointee (type_at world.now.table.terms pointer.0))) 0 }
{
    let to = pointee(world, pointer);
    world.size_of(to).unwrap_or(0)
}

/// So many elements further than a pointer of this type.
#[tactic(auto, using(constant_values::specs::Forms::moved_by_is))]
pub fn moved_by(world: &World, pointer: TypeId, by: Constant, address: Address) -> Address
    requires { pointer.0 < length world.now.table.terms }
    ensures { result ≡ forms.moved_by (seen world.now) (type_at world.now.table.terms pointer.0) by address }
{
    address.moved_elements(by, step_size(world, pointer))
}

/// So many elements back from a pointer of this type.
#[tactic(auto, using(constant_values::specs::Forms::moved_by_is))]
pub fn moved_back(world: &World, pointer: TypeId, by: Constant, address: Address) -> Address
    requires { pointer.0 < length world.now.table.terms }
    ensures { result ≡ forms.moved_by (seen world.now) (type_at world.now.table.terms pointer.0) (forms.back by) address }
{
    address.moved_back(by, step_size(world, pointer))
}
