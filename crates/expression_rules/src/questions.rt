//! What the rules ask of a type (ISO/IEC 9899:2018, 6.2.5, 6.7.3).

ghost use Rattle.std.specs.Prelude.{◌≡◌, ◌<◌, length};
ghost use Rattle.c_types.specs.CTypes as c;
ghost use Rattle.c_types.specs.Plain as plain;
ghost use Rattle.c_types.specs.Table.{type_at};
ghost use Rattle.c_rules.specs.Types as types;

use c_types::{Term, TypeId};
use c_world::World;
use num_ops::IntKind;

pub fn is_void(world: &World, id: TypeId) -> bool
    requires { id.0 < length world.now.table.terms }
    ensures { result ≡ types.is_void (type_at world.now.table.terms id.0) }
{
    match world.term(id) {
        Term::Void => true,
        _ => false,
    }
}

/// Whether it is an integer type (6.2.5, paragraph 17).
pub fn is_integer(world: &World, id: TypeId) -> bool
    requires { id.0 < length world.now.table.terms }
    ensures { result ≡ types.is_integer (type_at world.now.table.terms id.0) }
{
    match world.term(id) {
        Term::Int(_) => true,
        Term::Enum(_) => true,
        _ => false,
    }
}

pub fn is_bool(world: &World, id: TypeId) -> bool
    requires { id.0 < length world.now.table.terms }
    ensures { result ≡ types.is_bool (type_at world.now.table.terms id.0) }
{
    match world.term(id) {
        Term::Int(kind) => is_bool_kind(*kind),
        _ => false,
    }
}

fn is_bool_kind(kind: IntKind) -> bool
    ensures { result ≡ types.is_bool (c.Int kind) }
{
    match kind {
        IntKind::Bool => true,
        _ => false,
    }
}

pub fn is_pointer(world: &World, id: TypeId) -> bool
    requires { id.0 < length world.now.table.terms }
    ensures { result ≡ types.is_pointer (type_at world.now.table.terms id.0) }
{
    match world.term(id) {
        Term::Pointer(_) => true,
        _ => false,
    }
}

/// Whether it is an array, with a length or without.
pub fn is_array(world: &World, id: TypeId) -> bool
    requires { id.0 < length world.now.table.terms }
    ensures { result ≡ types.is_array (type_at world.now.table.terms id.0) }
{
    match world.term(id) {
        Term::Array(_, _) => true,
        Term::Flexible(_) => true,
        _ => false,
    }
}

/// Whether it is a struct or union.
pub fn is_record(world: &World, id: TypeId) -> bool
    requires { id.0 < length world.now.table.terms }
    ensures { result ≡ types.is_record (type_at world.now.table.terms id.0) }
{
    match world.term(id) {
        Term::Record(_) => true,
        _ => false,
    }
}

pub fn is_function(world: &World, id: TypeId) -> bool
    requires { id.0 < length world.now.table.terms }
    ensures { result ≡ plain.is_function (type_at world.now.table.terms id.0) }
{
    match world.term(id) {
        Term::Function(_, _) => true,
        _ => false,
    }
}

/// Whether it is an integer type or a pointer (6.2.5, paragraph 21).
pub fn is_scalar(world: &World, id: TypeId) -> bool
    requires { id.0 < length world.now.table.terms }
    ensures { result ≡ types.is_scalar (type_at world.now.table.terms id.0) }
{
    is_integer(world, id) || is_pointer(world, id)
}

/// Whether it is `char`, `signed char` or `unsigned char` (6.2.5, paragraph 15).
pub fn is_char(world: &World, id: TypeId) -> bool
    requires { id.0 < length world.now.table.terms }
    ensures { result ≡ types.is_char (type_at world.now.table.terms id.0) }
{
    match world.term(id) {
        Term::Int(kind) => is_char_kind(*kind),
        _ => false,
    }
}

fn is_char_kind(kind: IntKind) -> bool
    ensures { result ≡ types.is_char_kind kind }
{
    match kind {
        IntKind::Char => true,
        IntKind::SChar => true,
        IntKind::UChar => true,
        _ => false,
    }
}

/// The kind of an integer type; an enumeration's is `int`, and so is that of another type.
pub fn kind_of(world: &World, id: TypeId) -> IntKind
    requires { id.0 < length world.now.table.terms }
    ensures { result ≡ types.kind_of (type_at world.now.table.terms id.0) }
{
    match world.term(id) {
        Term::Int(kind) => *kind,
        _ => IntKind::Int,
    }
}

/// What a pointer type points to; another type is given back.
pub fn pointee(world: &World, id: TypeId) -> TypeId
    requires { id.0 < length world.now.table.terms }
    ensures is { type_at world.now.table.terms result.0 ≡ types.pointee (type_at world.now.table.terms id.0) }
    ensures valid { result.0 < length world.now.table.terms }
{
    match world.term(id) {
        Term::Pointer(to) => *to,
        _ => id,
    }
}

/// The elements' type of an array type; another type is given back.
pub fn element(world: &World, id: TypeId) -> TypeId
    requires { id.0 < length world.now.table.terms }
    ensures is { type_at world.now.table.terms result.0 ≡ types.element (type_at world.now.table.terms id.0) }
    ensures valid { result.0 < length world.now.table.terms }
{
    match world.term(id) {
        Term::Array(element, _) => *element,
        Term::Flexible(element) => *element,
        _ => id,
    }
}

/// The qualifiers that are a type's own and not its elements' (6.7.3, paragraph 9): const is 1, volatile 2,
/// restrict 4.
pub fn outer_qualifiers(world: &World, id: TypeId) -> u8
    requires { id.0 < length world.now.table.terms }
    ensures is { result ≡ types.outer_qualifiers (type_at world.now.table.terms id.0) }
    ensures small { result < 8 }
{
    if is_array(world, world.plain(id)) {
        0
    } else {
        world.qualifiers_met(id)
    }
}

/// Whether `to` has each qualifier of `from`, where both are pointed to.
pub fn keeps_qualifiers(world: &World, to: TypeId, from: TypeId) -> bool
    requires to { to.0 < length world.now.table.terms }
    requires from { from.0 < length world.now.table.terms }
    ensures { result ≡ types.keeps_qualifiers (type_at world.now.table.terms to.0) (type_at world.now.table.terms from.0) }
{
    let own = outer_qualifiers(world, to);
    own | outer_qualifiers(world, from) == own
}
