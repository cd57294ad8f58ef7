//! The types that layers make.

ghost use Rattle.std.specs.Prelude.{◌≡◌, ◌<◌, ◌*◌, length, Some, IfOk, OnOk};
ghost use Rattle.c_types.specs.CTypes as c;
ghost use Rattle.c_types.specs.Canonical as canonical;
ghost use Rattle.c_types.specs.Records.{limit};
ghost use Rattle.c_types.specs.Table.{type_at, types_at, AllBelow};
ghost use Rattle.c_rules.specs.World.{size_in};
ghost use Rattle.c_world.specs.Extends.{Extends};
ghost use Rattle.c_world.specs.Seen.{seen};

use c_types::{Term, TypeId};
use c_world::World;
use std::alloc::Global;
use tok_base::{Items, NoMemory};

/// A type that is not qualified yet, with these qualifiers: const is 1, volatile 2, restrict 4.
pub(crate) fn with_qualifiers(
    world: &mut World,
    qualifiers: u8,
    id: TypeId,
) -> Result<TypeId, NoMemory>
    requires small { qualifiers < 8 }
    requires valid { id.0 < length world.old.table.terms }
    ensures seen { seen world.new ≡ seen world.old }
    ensures extends { Extends world.old.table world.new.table }
    ensures is { IfOk result (λ r. type_at world.new.table.terms r.0 ≡ canonical.with_qualifiers qualifiers (type_at world.old.table.terms id.0)) }
    ensures valid { IfOk result (λ r. r.0 < length world.new.table.terms) }
{
    if qualifiers == 0 {
        Ok(id)
    } else {
        world.make(Term::Qualified(qualifiers, id))
    }
}

/// The pointer to a type, with these qualifiers of its own.
pub(crate) fn make_pointer(
    world: &mut World,
    qualifiers: u8,
    to: TypeId,
) -> Result<TypeId, NoMemory>
    requires small { qualifiers < 8 }
    requires valid { to.0 < length world.old.table.terms }
    ensures seen { seen world.new ≡ seen world.old }
    ensures extends { Extends world.old.table world.new.table }
    ensures is { IfOk result (λ r. type_at world.new.table.terms r.0 ≡ canonical.with_qualifiers qualifiers (c.Pointer (type_at world.old.table.terms to.0))) }
    ensures valid { IfOk result (λ r. r.0 < length world.new.table.terms) }
{
    let pointer = world.make(Term::Pointer(to))?;
    let r = with_qualifiers(world, qualifiers, pointer)?;
    Ok(r)
}

/// So many elements of this size, below 2^28 bytes together.
#[tactic(auto, using(crate::proofs::Refusals::array_is_accepted))]
pub(crate) fn make_array(
    world: &mut World,
    element: TypeId,
    count: u32,
    size: u32,
) -> Result<TypeId, NoMemory>
    requires valid { element.0 < length world.old.table.terms }
    requires size { size_in (seen world.old) (type_at world.old.table.terms element.0) ≡ Some size }
    requires below { count * size < limit }
    ensures seen { seen world.new ≡ seen world.old }
    ensures extends { Extends world.old.table world.new.table }
    ensures is { IfOk result (λ r. type_at world.new.table.terms r.0 ≡ c.Array (type_at world.old.table.terms element.0) count) }
    ensures valid { IfOk result (λ r. r.0 < length world.new.table.terms) }
{
    world.make(Term::Array(element, count))
}

/// An array without a length.
pub(crate) fn make_unsized(
    world: &mut World,
    element: TypeId,
    size: u32,
) -> Result<TypeId, NoMemory>
    requires valid { element.0 < length world.old.table.terms }
    requires size { size_in (seen world.old) (type_at world.old.table.terms element.0) ≡ Some size }
    ensures seen { seen world.new ≡ seen world.old }
    ensures extends { Extends world.old.table world.new.table }
    ensures is { IfOk result (λ r. type_at world.new.table.terms r.0 ≡ c.Flexible (type_at world.old.table.terms element.0)) }
    ensures valid { IfOk result (λ r. r.0 < length world.new.table.terms) }
{
    world.make(Term::Flexible(element))
}

/// A function with parameters of these types.
pub(crate) fn make_function(
    world: &mut World,
    alloc: Global,
    returned: TypeId,
    parameters: &[TypeId],
) -> Result<TypeId, NoMemory>
    requires returned { returned.0 < length world.old.table.terms }
    requires parameters { AllBelow (length world.old.table.terms) parameters.now }
    ensures seen { seen world.new ≡ seen world.old }
    ensures extends { Extends world.old.table world.new.table }
    ensures is { IfOk result (λ r. type_at world.new.table.terms r.0 ≡ c.Function (type_at world.old.table.terms returned.0) (types_at world.old.table.terms parameters.now)) }
    ensures valid { IfOk result (λ r. r.0 < length world.new.table.terms) }
{
    let copy = Items::from_slice(alloc, parameters)?;
    world.make(Term::Function(returned, copy))
}
