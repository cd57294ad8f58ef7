//! Arrays: rules 4, 5 and 8 (6.7.6.2).

ghost use Rattle.std.specs.Prelude.{◌≡◌, ◌<◌, ◌&&◌, true, false, length, not, Some, IfOk};
ghost use Rattle.c_types.specs.Records.{limit};
ghost use Rattle.c_types.specs.Table.{type_at};
ghost use Rattle.c_rules.specs.Declarators as rules;
ghost use Rattle.c_rules.specs.World.{size_in};
ghost use Rattle.c_world.specs.Extends.{Extends};
ghost use Rattle.c_world.specs.Seen.{seen};
ghost use Rattle.declarator_rules.specs.declared.built.Built.TheVariants as v;
ghost use Rattle.declarator_rules.specs.Built.{BuiltBelow, IsBuilt, made_of};

use crate::built::{Built, Made, Oversized};
use crate::making::{make_array, make_unsized};
use crate::members::is_open_struct;
use c_world::World;
use constant_values::Constant;
use tok_base::NoMemory;

/// Whether so many elements of this size have less than 2^28 bytes.
pub fn stays_below(count: u64, size: u32) -> bool
    requires { size < limit }
    ensures { result ≡ rules.stays_below count (Some size) }
{
    count < 0x1000_0000 && count * (size as u64) < 0x1000_0000
}

/// Whether it is a length, and so many elements of this size have less than 2^28 bytes.
fn is_kept_length(count: Constant, size: u32) -> bool
    requires { size < limit }
    ensures { result ≡ (rules.is_length count && rules.stays_below (rules.length_of count) (Some size)) }
{
    count.is_length() && stays_below(count.length(), size)
}

/// What an array with a bad length, or of too many bytes, makes.
fn oversized_array() -> Built
    ensures { result ≡ v.Oversized (record { has_size = true; is_flexible = false }) }
{
    Built::Oversized(Oversized {
        has_size: true,
        is_flexible: false,
    })
}

/// Brackets with a length around a type.
pub(crate) fn array_made(
    world: &mut World,
    count: Constant,
    element: Made,
) -> Result<Built, NoMemory>
    requires { element.ty.0 < length world.old.table.terms }
    ensures seen { seen world.new ≡ seen world.old }
    ensures extends { Extends world.old.table world.new.table }
    ensures is { IfOk result (λ r. IsBuilt (seen world.new) world.new.table.terms r (rules.layered (seen world.old) (rules.array count) (made_of world.old.table.terms element))) }
    ensures valid { IfOk result (λ r. BuiltBelow (length world.new.table.terms) r) }
{
    match world.size_of(element.ty) {
        None => Ok(Built::Incomplete),
        Some(size) => array_sized(world, count, element, size),
    }
}

/// Brackets with a length around a type of this size.
fn array_sized(
    world: &mut World,
    count: Constant,
    element: Made,
    size: u32,
) -> Result<Built, NoMemory>
    requires valid { element.ty.0 < length world.old.table.terms }
    requires size { size_in (seen world.old) (type_at world.old.table.terms element.ty.0) ≡ Some size }
    requires small { size < limit }
    ensures seen { seen world.new ≡ seen world.old }
    ensures extends { Extends world.old.table world.new.table }
    ensures is { IfOk result (λ r. IsBuilt (seen world.new) world.new.table.terms r (rules.layered (seen world.old) (rules.array count) (made_of world.old.table.terms element))) }
    ensures valid { IfOk result (λ r. BuiltBelow (length world.new.table.terms) r) }
{
    if !is_kept_length(count, size) {
        return Ok(oversized_array());
    }
    let is_closed = is_closed(world, element);
    let ty = make_array(world, element.ty, count.length() as u32, size)?;
    Ok(Built::Made(Made {
        ty,
        is_callable: element.is_callable,
        is_closed,
    }))
}

/// Whether an array of these elements keeps rule 8.
fn is_closed(world: &World, element: Made) -> bool
    requires { element.ty.0 < length world.now.table.terms }
    ensures { result ≡ (element.is_closed && not (rules.is_open_struct (seen world.now) (type_at world.now.table.terms element.ty.0))) }
{
    element.is_closed && !is_open_struct(world, element.ty)
}

/// Brackets without a length around a type.
pub(crate) fn unsized_made(world: &mut World, element: Made) -> Result<Built, NoMemory>
    requires { element.ty.0 < length world.old.table.terms }
    ensures seen { seen world.new ≡ seen world.old }
    ensures extends { Extends world.old.table world.new.table }
    ensures is { IfOk result (λ r. IsBuilt (seen world.new) world.new.table.terms r (rules.layered (seen world.old) rules.unsized (made_of world.old.table.terms element))) }
    ensures valid { IfOk result (λ r. BuiltBelow (length world.new.table.terms) r) }
{
    match world.size_of(element.ty) {
        None => Ok(Built::Incomplete),
        Some(size) => unsized_sized(world, element, size),
    }
}

fn unsized_sized(world: &mut World, element: Made, size: u32) -> Result<Built, NoMemory>
    requires valid { element.ty.0 < length world.old.table.terms }
    requires size { size_in (seen world.old) (type_at world.old.table.terms element.ty.0) ≡ Some size }
    ensures seen { seen world.new ≡ seen world.old }
    ensures extends { Extends world.old.table world.new.table }
    ensures is { IfOk result (λ r. IsBuilt (seen world.new) world.new.table.terms r (rules.layered (seen world.old) rules.unsized (made_of world.old.table.terms element))) }
    ensures valid { IfOk result (λ r. BuiltBelow (length world.new.table.terms) r) }
{
    let is_closed = is_closed(world, element);
    let ty = make_unsized(world, element.ty, size)?;
    Ok(Built::Made(Made {
        ty,
        is_callable: element.is_callable,
        is_closed,
    }))
}
