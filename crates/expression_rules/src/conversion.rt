//! Conversion as by assignment, and casts (ISO/IEC 9899:2018, 6.5.4, 6.5.16.1).

ghost use Rattle.std.specs.Prelude.{◌≡◌, ◌<◌, length, IfOk};
ghost use Rattle.c_types.specs.Table.{type_at};
ghost use Rattle.c_rules.specs.Expressions as rules;
ghost use Rattle.c_world.specs.Extends.{Extends};
ghost use Rattle.c_world.specs.Seen.{seen};
ghost use Rattle.expression_rules.specs.Typed.{typed_of};

use crate::making::settled;
use crate::rules::{casts, fits};
use crate::typed::Typed;
use c_types::TypeId;
use c_world::World;
use tok_base::NoMemory;

/// 23: whether a value of `x` is converted to this type as by assignment.
pub fn converts(world: &mut World, to: TypeId, x: &Typed) -> Result<bool, NoMemory>
    requires to { to.0 < length world.old.table.terms }
    requires from { x.now.ty.0 < length world.old.table.terms }
    ensures seen { seen world.new ≡ seen world.old }
    ensures extends { Extends world.old.table world.new.table }
    ensures is { IfOk result (λ b. b ≡ rules.converts (type_at world.old.table.terms to.0) (typed_of world.old.table.terms x.now)) }
{
    let from = settled(world, x.ty)?;
    let plain = world.plain(to);
    Ok(fits(world, plain, from, x))
}

/// 26: to void; integer to integer; object pointer to object pointer, function pointer to function pointer; a
/// null pointer constant to a pointer; a pointer to `_Bool`.
pub fn can_be_cast(world: &mut World, to: TypeId, x: &Typed) -> Result<bool, NoMemory>
    requires to { to.0 < length world.old.table.terms }
    requires from { x.now.ty.0 < length world.old.table.terms }
    ensures seen { seen world.new ≡ seen world.old }
    ensures extends { Extends world.old.table world.new.table }
    ensures is { IfOk result (λ b. b ≡ rules.can_be_cast (type_at world.old.table.terms to.0) (typed_of world.old.table.terms x.now)) }
{
    let from = settled(world, x.ty)?;
    let plain = world.plain(to);
    Ok(casts(world, plain, from, x))
}
