//! Type names (6.7.7), and the types of typedef names.

ghost use Rattle.std.specs.Prelude.{◌≡◌, ◌<◌, length, IfOk, OnOk};
ghost use Rattle.c_types.specs.Table.{type_at};
ghost use Rattle.c_rules.specs.Walk.{entry_type};
ghost use Rattle.c_rules.specs.World.{find_name};
ghost use Rattle.c_world.specs.Extends.{Extends};
ghost use Rattle.c_world.specs.Seen.{seen, Gives};
ghost use Rattle.declarator_rules.specs.Layers.{LayersBelow, laid_of};
ghost use Rattle.part_rules.specs.Types.{named_type};

use c_tree::At;
use c_types::{Term, TypeId};
use c_world::{CheckEnd, World};
use declarator_rules::{Laid, judge_type};
use num_ops::IntKind;
use std::alloc::Global;
use tok_base::NoMemory;

/// The type of a typedef name; `int` where the name is none.
pub fn name_type(world: &mut World, name: &[u8]) -> Result<TypeId, NoMemory>
    ensures seen { seen world.new ≡ seen world.old }
    ensures extends { Extends world.old.table world.new.table }
    ensures is { IfOk result (λ r. type_at world.new.table.terms r.0 ≡ entry_type (find_name name.now (seen world.old))) }
    ensures valid { IfOk result (λ r. r.0 < length world.new.table.terms) }
{
    match world.find(name) {
        None => world.make(Term::Int(IntKind::Int)),
        Some(bound) => Ok(bound.ty),
    }
}

/// The type of a type name, by its base type and its declarator, which stands at `outer`; it is noted at `at`.
pub fn judge_named_type(
    world: &mut World,
    alloc: Global,
    at: At,
    outer: At,
    base: TypeId,
    laid: &Laid,
) -> Result<TypeId, CheckEnd>
    requires base { base.0 < length world.old.table.terms }
    requires layers { LayersBelow (length world.old.table.terms) laid.now.layers }
    ensures gives { Gives (named_type at outer (type_at world.old.table.terms base.0) (laid_of world.old.table.terms laid.now)) (seen world.old) result (λ r. type_at world.new.table.terms r.0) (seen world.new) }
    ensures extends { OnOk result (Extends world.old.table world.new.table) }
    ensures valid { IfOk result (λ r. r.0 < length world.new.table.terms) }
{
    match judge_type(world, alloc, outer, base, laid) {
        Err(end) => Err(end),
        Ok(ty) => {
            world.note_type(at.id, ty);
            Ok(ty)
        }
    }
}
