//! Parameters (6.7.6.3).

ghost use Rattle.std.specs.Prelude.{◌≡◌, ◌<◌, ◌++◌, ◌∷◌, [], if◌then◌else◌, length, IfOk, OnOk};
ghost use Rattle.c_types.specs.Table.{type_at};
ghost use Rattle.c_rules.specs.Declarators as rules;
ghost use Rattle.c_rules.specs.Walk as walk;
ghost use Rattle.c_rules.specs.World.{without_type};
ghost use Rattle.c_world.specs.Extends.{Extends};
ghost use Rattle.c_world.specs.Seen.{seen, Gives};
ghost use Rattle.declarator_rules.specs.Built.{BuiltBelow, IsBuilt};
ghost use Rattle.declarator_rules.specs.Layers.{laid_of};

use crate::declared::made_type;
use crate::introducing::new_object;
use crate::names::may_be_named;
use c_rules::{Declares, Sort};
use c_tree::At;
use c_types::TypeId;
use c_world::{CheckEnd, World, keep};
use declarator_rules::{Built, Laid, judge_built, note_nameless};
use std::alloc::Global;
use tok_base::NoMemory;

/// An object or a parameter takes the next number where its name stands; the number is given anyway.
pub fn take_number(world: &mut World, takes: bool, local: Option<u32>) -> Result<u32, NoMemory>
    ensures is { IfOk result (λ n. n ≡ length (seen world.old).objects) }
    ensures seen { OnOk result (seen world.new ≡ (if takes then record (seen world.old) { objects = (seen world.old).objects ++ without_type local ∷ [] } else seen world.old)) }
    ensures extends { OnOk result (Extends world.old.table world.new.table) }
{
    let number = world.next_object()?;
    if takes {
        world.add_object(local)?;
    }
    Ok(number)
}

/// A parameter with a name, by what its declarator makes as it is used: 2, 4, 5, 6 and 8; gives its type.
pub fn judge_named_param(
    world: &mut World,
    alloc: Global,
    number: u32,
    at: At,
    name_at: At,
    name: &[u8],
    built: Built,
) -> Result<TypeId, CheckEnd>
    requires { BuiltBelow (length world.old.table.terms) built }
    ensures gives { (b : rules.Built) → IsBuilt (seen world.old) world.old.table.terms built b → Gives (walk.judge_named_param number at name_at name.now b) (seen world.old) result (λ r. type_at world.new.table.terms r.0) (seen world.new) }
    ensures same { OnOk result (world.new.table ≡ world.old.table) }
    ensures valid { IfOk result (λ r. r.0 < length world.new.table.terms) }
{
    let may_be = may_be_named(world, name, Sort::Object(0, false), made_type(built), false);
    keep(2, at, may_be)?;
    match judge_built(world, at, Declares::Object, built) {
        Err(end) => Err(end),
        Ok(ty) => {
            world.note_type(name_at.id, ty);
            new_object(world, alloc, number, name_at, name, ty, false)?;
            Ok(ty)
        }
    }
}

/// A parameter without a name: 4, 5, 6 and 8; gives its type.
pub fn judge_nameless_param(
    world: &mut World,
    at: At,
    laid: &Laid,
    built: Built,
) -> Result<TypeId, CheckEnd>
    requires { BuiltBelow (length world.old.table.terms) built }
    ensures gives { (b : rules.Built) → IsBuilt (seen world.old) world.old.table.terms built b → Gives (walk.judge_nameless_param at (laid_of world.old.table.terms laid.now) b) (seen world.old) result (λ r. type_at world.new.table.terms r.0) (seen world.new) }
    ensures same { OnOk result (world.new.table ≡ world.old.table) }
    ensures valid { IfOk result (λ r. r.0 < length world.new.table.terms) }
{
    match judge_built(world, at, Declares::Object, built) {
        Err(end) => Err(end),
        Ok(ty) => {
            note_nameless(world, laid, ty);
            Ok(ty)
        }
    }
}
