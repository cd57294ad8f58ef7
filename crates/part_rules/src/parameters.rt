//! Parameters (6.7.6.3): rules 2, 4, 5, 6 and 8.

ghost use Rattle.std.specs.Prelude.{◌≡◌, ◌<◌, ◌&&◌, length, Some, IfOk, IfSome, OnOk};
ghost use Rattle.c_tree.specs.View.{boxed_declarator, params_of};
ghost use Rattle.c_types.specs.Table.{type_at};
ghost use Rattle.c_rules.specs.Declarators as rules;
ghost use Rattle.c_rules.specs.Walk as walk;
ghost use Rattle.c_world.specs.Extends.{Extends};
ghost use Rattle.c_world.specs.Seen.{seen, Gives};
ghost use Rattle.declarator_rules.specs.Built.{BuiltBelow, IsBuilt};
ghost use Rattle.declarator_rules.specs.Layers.{LayersBelow, laid_of};
ghost use Rattle.part_rules.specs.Parameters.{maybe_type};

use c_tree::At;
use c_types::{Term, TypeId};
use c_world::{CheckEnd, World};
use declarator_rules::{Built, Laid, build_used};
use name_rules::{judge_named_param, judge_nameless_param, take_number};
use std::alloc::Global;
use tok_base::NoMemory;

/// The number of a parameter at a place among those of its declarator; one that has a name takes it.
pub fn parameter_number(world: &mut World, takes: bool, place: u32) -> Result<u32, CheckEnd>
    ensures gives { Gives (walk.take_number takes (Some place)) (seen world.old) result (λ n. n) (seen world.new) }
    ensures extends { OnOk result (Extends world.old.table world.new.table) }
{
    let number = take_number(world, takes, Some(place))?;
    Ok(number)
}

/// Whether a type is void.
fn is_nothing(world: &mut World, id: TypeId) -> Result<bool, NoMemory>
    requires { id.0 < length world.old.table.terms }
    ensures seen { seen world.new ≡ seen world.old }
    ensures extends { Extends world.old.table world.new.table }
    ensures is { IfOk result (λ b. b ≡ rules.is_nothing (type_at world.old.table.terms id.0)) }
{
    let void = world.make(Term::Void)?;
    Ok(world.same(id, void))
}

/// Whether a parameter that stands alone or not is void: then it is none.
pub fn is_lone_void(world: &mut World, is_alone: bool, base: TypeId) -> Result<bool, NoMemory>
    requires { base.0 < length world.old.table.terms }
    ensures seen { seen world.new ≡ seen world.old }
    ensures extends { Extends world.old.table world.new.table }
    ensures is { IfOk result (λ b. b ≡ (is_alone && rules.is_nothing (type_at world.old.table.terms base.0))) }
{
    if is_alone {
        is_nothing(world, base)
    } else {
        Ok(false)
    }
}

fn judge_param_as(
    world: &mut World,
    alloc: Global,
    number: u32,
    at: At,
    laid: &Laid,
    built: Built,
) -> Result<TypeId, CheckEnd>
    requires { BuiltBelow (length world.old.table.terms) built }
    ensures gives { (b : rules.Built) → IsBuilt (seen world.old) world.old.table.terms built b → Gives (walk.judge_param_as laid.now.name number at (laid_of world.old.table.terms laid.now) b) (seen world.old) result (λ r. type_at world.new.table.terms r.0) (seen world.new) }
    ensures same { OnOk result (world.new.table ≡ world.old.table) }
    ensures valid { IfOk result (λ r. r.0 < length world.new.table.terms) }
{
    match &laid.name {
        Some(name) => judge_named_param(
            world,
            alloc,
            number,
            at,
            laid.name_at,
            name.as_slice(),
            built,
        ),
        None => judge_nameless_param(world, at, laid, built),
    }
}

fn judge_param(
    world: &mut World,
    alloc: Global,
    number: u32,
    at: At,
    base: TypeId,
    laid: &Laid,
) -> Result<TypeId, CheckEnd>
    requires base { base.0 < length world.old.table.terms }
    requires layers { LayersBelow (length world.old.table.terms) laid.now.layers }
    ensures gives { Gives (walk.judge_param number at (type_at world.old.table.terms base.0) (laid_of world.old.table.terms laid.now)) (seen world.old) result (λ r. type_at world.new.table.terms r.0) (seen world.new) }
    ensures extends { OnOk result (Extends world.old.table world.new.table) }
    ensures valid { IfOk result (λ r. r.0 < length world.new.table.terms) }
{
    let built = build_used(world, alloc, base, laid.layers.as_slice())?;
    judge_param_as(world, alloc, number, at, laid, built)
}

/// A parameter, by its base type and its declarator; a void that stands alone is none.
pub fn judge_param_or_void(
    world: &mut World,
    alloc: Global,
    is_void: bool,
    number: u32,
    at: At,
    base: TypeId,
    laid: &Laid,
) -> Result<Option<TypeId>, CheckEnd>
    requires base { base.0 < length world.old.table.terms }
    requires layers { LayersBelow (length world.old.table.terms) laid.now.layers }
    ensures gives { Gives (walk.judge_param_or_void is_void number at (type_at world.old.table.terms base.0) (laid_of world.old.table.terms laid.now)) (seen world.old) result (maybe_type world.new.table.terms) (seen world.new) }
    ensures extends { OnOk result (Extends world.old.table world.new.table) }
    ensures valid { IfOk result (λ o. IfSome o (λ r. r.0 < length world.new.table.terms)) }
{
    if is_void {
        return Ok(None);
    }
    let ty = judge_param(world, alloc, number, at, base, laid)?;
    Ok(Some(ty))
}
