//! What the walk puts into lists and declarators, where no part is judged.

ghost use Rattle.std.specs.Prelude.{◌≡◌, ◌<◌, ◌&&◌, ◌==◌, [], drop, length, map, suc, None, IfOk, OnOk};
ghost use Rattle.c_tree.specs.View.{boxed_declarator, exprs_of, params_of};
ghost use Rattle.c_types.specs.Table.{type_at, member_of, AllBelow, MembersBelow};
ghost use Rattle.c_rules.specs.Typed.{is};
ghost use Rattle.c_rules.specs.Walk as walk;
ghost use Rattle.c_world.specs.Extends.{Extends};
ghost use Rattle.c_world.specs.Seen.{seen, Gives};
ghost use Rattle.declarator_rules.specs.Layers.{LayersBelow, all_types, laid_of};
ghost use Rattle.expression_rules.specs.Typed.{typed_of};
ghost use Rattle.check_walk.specs.Walking.{gathered, one, param_built};

use body_rules::any_has_body;
use c_tree::{At, Expr, Param};
use c_types::{Member, TypeId};
use c_world::{CheckEnd, World};
use check_expressions::judge_builtin;
use constant_values::Constant;
use declarator_rules::Laid;
use expression_rules::Typed;
use part_rules::{is_lone_void, judge_member, judge_param_or_void};
use std::alloc::Global;
use tok_base::{Bytes, Items, NoMemory};

/// The builtin with its arguments: rule 36.
pub(crate) fn judge_builtin_with(
    world: &mut World,
    fixed: bool,
    at: At,
    arguments: &Items<Expr>,
) -> Result<Typed, CheckEnd>
    ensures gives { Gives (walk.judge_builtin fixed at (exprs_of arguments.now)) (seen world.old) result (typed_of world.new.table.terms) (seen world.new) }
    ensures extends { OnOk result (Extends world.old.table world.new.table) }
    ensures valid { IfOk result (λ r. r.ty.0 < length world.new.table.terms) }
{
    judge_builtin(world, at, fixed, any_has_body(arguments))
}

/// The declarator that is a name alone, or the place of an absent one.
pub(crate) fn bare(alloc: Global, at: At, name: &Option<Bytes>) -> Result<Laid, NoMemory>
    ensures { IfOk result (λ l. l ≡ record { name = name.now; name_at = at; layers = [] }) }
{
    match name {
        None => Ok(Laid::bare(alloc, None, at)),
        Some(name) => {
            let copy = Bytes::from_slice(alloc, name.as_slice())?;
            Ok(Laid::bare(alloc, Some(copy), at))
        }
    }
}

/// One member more, of this declarator.
pub(crate) fn gather_member(
    world: &mut World,
    alloc: Global,
    at: At,
    base: TypeId,
    laid: &Laid,
    members: &mut Items<Member>,
) -> Result<(), CheckEnd>
    requires base { base.0 < length world.old.table.terms }
    requires layers { LayersBelow (length world.old.table.terms) laid.now.layers }
    requires members { MembersBelow (length world.old.table.terms) members.old }
    ensures gives { Gives (gathered (map (member_of world.old.table.terms) members.old) (one (walk.judge_member at (type_at world.old.table.terms base.0) (laid_of world.old.table.terms laid.now)))) (seen world.old) result (λ _. map (member_of world.new.table.terms) members.new) (seen world.new) }
    ensures extends { OnOk result (Extends world.old.table world.new.table) }
    ensures valid { OnOk result (MembersBelow (length world.new.table.terms) members.new) }
{
    let member = judge_member(world, alloc, at, base, laid)?;
    members.push(member)?;
    Ok(())
}

/// One parameter more, of this declarator; a void that stands alone is none.
pub(crate) fn gather_param(
    world: &mut World,
    alloc: Global,
    is_alone: bool,
    number: u32,
    at: At,
    base: TypeId,
    laid: &Laid,
    types: &mut Items<TypeId>,
) -> Result<(), CheckEnd>
    requires base { base.0 < length world.old.table.terms }
    requires layers { LayersBelow (length world.old.table.terms) laid.now.layers }
    requires types { AllBelow (length world.old.table.terms) types.old }
    ensures gives { Gives (gathered (all_types world.old.table.terms types.old) (param_built is_alone number at (type_at world.old.table.terms base.0) (laid_of world.old.table.terms laid.now))) (seen world.old) result (λ _. all_types world.new.table.terms types.new) (seen world.new) }
    ensures extends { OnOk result (Extends world.old.table world.new.table) }
    ensures valid { OnOk result (AllBelow (length world.new.table.terms) types.new) }
{
    let is_void = is_lone_void(world, is_alone, base)?;
    match judge_param_or_void(world, alloc, is_void, number, at, base, laid) {
        Err(end) => Err(end),
        Ok(None) => Ok(()),
        Ok(Some(ty)) => {
            types.push(ty)?;
            Ok(())
        }
    }
}

/// Whether the parameter at a place stands alone without a declarator.
pub(crate) fn stands_alone(params: &[Param], place: u32, param: &Param) -> bool
    ensures { result ≡ (place == 0 && walk.is_alone (boxed_declarator param.now.declarator) (params_of (drop (suc place) params.now))) }
{
    place == 0 && is_only(params, param)
}

fn is_only(params: &[Param], param: &Param) -> bool
    ensures { result ≡ walk.is_alone (boxed_declarator param.now.declarator) (params_of (drop 1 params.now)) }
{
    match &param.declarator {
        Some(_) => false,
        None => params.len() <= 1,
    }
}

/// The place behind this one.
pub(crate) fn next_place(place: u32) -> Result<u32, NoMemory>
    ensures { IfOk result (λ p. p ≡ suc place) }
{
    if place == u32::MAX {
        return Err(NoMemory);
    }
    Ok(place + 1)
}

/// The value of an enumerator that has none of its own. It is never greater than one more than a value of
/// `int`, so it is one of `long`.
pub(crate) fn next_constant(next: i128) -> Result<Constant, NoMemory>
    ensures { IfOk result (λ c. c ≡ is next) }
{
    match i64::try_from(next) {
        Ok(next) => Ok(Constant::of_i64(next)),
        Err(_) => Err(NoMemory),
    }
}
