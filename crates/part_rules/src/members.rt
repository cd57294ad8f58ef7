//! Members of structs and unions: rules 4, 5, 6 and 8 (6.7.2.1).

ghost use Rattle.std.specs.Prelude.{◌≡◌, ◌<◌, [], length, unwrap_or, IfOk, OnOk};
ghost use Rattle.c_types.specs.Table.{type_at, member_of};
ghost use Rattle.c_rules.specs.Declarators as rules;
ghost use Rattle.c_rules.specs.Walk as walk;
ghost use Rattle.c_world.specs.Extends.{Extends};
ghost use Rattle.c_world.specs.Seen.{seen, Gives};
ghost use Rattle.declarator_rules.specs.Built.{BuiltBelow, IsBuilt, made_of};
ghost use Rattle.declarator_rules.specs.Layers.{LayersBelow, laid_of};
ghost use Rattle.part_rules.specs.Members.{closed};

use c_rules::Declares;
use c_tree::At;
use c_types::{Member, TypeId};
use c_world::{CheckEnd, World};
use declarator_rules::{Built, Laid, Made, build, is_open_struct, judge_built};
use std::alloc::Global;
use tok_base::{Bytes, Items, NoMemory};

/// The name of a member; an absent one is empty.
fn name_of(alloc: Global, name: &Option<Bytes>) -> Result<Bytes, NoMemory>
    ensures { IfOk result (λ n. n ≡ unwrap_or name.now []) }
{
    match name {
        Some(name) => {
            let copy = Bytes::from_slice(alloc, name.as_slice())?;
            Ok(copy)
        }
        None => Ok(Items::new(alloc)),
    }
}

fn closed_made(world: &World, made: Made) -> Made
    requires { made.ty.0 < length world.now.table.terms }
    ensures is { made_of world.now.table.terms result ≡ closed (seen world.now) (made_of world.now.table.terms made) }
    ensures same { result.ty ≡ made.ty }
{
    Made {
        is_closed: made.is_closed && !is_open_struct(world, made.ty),
        ..made
    }
}

/// A member may not be a struct that ends without a length (6.7.2.1, paragraph 3).
fn closed(world: &World, built: Built) -> Built
    requires { BuiltBelow (length world.now.table.terms) built }
    ensures is { (b : rules.Built) → IsBuilt (seen world.now) world.now.table.terms built b → IsBuilt (seen world.now) world.now.table.terms result (closed (seen world.now) b) }
    ensures valid { BuiltBelow (length world.now.table.terms) result }
{
    match built {
        Built::Made(made) => Built::Made(closed_made(world, made)),
        Built::Incomplete => Built::Incomplete,
        Built::Oversized(oversized) => Built::Oversized(oversized),
    }
}

/// A member, by its base type and its declarator: 4 and 5, 6 for a function that it points to, 8 for a struct
/// that ends without a length.
pub fn judge_member(
    world: &mut World,
    alloc: Global,
    at: At,
    base: TypeId,
    laid: &Laid,
) -> Result<Member, CheckEnd>
    requires base { base.0 < length world.old.table.terms }
    requires layers { LayersBelow (length world.old.table.terms) laid.now.layers }
    ensures gives { Gives (walk.judge_member at (type_at world.old.table.terms base.0) (laid_of world.old.table.terms laid.now)) (seen world.old) result (member_of world.new.table.terms) (seen world.new) }
    ensures extends { OnOk result (Extends world.old.table world.new.table) }
    ensures valid { IfOk result (λ m. m.ty.0 < length world.new.table.terms) }
{
    let name = name_of(alloc, &laid.name)?;
    let built = build(world, alloc, base, laid.layers.as_slice())?;
    match judge_built(world, at, Declares::Member, closed(world, built)) {
        Ok(ty) => {
            world.note_type(laid.name_at.id, ty);
            Ok(Member { name, ty })
        }
        Err(end) => Err(end),
    }
}
