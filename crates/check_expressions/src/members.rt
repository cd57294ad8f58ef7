//! Members of structs and unions (ISO/IEC 9899:2018, 6.5.2.3).

ghost use Rattle.std.specs.Prelude.{◌≡◌, ◌<◌, length, IfOk, OnOk};
ghost use Rattle.c_types.specs.Table.{type_at};
ghost use Rattle.c_rules.specs.Forms as forms;
ghost use Rattle.c_world.specs.Extends.{Extends};
ghost use Rattle.c_world.specs.Seen.{seen, Gives};
ghost use Rattle.expression_rules.specs.Steps as steps;
ghost use Rattle.expression_rules.specs.Typed.{typed_of};

use crate::noting::done;
use c_tree::At;
use c_types::TypeId;
use c_world::{CheckEnd, World};
use constant_values::{Address, Constant};
use expression_rules::{Typed, is_pointer, pointed, pointee, settled, with_qualifiers};

/// What is known of a member with the qualifiers of its struct or union.
fn member_done(
    world: &mut World,
    at: At,
    qualifiers: u8,
    ty: TypeId,
    is_lvalue: bool,
    address: Address,
) -> Result<Typed, CheckEnd>
    requires small { qualifiers < 8 }
    requires valid { ty.0 < length world.old.table.terms }
    ensures gives { Gives (steps.member_done at qualifiers (type_at world.old.table.terms ty.0) is_lvalue address) (seen world.old) result (typed_of world.new.table.terms) (seen world.new) }
    ensures extends { OnOk result (Extends world.old.table world.new.table) }
    ensures valid { IfOk result (λ r. r.ty.0 < length world.new.table.terms) }
{
    let ty = with_qualifiers(world, qualifiers, ty)?;
    let r = done(
        world,
        at,
        Typed {
            ty,
            is_lvalue,
            value: Constant::varies(),
            is_null: false,
            address,
            text: None,
        },
    )?;
    Ok(r)
}

/// The member of a struct or union of this type, which is an lvalue or not and stands at this address.
fn member_as(
    world: &mut World,
    at: At,
    id: TypeId,
    name: &[u8],
    is_lvalue: bool,
    address: Address,
) -> Result<Typed, CheckEnd>
    requires { id.0 < length world.old.table.terms }
    ensures gives { Gives (steps.member_as at (type_at world.old.table.terms id.0) name.now is_lvalue address) (seen world.old) result (typed_of world.new.table.terms) (seen world.new) }
    ensures extends { OnOk result (Extends world.old.table world.new.table) }
    ensures valid { IfOk result (λ r. r.ty.0 < length world.new.table.terms) }
{
    let qualifiers = world.qualifiers_met(id);
    match world.member(id, name) {
        None => Err(CheckEnd::Rule(29, at)),
        Some(ty) => {
            let offset = world.offset_of(id, name)?;
            let address = address.taken().moved(offset as i128);
            member_done(world, at, qualifiers, ty, is_lvalue, address)
        }
    }
}

/// `x.name`: rule 29.
pub fn judge_dot(world: &mut World, at: At, x: &Typed, name: &[u8]) -> Result<Typed, CheckEnd>
    requires { x.now.ty.0 < length world.old.table.terms }
    ensures gives { Gives (forms.judge_dot at (typed_of world.old.table.terms x.now) name.now) (seen world.old) result (typed_of world.new.table.terms) (seen world.new) }
    ensures extends { OnOk result (Extends world.old.table world.new.table) }
    ensures valid { IfOk result (λ r. r.ty.0 < length world.new.table.terms) }
{
    member_as(world, at, x.ty, name, x.is_lvalue, x.address)
}

/// `x->name`: rule 29.
pub fn judge_arrow(world: &mut World, at: At, x: &Typed, name: &[u8]) -> Result<Typed, CheckEnd>
    requires { x.now.ty.0 < length world.old.table.terms }
    ensures gives { Gives (forms.judge_arrow at (typed_of world.old.table.terms x.now) name.now) (seen world.old) result (typed_of world.new.table.terms) (seen world.new) }
    ensures extends { OnOk result (Extends world.old.table world.new.table) }
    ensures valid { IfOk result (λ r. r.ty.0 < length world.new.table.terms) }
{
    let address = pointed(world, x);
    let pointer = settled(world, x.ty)?;
    if !is_pointer(world, pointer) {
        return Err(CheckEnd::Rule(29, at));
    }
    let to = pointee(world, pointer);
    let r = member_as(world, at, to, name, true, address)?;
    Ok(r)
}
