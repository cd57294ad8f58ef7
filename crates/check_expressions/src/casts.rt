//! Casts (ISO/IEC 9899:2018, 6.5.4).

ghost use Rattle.std.specs.Prelude.{◌≡◌, ◌<◌, length, IfOk, OnOk};
ghost use Rattle.c_types.specs.Table.{type_at};
ghost use Rattle.c_rules.specs.Forms as forms;
ghost use Rattle.c_world.specs.Extends.{Extends};
ghost use Rattle.c_world.specs.Seen.{seen, Gives};
ghost use Rattle.expression_rules.specs.Steps as steps;
ghost use Rattle.expression_rules.specs.Typed.{typed_of};

use crate::noting::done;
use c_tree::At;
use c_types::TypeId;
use c_world::{CheckEnd, World, keep};
use constant_values::{Address, Constant};
use expression_rules::{
    Typed, can_be_cast, is_integer, is_null_constant, is_null_type, is_pointer, kind_of, pointed,
};
use tok_base::NoMemory;

fn cast_constant(world: &World, to: TypeId, value: Constant) -> Constant
    requires { to.0 < length world.now.table.terms }
    ensures { result ≡ forms.cast_constant (type_at world.now.table.terms to.0) value }
{
    let plain = world.plain(to);
    if is_integer(world, plain) {
        Constant::cast(kind_of(world, plain), value)
    } else {
        Constant::varies()
    }
}

fn cast_address(world: &World, to: TypeId, x: &Typed) -> Address
    requires to { to.0 < length world.now.table.terms }
    requires from { x.now.ty.0 < length world.now.table.terms }
    ensures { result ≡ forms.cast_address (type_at world.now.table.terms to.0) (typed_of world.now.table.terms x.now) }
{
    if !is_pointer(world, world.plain(to)) {
        Address::none()
    } else if is_null_constant(x) {
        Address::null()
    } else {
        pointed(world, x)
    }
}

/// Whether a cast of a constant is a null pointer constant (6.3.2.3, paragraph 3).
fn is_null_cast(world: &mut World, to: TypeId, value: Constant) -> Result<bool, NoMemory>
    requires { to.0 < length world.old.table.terms }
    ensures seen { seen world.new ≡ seen world.old }
    ensures extends { Extends world.old.table world.new.table }
    ensures is { IfOk result (λ b. b ≡ steps.is_null_cast (type_at world.old.table.terms to.0) value) }
{
    let is_null = is_null_type(world, to)?;
    Ok(is_null && value.is_zero())
}

/// What is known of a cast.
fn cast_done(world: &mut World, at: At, to: TypeId, x: &Typed) -> Result<Typed, CheckEnd>
    requires to { to.0 < length world.old.table.terms }
    requires from { x.now.ty.0 < length world.old.table.terms }
    ensures gives { Gives (forms.done at (steps.cast_typed (type_at world.old.table.terms to.0) (typed_of world.old.table.terms x.now))) (seen world.old) result (typed_of world.new.table.terms) (seen world.new) }
    ensures extends { OnOk result (Extends world.old.table world.new.table) }
    ensures valid { IfOk result (λ r. r.ty.0 < length world.new.table.terms) }
{
    let value = cast_constant(world, to, x.value);
    let address = cast_address(world, to, x);
    let is_null = is_null_cast(world, to, x.value)?;
    let r = done(
        world,
        at,
        Typed {
            ty: to,
            is_lvalue: false,
            value,
            is_null,
            address,
            text: None,
        },
    )?;
    Ok(r)
}

/// A cast to this type: rule 26.
pub fn judge_cast(world: &mut World, at: At, to: TypeId, x: &Typed) -> Result<Typed, CheckEnd>
    requires to { to.0 < length world.old.table.terms }
    requires from { x.now.ty.0 < length world.old.table.terms }
    ensures gives { Gives (forms.judge_cast at (type_at world.old.table.terms to.0) (typed_of world.old.table.terms x.now)) (seen world.old) result (typed_of world.new.table.terms) (seen world.new) }
    ensures extends { OnOk result (Extends world.old.table world.new.table) }
    ensures valid { IfOk result (λ r. r.ty.0 < length world.new.table.terms) }
{
    let fits = can_be_cast(world, to, x)?;
    keep(26, at, fits)?;
    let r = cast_done(world, at, to, x)?;
    Ok(r)
}
