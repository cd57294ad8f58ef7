//! What every form of expression ends with: rule 31, and its type is noted.

ghost use Rattle.std.specs.Prelude.{◌≡◌, ◌<◌, length, IfOk, OnOk};
ghost use Rattle.num_ops.specs.declared.kinds.IntKind.{IntKind};
ghost use Rattle.c_types.specs.CTypes as c;
ghost use Rattle.c_types.specs.Table.{type_at};
ghost use Rattle.c_rules.specs.Expressions as rules;
ghost use Rattle.c_rules.specs.Forms as forms;
ghost use Rattle.c_rules.specs.Typed.{value_of, lvalue_of, constant_of, pointer_of};
ghost use Rattle.c_world.specs.Extends.{Extends};
ghost use Rattle.c_world.specs.Seen.{seen, Gives};
ghost use Rattle.expression_rules.specs.Typed.{typed_of};

use c_tree::At;
use c_types::{Term, TypeId};
use c_world::{CheckEnd, World, keep};
use constant_values::{Address, Constant};
use expression_rules::{Typed, is_function, is_record};
use num_ops::IntKind;

/// Whether an expression of record type is an lvalue.
fn is_lvalue_record(world: &World, x: &Typed) -> bool
    requires { x.now.ty.0 < length world.now.table.terms }
    ensures { result ≡ rules.is_lvalue_record (typed_of world.now.table.terms x.now) }
{
    !is_record(world, world.plain(x.ty)) || x.is_lvalue
}

/// The node is an expression of which this is known.
pub fn done(world: &mut World, at: At, x: Typed) -> Result<Typed, CheckEnd>
    requires { x.ty.0 < length world.old.table.terms }
    ensures gives { Gives (forms.done at (typed_of world.old.table.terms x)) (seen world.old) result (typed_of world.new.table.terms) (seen world.new) }
    ensures same { world.new.table ≡ world.old.table }
    ensures is { IfOk result (λ r. r ≡ x) }
    ensures valid { IfOk result (λ r. r.ty.0 < length world.new.table.terms) }
{
    keep(31, at, is_lvalue_record(world, &x))?;
    world.note_type(at.id, x.ty);
    Ok(x)
}

/// A value that no constant expression gives.
pub(crate) fn done_value(world: &mut World, at: At, ty: TypeId) -> Result<Typed, CheckEnd>
    requires { ty.0 < length world.old.table.terms }
    ensures gives { Gives (forms.done at (value_of (type_at world.old.table.terms ty.0))) (seen world.old) result (typed_of world.new.table.terms) (seen world.new) }
    ensures same { world.new.table ≡ world.old.table }
    ensures valid { IfOk result (λ r. r.ty.0 < length world.new.table.terms) }
{
    let x = done_constant(world, at, ty, Constant::varies())?;
    Ok(x)
}

/// A value of an integer constant expression, where it is one.
pub(crate) fn done_constant(
    world: &mut World,
    at: At,
    ty: TypeId,
    value: Constant,
) -> Result<Typed, CheckEnd>
    requires { ty.0 < length world.old.table.terms }
    ensures gives { Gives (forms.done at (constant_of (type_at world.old.table.terms ty.0) value)) (seen world.old) result (typed_of world.new.table.terms) (seen world.new) }
    ensures same { world.new.table ≡ world.old.table }
    ensures valid { IfOk result (λ r. r.ty.0 < length world.new.table.terms) }
{
    let x = done(
        world,
        at,
        Typed {
            ty,
            is_lvalue: false,
            value,
            is_null: false,
            address: Address::none(),
            text: None,
        },
    )?;
    Ok(x)
}

/// A constant of an integer type.
pub(crate) fn done_int(
    world: &mut World,
    at: At,
    kind: IntKind,
    value: Constant,
) -> Result<Typed, CheckEnd>
    ensures gives { Gives (forms.done at (constant_of (c.Int kind) value)) (seen world.old) result (typed_of world.new.table.terms) (seen world.new) }
    ensures extends { OnOk result (Extends world.old.table world.new.table) }
    ensures valid { IfOk result (λ r. r.ty.0 < length world.new.table.terms) }
{
    let ty = world.make(Term::Int(kind))?;
    done_constant(world, at, ty, value)
}

/// A value that points somewhere.
pub(crate) fn done_pointer(
    world: &mut World,
    at: At,
    ty: TypeId,
    address: Address,
) -> Result<Typed, CheckEnd>
    requires { ty.0 < length world.old.table.terms }
    ensures gives { Gives (forms.done at (pointer_of (type_at world.old.table.terms ty.0) address)) (seen world.old) result (typed_of world.new.table.terms) (seen world.new) }
    ensures same { world.new.table ≡ world.old.table }
    ensures valid { IfOk result (λ r. r.ty.0 < length world.new.table.terms) }
{
    let x = done(
        world,
        at,
        Typed {
            ty,
            is_lvalue: false,
            value: Constant::varies(),
            is_null: false,
            address,
            text: None,
        },
    )?;
    Ok(x)
}

/// An lvalue.
pub(crate) fn done_lvalue(
    world: &mut World,
    at: At,
    ty: TypeId,
    address: Address,
) -> Result<Typed, CheckEnd>
    requires { ty.0 < length world.old.table.terms }
    ensures gives { Gives (forms.done at (lvalue_of (type_at world.old.table.terms ty.0) address)) (seen world.old) result (typed_of world.new.table.terms) (seen world.new) }
    ensures same { world.new.table ≡ world.old.table }
    ensures valid { IfOk result (λ r. r.ty.0 < length world.new.table.terms) }
{
    let x = done(
        world,
        at,
        Typed {
            ty,
            is_lvalue: true,
            value: Constant::varies(),
            is_null: false,
            address,
            text: None,
        },
    )?;
    Ok(x)
}

/// What a pointer leads to: an lvalue, or a function (6.5.3.2, paragraph 4).
pub(crate) fn done_followed(
    world: &mut World,
    at: At,
    ty: TypeId,
    address: Address,
) -> Result<Typed, CheckEnd>
    requires { ty.0 < length world.old.table.terms }
    ensures gives { Gives (forms.done at (forms.followed (type_at world.old.table.terms ty.0) address)) (seen world.old) result (typed_of world.new.table.terms) (seen world.new) }
    ensures same { world.new.table ≡ world.old.table }
    ensures valid { IfOk result (λ r. r.ty.0 < length world.new.table.terms) }
{
    let is_lvalue = !is_function(world, world.plain(ty));
    let x = done(
        world,
        at,
        Typed {
            ty,
            is_lvalue,
            value: Constant::varies(),
            is_null: false,
            address: address.taken(),
            text: None,
        },
    )?;
    Ok(x)
}
