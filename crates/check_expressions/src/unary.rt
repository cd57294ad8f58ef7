//! Operators with one operand (ISO/IEC 9899:2018, 6.5.1, 6.5.2.4, 6.5.3).

ghost use Rattle.std.specs.Prelude.{◌≡◌, ◌<◌, length, IfOk, OnOk};
ghost use Rattle.num_ops.specs.Conversions.{promoted};
ghost use Rattle.c_tree.specs.View.{view_prefix};
ghost use Rattle.c_types.specs.Table.{type_at};
ghost use Rattle.c_rules.specs.Forms as forms;
ghost use Rattle.c_world.specs.Extends.{Extends};
ghost use Rattle.c_world.specs.Seen.{seen, Gives};
ghost use Rattle.expression_rules.specs.Steps as steps;
ghost use Rattle.expression_rules.specs.Typed.{typed_of};

use crate::noting::{done, done_followed, done_int, done_pointer, done_value};
use c_tree::{At, PrefixOp};
use c_types::{Term, TypeId};
use c_world::{CheckEnd, World, keep};
use constant_values::Constant;
use expression_rules::{
    Typed, can_be_followed, can_step, has_address, is_integer, is_scalar, kind_of, pointed,
    pointee, settled,
};
use num_ops::{IntKind, promote};

/// `(x)`.
pub fn judge_paren(world: &mut World, at: At, x: &Typed) -> Result<Typed, CheckEnd>
    requires { x.now.ty.0 < length world.old.table.terms }
    ensures gives { Gives (forms.judge_paren at (typed_of world.old.table.terms x.now)) (seen world.old) result (typed_of world.new.table.terms) (seen world.new) }
    ensures extends { OnOk result (Extends world.old.table world.new.table) }
    ensures valid { IfOk result (λ r. r.ty.0 < length world.new.table.terms) }
{
    let r = done(
        world,
        at,
        Typed {
            ty: x.ty,
            is_lvalue: x.is_lvalue,
            value: x.value,
            is_null: x.is_null,
            address: x.address,
            text: None,
        },
    )?;
    Ok(r)
}

/// `++x`, `--x`, `x++` and `x--`: rule 16.
pub fn judge_step(world: &mut World, at: At, x: &Typed) -> Result<Typed, CheckEnd>
    requires { x.now.ty.0 < length world.old.table.terms }
    ensures gives { Gives (forms.judge_step at (typed_of world.old.table.terms x.now)) (seen world.old) result (typed_of world.new.table.terms) (seen world.new) }
    ensures extends { OnOk result (Extends world.old.table world.new.table) }
    ensures valid { IfOk result (λ r. r.ty.0 < length world.new.table.terms) }
{
    keep(16, at, can_step(world, x))?;
    let r = done_value(world, at, x.ty)?;
    Ok(r)
}

/// `&x`: rule 15.
pub fn judge_address(world: &mut World, at: At, x: &Typed) -> Result<Typed, CheckEnd>
    requires { x.now.ty.0 < length world.old.table.terms }
    ensures gives { Gives (forms.judge_address at (typed_of world.old.table.terms x.now)) (seen world.old) result (typed_of world.new.table.terms) (seen world.new) }
    ensures extends { OnOk result (Extends world.old.table world.new.table) }
    ensures valid { IfOk result (λ r. r.ty.0 < length world.new.table.terms) }
{
    keep(15, at, has_address(world, x))?;
    let ty = world.make(Term::Pointer(x.ty))?;
    done_pointer(world, at, ty, x.address.taken())
}

/// `*x`: rule 14.
pub fn judge_deref(world: &mut World, at: At, x: &Typed) -> Result<Typed, CheckEnd>
    requires { x.now.ty.0 < length world.old.table.terms }
    ensures gives { Gives (forms.judge_deref at (typed_of world.old.table.terms x.now)) (seen world.old) result (typed_of world.new.table.terms) (seen world.new) }
    ensures extends { OnOk result (Extends world.old.table world.new.table) }
    ensures valid { IfOk result (λ r. r.ty.0 < length world.new.table.terms) }
{
    let address = pointed(world, x);
    let pointer = settled(world, x.ty)?;
    keep(14, at, can_be_followed(world, pointer))?;
    let to = pointee(world, pointer);
    let r = done_followed(world, at, to, address)?;
    Ok(r)
}

/// `+x`, `-x` and `~x`, which have this value where they are constant: rule 13.
pub fn judge_sign(world: &mut World, at: At, x: &Typed, value: Constant) -> Result<Typed, CheckEnd>
    requires { x.now.ty.0 < length world.old.table.terms }
    ensures gives { Gives (forms.judge_sign at (typed_of world.old.table.terms x.now) value) (seen world.old) result (typed_of world.new.table.terms) (seen world.new) }
    ensures extends { OnOk result (Extends world.old.table world.new.table) }
    ensures valid { IfOk result (λ r. r.ty.0 < length world.new.table.terms) }
{
    let kind = promoted_kind(world, x);
    let operand = settled(world, x.ty)?;
    keep(13, at, is_integer(world, operand))?;
    let r = done_int(world, at, kind, value)?;
    Ok(r)
}

/// The kind that an operand is promoted to (6.3.1.1, paragraph 2).
fn promoted_kind(world: &World, x: &Typed) -> IntKind
    requires { x.now.ty.0 < length world.now.table.terms }
    ensures { result ≡ promoted (steps.operand_kind (type_at world.now.table.terms x.now.ty.0)) }
{
    promote(operand_kind(world, x))
}

/// The kind of an operand.
fn operand_kind(world: &World, x: &Typed) -> IntKind
    requires { x.now.ty.0 < length world.now.table.terms }
    ensures { result ≡ steps.operand_kind (type_at world.now.table.terms x.now.ty.0) }
{
    kind_of(world, world.plain(x.ty))
}

/// `!x`: rule 13.
pub fn judge_not(world: &mut World, at: At, x: &Typed) -> Result<Typed, CheckEnd>
    requires { x.now.ty.0 < length world.old.table.terms }
    ensures gives { Gives (forms.judge_not at (typed_of world.old.table.terms x.now)) (seen world.old) result (typed_of world.new.table.terms) (seen world.new) }
    ensures extends { OnOk result (Extends world.old.table world.new.table) }
    ensures valid { IfOk result (λ r. r.ty.0 < length world.new.table.terms) }
{
    let operand = settled(world, x.ty)?;
    keep(13, at, is_scalar(world, operand))?;
    let r = done_int(world, at, IntKind::Int, Constant::not(x.value))?;
    Ok(r)
}

/// An operator before its operand (6.5.3).
pub fn judge_prefix(world: &mut World, at: At, op: PrefixOp, x: &Typed) -> Result<Typed, CheckEnd>
    requires { x.now.ty.0 < length world.old.table.terms }
    ensures gives { Gives (forms.judge_prefix at (view_prefix op) (typed_of world.old.table.terms x.now)) (seen world.old) result (typed_of world.new.table.terms) (seen world.new) }
    ensures extends { OnOk result (Extends world.old.table world.new.table) }
    ensures valid { IfOk result (λ r. r.ty.0 < length world.new.table.terms) }
{
    match op {
        PrefixOp::Increment => judge_step(world, at, x),
        PrefixOp::Decrement => judge_step(world, at, x),
        PrefixOp::Address => judge_address(world, at, x),
        PrefixOp::Deref => judge_deref(world, at, x),
        PrefixOp::Plus => {
            let value = Constant::cast(promoted_kind(world, x), x.value);
            judge_sign(world, at, x, value)
        }
        PrefixOp::Minus => {
            let value = Constant::minus(operand_kind(world, x), x.value);
            judge_sign(world, at, x, value)
        }
        PrefixOp::BitNot => {
            let value = Constant::complement(operand_kind(world, x), x.value);
            judge_sign(world, at, x, value)
        }
        PrefixOp::Not => judge_not(world, at, x),
    }
}

/// `sizeof` of an expression or of a type name, by its type: rule 30.
pub fn judge_sizeof(world: &mut World, at: At, of: TypeId) -> Result<Typed, CheckEnd>
    requires { of.0 < length world.old.table.terms }
    ensures gives { Gives (forms.judge_sizeof at (type_at world.old.table.terms of.0)) (seen world.old) result (typed_of world.new.table.terms) (seen world.new) }
    ensures extends { OnOk result (Extends world.old.table world.new.table) }
    ensures valid { IfOk result (λ r. r.ty.0 < length world.new.table.terms) }
{
    let size = world.size_of(of);
    keep(30, at, size.is_some())?;
    let r = done_int(world, at, IntKind::ULong, Constant::of_type_size(size))?;
    Ok(r)
}
