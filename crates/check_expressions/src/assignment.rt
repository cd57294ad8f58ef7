//! Assignment (ISO/IEC 9899:2018, 6.5.16).

ghost use Rattle.std.specs.Prelude.{◌≡◌, ◌<◌, length, IfOk, OnOk};
ghost use Rattle.c_tree.specs.View.{view_op, view_assign};
ghost use Rattle.c_types.specs.Table.{type_at};
ghost use Rattle.c_rules.specs.Forms as forms;
ghost use Rattle.c_world.specs.Extends.{Extends};
ghost use Rattle.c_world.specs.Seen.{seen, Gives};
ghost use Rattle.expression_rules.specs.Steps as steps;
ghost use Rattle.expression_rules.specs.Typed.{typed_of};

use crate::binary::takes;
use crate::noting::done_value;
use c_tree::{AssignOp, At, BinaryOp};
use c_types::TypeId;
use c_world::{CheckEnd, World, keep};
use expression_rules::{
    Typed, assigned_type, converts, decayed, is_integer, is_modifiable, settled,
};

/// The right operand is converted to this type, and the result has the left one's.
fn set_done(world: &mut World, at: At, y_at: At, to: TypeId, ty: TypeId) -> Result<Typed, CheckEnd>
    requires to { to.0 < length world.old.table.terms }
    requires ty { ty.0 < length world.old.table.terms }
    ensures gives { Gives (steps.set_done at y_at (type_at world.old.table.terms to.0) (type_at world.old.table.terms ty.0)) (seen world.old) result (typed_of world.new.table.terms) (seen world.new) }
    ensures extends { OnOk result (Extends world.old.table world.new.table) }
    ensures valid { IfOk result (λ r. r.ty.0 < length world.new.table.terms) }
{
    world.note_target(y_at.id, to);
    let ty = assigned_type(world, ty)?;
    done_value(world, at, ty)
}

/// The trials of `=`, where the type is made that the right operand is converted to.
fn set_as(
    world: &mut World,
    at: At,
    to: TypeId,
    fits: bool,
    x: &Typed,
    y_at: At,
) -> Result<Typed, CheckEnd>
    requires to { to.0 < length world.old.table.terms }
    requires left { x.now.ty.0 < length world.old.table.terms }
    ensures gives { Gives (steps.set_as at (type_at world.old.table.terms to.0) fits (typed_of world.old.table.terms x.now) y_at) (seen world.old) result (typed_of world.new.table.terms) (seen world.new) }
    ensures extends { OnOk result (Extends world.old.table world.new.table) }
    ensures valid { IfOk result (λ r. r.ty.0 < length world.new.table.terms) }
{
    keep(23, at, fits)?;
    keep(24, at, is_modifiable(world, x))?;
    let r = set_done(world, at, y_at, to, x.ty)?;
    Ok(r)
}

/// `x = y`, where `y` stands at `y_at`: rules 23 and 24.
pub fn judge_set(
    world: &mut World,
    at: At,
    x: &Typed,
    y_at: At,
    y: &Typed,
) -> Result<Typed, CheckEnd>
    requires left { x.now.ty.0 < length world.old.table.terms }
    requires right { y.now.ty.0 < length world.old.table.terms }
    ensures gives { Gives (forms.judge_set at (typed_of world.old.table.terms x.now) y_at (typed_of world.old.table.terms y.now)) (seen world.old) result (typed_of world.new.table.terms) (seen world.new) }
    ensures extends { OnOk result (Extends world.old.table world.new.table) }
    ensures valid { IfOk result (λ r. r.ty.0 < length world.new.table.terms) }
{
    let to = decayed(world, x.ty)?;
    let fits = converts(world, to, y)?;
    let r = set_as(world, at, to, fits, x, y_at)?;
    Ok(r)
}

/// Rule 25, where the types of the operands' values are made.
fn takes_settled(world: &World, op: BinaryOp, a: TypeId, b: TypeId, x: &Typed, y: &Typed) -> bool
    requires left { a.0 < length world.now.table.terms }
    requires right { b.0 < length world.now.table.terms }
    requires x { x.now.ty.0 < length world.now.table.terms }
    ensures { result ≡ steps.takes_settled (seen world.now) (view_op op) (type_at world.now.table.terms a.0) (type_at world.now.table.terms b.0) (typed_of world.now.table.terms x.now) (typed_of world.now.table.terms y.now) }
{
    is_modifiable(world, x) && takes(world, op, a, b, x, y) && is_integer(world, b)
}

/// The trials of a compound assignment, where the types of its operands' values are made.
fn compound_settled(
    world: &mut World,
    at: At,
    op: BinaryOp,
    a: TypeId,
    b: TypeId,
    x: &Typed,
    y: &Typed,
) -> Result<Typed, CheckEnd>
    requires left { a.0 < length world.old.table.terms }
    requires right { b.0 < length world.old.table.terms }
    requires x { x.now.ty.0 < length world.old.table.terms }
    ensures gives { Gives (steps.compound_settled at (view_op op) (type_at world.old.table.terms a.0) (type_at world.old.table.terms b.0) (typed_of world.old.table.terms x.now) (typed_of world.old.table.terms y.now)) (seen world.old) result (typed_of world.new.table.terms) (seen world.new) }
    ensures extends { OnOk result (Extends world.old.table world.new.table) }
    ensures valid { IfOk result (λ r. r.ty.0 < length world.new.table.terms) }
{
    keep(25, at, takes_settled(world, op, a, b, x, y))?;
    let r = done_value(world, at, x.ty)?;
    Ok(r)
}

/// `x op= y`: rule 25.
pub fn judge_compound(
    world: &mut World,
    at: At,
    op: BinaryOp,
    x: &Typed,
    y: &Typed,
) -> Result<Typed, CheckEnd>
    requires left { x.now.ty.0 < length world.old.table.terms }
    requires right { y.now.ty.0 < length world.old.table.terms }
    ensures gives { Gives (forms.judge_compound at (view_op op) (typed_of world.old.table.terms x.now) (typed_of world.old.table.terms y.now)) (seen world.old) result (typed_of world.new.table.terms) (seen world.new) }
    ensures extends { OnOk result (Extends world.old.table world.new.table) }
    ensures valid { IfOk result (λ r. r.ty.0 < length world.new.table.terms) }
{
    let a = settled(world, x.ty)?;
    let b = settled(world, y.ty)?;
    let r = compound_settled(world, at, op, a, b, x, y)?;
    Ok(r)
}

/// An assignment, whose right operand stands at `y_at`.
pub fn judge_assign(
    world: &mut World,
    at: At,
    op: AssignOp,
    x: &Typed,
    y_at: At,
    y: &Typed,
) -> Result<Typed, CheckEnd>
    requires left { x.now.ty.0 < length world.old.table.terms }
    requires right { y.now.ty.0 < length world.old.table.terms }
    ensures gives { Gives (forms.judge_assign at (forms.operator_of (view_assign op)) (typed_of world.old.table.terms x.now) y_at (typed_of world.old.table.terms y.now)) (seen world.old) result (typed_of world.new.table.terms) (seen world.new) }
    ensures extends { OnOk result (Extends world.old.table world.new.table) }
    ensures valid { IfOk result (λ r. r.ty.0 < length world.new.table.terms) }
{
    match op {
        AssignOp::Set => judge_set(world, at, x, y_at, y),
        AssignOp::Mul => judge_compound(world, at, BinaryOp::Mul, x, y),
        AssignOp::Div => judge_compound(world, at, BinaryOp::Div, x, y),
        AssignOp::Rem => judge_compound(world, at, BinaryOp::Rem, x, y),
        AssignOp::Add => judge_compound(world, at, BinaryOp::Add, x, y),
        AssignOp::Sub => judge_compound(world, at, BinaryOp::Sub, x, y),
        AssignOp::Shl => judge_compound(world, at, BinaryOp::Shl, x, y),
        AssignOp::Shr => judge_compound(world, at, BinaryOp::Shr, x, y),
        AssignOp::BitAnd => judge_compound(world, at, BinaryOp::BitAnd, x, y),
        AssignOp::BitXor => judge_compound(world, at, BinaryOp::BitXor, x, y),
        AssignOp::BitOr => judge_compound(world, at, BinaryOp::BitOr, x, y),
    }
}
