//! Operators with two operands, and `[]` (ISO/IEC 9899:2018, 6.5.2.1, 6.5.5 to 6.5.14).

ghost use Rattle.std.specs.Prelude.{◌≡◌, ◌<◌, length, IfOk, OnOk};
ghost use Rattle.c_tree.specs.View.{view_op};
ghost use Rattle.c_types.specs.Table.{type_at};
ghost use Rattle.c_rules.specs.Forms as forms;
ghost use Rattle.c_world.specs.Extends.{Extends};
ghost use Rattle.c_world.specs.Seen.{seen, Gives};
ghost use Rattle.expression_rules.specs.Steps as steps;
ghost use Rattle.expression_rules.specs.Typed.{typed_of};

use crate::noting::{done, done_followed};
use c_tree::{At, BinaryOp};
use c_types::{Term, TypeId};
use c_world::{CheckEnd, World, keep};
use constant_values::{Address, Constant};
use expression_rules::{
    Typed, are_integers, can_be_added, can_be_equal, can_be_indexed, can_be_ordered,
    can_be_subtracted, common_type, difference_type, is_integer, is_pointer, is_scalar, kind_of,
    moved_back, moved_by, pointed, pointee, settled, sum_type,
};
use num_ops::{IntKind, promote};
use tok_base::NoMemory;

/// The number of the rule on an operator.
fn binary_rule(op: BinaryOp) -> u32
    ensures { result ≡ forms.binary_rule (view_op op) }
{
    match op {
        BinaryOp::Mul => 17,
        BinaryOp::Div => 17,
        BinaryOp::Rem => 17,
        BinaryOp::BitAnd => 17,
        BinaryOp::BitXor => 17,
        BinaryOp::BitOr => 17,
        BinaryOp::Shl => 17,
        BinaryOp::Shr => 17,
        BinaryOp::Add => 18,
        BinaryOp::Sub => 18,
        BinaryOp::Lt => 19,
        BinaryOp::Gt => 19,
        BinaryOp::Le => 19,
        BinaryOp::Ge => 19,
        BinaryOp::Eq => 20,
        BinaryOp::Ne => 20,
        BinaryOp::And => 21,
        BinaryOp::Or => 21,
    }
}

fn are_scalars(world: &World, a: TypeId, b: TypeId) -> bool
    requires left { a.0 < length world.now.table.terms }
    requires right { b.0 < length world.now.table.terms }
    ensures { result ≡ steps.are_scalars (type_at world.now.table.terms a.0) (type_at world.now.table.terms b.0) }
{
    is_scalar(world, a) && is_scalar(world, b)
}

/// Whether an operator takes the values of `x` and `y`, whose types are `a` and `b`: rules 17 to 21.
pub(crate) fn takes(world: &World, op: BinaryOp, a: TypeId, b: TypeId, x: &Typed, y: &Typed) -> bool
    requires left { a.0 < length world.now.table.terms }
    requires right { b.0 < length world.now.table.terms }
    ensures { result ≡ forms.takes (seen world.now) (view_op op) (type_at world.now.table.terms a.0) (type_at world.now.table.terms b.0) (typed_of world.now.table.terms x.now) (typed_of world.now.table.terms y.now) }
{
    match op {
        BinaryOp::Add => can_be_added(world, a, b),
        BinaryOp::Sub => can_be_subtracted(world, a, b),
        BinaryOp::Lt => can_be_ordered(world, a, b),
        BinaryOp::Gt => can_be_ordered(world, a, b),
        BinaryOp::Le => can_be_ordered(world, a, b),
        BinaryOp::Ge => can_be_ordered(world, a, b),
        BinaryOp::Eq => can_be_equal(world, a, b, x, y),
        BinaryOp::Ne => can_be_equal(world, a, b, x, y),
        BinaryOp::And => are_scalars(world, a, b),
        BinaryOp::Or => are_scalars(world, a, b),
        BinaryOp::Mul => are_integers(world, a, b),
        BinaryOp::Div => are_integers(world, a, b),
        BinaryOp::Rem => are_integers(world, a, b),
        BinaryOp::BitAnd => are_integers(world, a, b),
        BinaryOp::BitXor => are_integers(world, a, b),
        BinaryOp::BitOr => are_integers(world, a, b),
        BinaryOp::Shl => are_integers(world, a, b),
        BinaryOp::Shr => are_integers(world, a, b),
    }
}

/// The type of an operator's result, by the types of its operands' values.
fn binary_type(world: &mut World, op: BinaryOp, a: TypeId, b: TypeId) -> Result<TypeId, NoMemory>
    requires left { a.0 < length world.old.table.terms }
    requires right { b.0 < length world.old.table.terms }
    ensures seen { seen world.new ≡ seen world.old }
    ensures extends { Extends world.old.table world.new.table }
    ensures is { IfOk result (λ r. type_at world.new.table.terms r.0 ≡ forms.binary_type (view_op op) (type_at world.old.table.terms a.0) (type_at world.old.table.terms b.0)) }
    ensures valid { IfOk result (λ r. r.0 < length world.new.table.terms) }
{
    match op {
        BinaryOp::Add => sum_type(world, a, b),
        BinaryOp::Sub => difference_type(world, a, b),
        BinaryOp::Mul => common_type(world, a, b),
        BinaryOp::Div => common_type(world, a, b),
        BinaryOp::Rem => common_type(world, a, b),
        BinaryOp::BitAnd => common_type(world, a, b),
        BinaryOp::BitXor => common_type(world, a, b),
        BinaryOp::BitOr => common_type(world, a, b),
        BinaryOp::Shl => shifted_type(world, a),
        BinaryOp::Shr => shifted_type(world, a),
        BinaryOp::Lt => world.make(Term::Int(IntKind::Int)),
        BinaryOp::Gt => world.make(Term::Int(IntKind::Int)),
        BinaryOp::Le => world.make(Term::Int(IntKind::Int)),
        BinaryOp::Ge => world.make(Term::Int(IntKind::Int)),
        BinaryOp::Eq => world.make(Term::Int(IntKind::Int)),
        BinaryOp::Ne => world.make(Term::Int(IntKind::Int)),
        BinaryOp::And => world.make(Term::Int(IntKind::Int)),
        BinaryOp::Or => world.make(Term::Int(IntKind::Int)),
    }
}

/// The type of a shift: that of its promoted left operand (6.5.7, paragraph 3).
fn shifted_type(world: &mut World, a: TypeId) -> Result<TypeId, NoMemory>
    requires { a.0 < length world.old.table.terms }
    ensures seen { seen world.new ≡ seen world.old }
    ensures extends { Extends world.old.table world.new.table }
    ensures is { IfOk result (λ r. type_at world.new.table.terms r.0 ≡ steps.shifted_type (type_at world.old.table.terms a.0)) }
    ensures valid { IfOk result (λ r. r.0 < length world.new.table.terms) }
{
    let kind = promote(kind_of(world, a));
    world.make(Term::Int(kind))
}

/// The value of an operator's result: only integers make integer constants.
#[tactic(auto, using(constant_values::specs::Forms::binary_value_is))]
fn value_between(
    world: &World,
    op: BinaryOp,
    a: TypeId,
    b: TypeId,
    x: &Typed,
    y: &Typed,
) -> Constant
    requires left { a.0 < length world.now.table.terms }
    requires right { b.0 < length world.now.table.terms }
    ensures { result ≡ forms.value_between (view_op op) (type_at world.now.table.terms a.0) (type_at world.now.table.terms b.0) (typed_of world.now.table.terms x.now) (typed_of world.now.table.terms y.now) }
{
    if are_integers(world, a, b) {
        Constant::binary(op, kind_of(world, a), kind_of(world, b), x.value, y.value)
    } else {
        Constant::varies()
    }
}

/// What a sum points to, where that is constant (6.6, paragraph 9).
fn sum_address(world: &World, a: TypeId, b: TypeId, x: &Typed, y: &Typed) -> Address
    requires left { a.0 < length world.now.table.terms }
    requires right { b.0 < length world.now.table.terms }
    requires x { x.now.ty.0 < length world.now.table.terms }
    requires y { y.now.ty.0 < length world.now.table.terms }
    ensures { result ≡ forms.sum_address (seen world.now) (type_at world.now.table.terms a.0) (type_at world.now.table.terms b.0) (typed_of world.now.table.terms x.now) (typed_of world.now.table.terms y.now) }
{
    if is_pointer(world, a) && is_integer(world, b) {
        moved_by(world, a, y.value, pointed(world, x))
    } else if is_integer(world, a) && is_pointer(world, b) {
        moved_by(world, b, x.value, pointed(world, y))
    } else {
        Address::none()
    }
}

/// What a difference points to, where that is constant.
fn difference_address(world: &World, a: TypeId, b: TypeId, x: &Typed, y: &Typed) -> Address
    requires left { a.0 < length world.now.table.terms }
    requires right { b.0 < length world.now.table.terms }
    requires x { x.now.ty.0 < length world.now.table.terms }
    ensures { result ≡ steps.difference_address (seen world.now) (type_at world.now.table.terms a.0) (type_at world.now.table.terms b.0) (typed_of world.now.table.terms x.now) (typed_of world.now.table.terms y.now) }
{
    if is_pointer(world, a) && is_integer(world, b) {
        moved_back(world, a, y.value, pointed(world, x))
    } else {
        Address::none()
    }
}

fn binary_address(
    world: &World,
    op: BinaryOp,
    a: TypeId,
    b: TypeId,
    x: &Typed,
    y: &Typed,
) -> Address
    requires left { a.0 < length world.now.table.terms }
    requires right { b.0 < length world.now.table.terms }
    requires x { x.now.ty.0 < length world.now.table.terms }
    requires y { y.now.ty.0 < length world.now.table.terms }
    ensures { result ≡ forms.binary_address (seen world.now) (view_op op) (type_at world.now.table.terms a.0) (type_at world.now.table.terms b.0) (typed_of world.now.table.terms x.now) (typed_of world.now.table.terms y.now) }
{
    match op {
        BinaryOp::Add => sum_address(world, a, b, x, y),
        BinaryOp::Sub => difference_address(world, a, b, x, y),
        _ => Address::none(),
    }
}

/// What is known of an operator's result.
fn binary_done(
    world: &mut World,
    at: At,
    op: BinaryOp,
    a: TypeId,
    b: TypeId,
    x: &Typed,
    y: &Typed,
) -> Result<Typed, CheckEnd>
    requires left { a.0 < length world.old.table.terms }
    requires right { b.0 < length world.old.table.terms }
    requires x { x.now.ty.0 < length world.old.table.terms }
    requires y { y.now.ty.0 < length world.old.table.terms }
    ensures gives { Gives (forms.done at (steps.binary_typed (seen world.old) (view_op op) (type_at world.old.table.terms a.0) (type_at world.old.table.terms b.0) (typed_of world.old.table.terms x.now) (typed_of world.old.table.terms y.now))) (seen world.old) result (typed_of world.new.table.terms) (seen world.new) }
    ensures extends { OnOk result (Extends world.old.table world.new.table) }
    ensures valid { IfOk result (λ r. r.ty.0 < length world.new.table.terms) }
{
    let value = value_between(world, op, a, b, x, y);
    let address = binary_address(world, op, a, b, x, y);
    let ty = binary_type(world, op, a, b)?;
    let r = done(
        world,
        at,
        Typed {
            ty,
            is_lvalue: false,
            value,
            is_null: false,
            address,
            text: None,
        },
    )?;
    Ok(r)
}

/// The trials of an operator, where the types of its operands' values are made.
fn binary_settled(
    world: &mut World,
    at: At,
    op: BinaryOp,
    a: TypeId,
    b: TypeId,
    x: &Typed,
    y: &Typed,
) -> Result<Typed, CheckEnd>
    requires left { a.0 < length world.old.table.terms }
    requires right { b.0 < length world.old.table.terms }
    requires x { x.now.ty.0 < length world.old.table.terms }
    requires y { y.now.ty.0 < length world.old.table.terms }
    ensures gives { Gives (steps.binary_settled at (view_op op) (type_at world.old.table.terms a.0) (type_at world.old.table.terms b.0) (typed_of world.old.table.terms x.now) (typed_of world.old.table.terms y.now)) (seen world.old) result (typed_of world.new.table.terms) (seen world.new) }
    ensures extends { OnOk result (Extends world.old.table world.new.table) }
    ensures valid { IfOk result (λ r. r.ty.0 < length world.new.table.terms) }
{
    keep(binary_rule(op), at, takes(world, op, a, b, x, y))?;
    let r = binary_done(world, at, op, a, b, x, y)?;
    Ok(r)
}

/// An operator between two operands: rules 17 to 21.
pub fn judge_binary(
    world: &mut World,
    at: At,
    op: BinaryOp,
    x: &Typed,
    y: &Typed,
) -> Result<Typed, CheckEnd>
    requires left { x.now.ty.0 < length world.old.table.terms }
    requires right { y.now.ty.0 < length world.old.table.terms }
    ensures gives { Gives (forms.judge_binary at (view_op op) (typed_of world.old.table.terms x.now) (typed_of world.old.table.terms y.now)) (seen world.old) result (typed_of world.new.table.terms) (seen world.new) }
    ensures extends { OnOk result (Extends world.old.table world.new.table) }
    ensures valid { IfOk result (λ r. r.ty.0 < length world.new.table.terms) }
{
    let a = settled(world, x.ty)?;
    let b = settled(world, y.ty)?;
    let r = binary_settled(world, at, op, a, b, x, y)?;
    Ok(r)
}

/// The trials of `[]`, where the types of its operands' values are made.
fn index_settled(
    world: &mut World,
    at: At,
    a: TypeId,
    b: TypeId,
    x: &Typed,
    y: &Typed,
) -> Result<Typed, CheckEnd>
    requires left { a.0 < length world.old.table.terms }
    requires right { b.0 < length world.old.table.terms }
    requires x { x.now.ty.0 < length world.old.table.terms }
    requires y { y.now.ty.0 < length world.old.table.terms }
    ensures gives { Gives (steps.index_settled at (type_at world.old.table.terms a.0) (type_at world.old.table.terms b.0) (typed_of world.old.table.terms x.now) (typed_of world.old.table.terms y.now)) (seen world.old) result (typed_of world.new.table.terms) (seen world.new) }
    ensures extends { OnOk result (Extends world.old.table world.new.table) }
    ensures valid { IfOk result (λ r. r.ty.0 < length world.new.table.terms) }
{
    keep(28, at, can_be_indexed(world, a, b))?;
    let address = sum_address(world, a, b, x, y);
    let sum = sum_type(world, a, b)?;
    let to = pointee(world, sum);
    let r = done_followed(world, at, to, address)?;
    Ok(r)
}

/// `x[y]`: rule 28.
pub fn judge_index(world: &mut World, at: At, x: &Typed, y: &Typed) -> Result<Typed, CheckEnd>
    requires left { x.now.ty.0 < length world.old.table.terms }
    requires right { y.now.ty.0 < length world.old.table.terms }
    ensures gives { Gives (forms.judge_index at (typed_of world.old.table.terms x.now) (typed_of world.old.table.terms y.now)) (seen world.old) result (typed_of world.new.table.terms) (seen world.new) }
    ensures extends { OnOk result (Extends world.old.table world.new.table) }
    ensures valid { IfOk result (λ r. r.ty.0 < length world.new.table.terms) }
{
    let a = settled(world, x.ty)?;
    let b = settled(world, y.ty)?;
    let r = index_settled(world, at, a, b, x, y)?;
    Ok(r)
}
