//! `,` and `?:` (ISO/IEC 9899:2018, 6.5.15, 6.5.17).

ghost use Rattle.std.specs.Prelude.{◌≡◌, ◌<◌, length, IfOk, OnOk};
ghost use Rattle.c_types.specs.Table.{type_at};
ghost use Rattle.c_rules.specs.Forms as forms;
ghost use Rattle.c_world.specs.Extends.{Extends};
ghost use Rattle.c_world.specs.Seen.{seen, Gives};
ghost use Rattle.expression_rules.specs.Steps as steps;
ghost use Rattle.expression_rules.specs.Typed.{typed_of};

use crate::noting::{done_constant, done_value};
use c_tree::At;
use c_types::{Term, TypeId};
use c_world::{CheckEnd, World, keep};
use constant_values::Constant;
use expression_rules::{
    Typed, are_alike, are_integers, can_be_chosen, common_type, decayed, is_beside_null,
    is_integer, is_scalar, is_void, is_void_pointer, joined, kind_of, settled,
};
use num_ops::common;
use tok_base::NoMemory;

/// `x, y`, by `y`.
pub fn judge_comma(world: &mut World, at: At, y: &Typed) -> Result<Typed, CheckEnd>
    requires { y.now.ty.0 < length world.old.table.terms }
    ensures gives { Gives (forms.judge_comma at (typed_of world.old.table.terms y.now)) (seen world.old) result (typed_of world.new.table.terms) (seen world.new) }
    ensures extends { OnOk result (Extends world.old.table world.new.table) }
    ensures valid { IfOk result (λ r. r.ty.0 < length world.new.table.terms) }
{
    let ty = decayed(world, y.ty)?;
    let r = done_value(world, at, ty)?;
    Ok(r)
}

/// The type of two pointers of which neither goes by the other one's being a null pointer constant; `t` and
/// `u` are the types as written, `a` and `b` those behind typedef names and qualifiers.
fn pointer_joined(
    world: &mut World,
    t: TypeId,
    u: TypeId,
    a: TypeId,
    b: TypeId,
) -> Result<TypeId, NoMemory>
    requires t { t.0 < length world.old.table.terms }
    requires u { u.0 < length world.old.table.terms }
    requires a { a.0 < length world.old.table.terms }
    requires b { b.0 < length world.old.table.terms }
    ensures seen { seen world.new ≡ seen world.old }
    ensures extends { Extends world.old.table world.new.table }
    ensures is { IfOk result (λ r. type_at world.new.table.terms r.0 ≡ steps.pointer_joined (type_at world.old.table.terms t.0) (type_at world.old.table.terms u.0) (type_at world.old.table.terms a.0) (type_at world.old.table.terms b.0)) }
    ensures valid { IfOk result (λ r. r.0 < length world.new.table.terms) }
{
    if are_alike(world, a, b) {
        joined(world, t, b)
    } else if is_void_pointer(world, a) {
        joined(world, t, b)
    } else {
        joined(world, u, a)
    }
}

/// Whether the first type is a pointer beside a null pointer constant, and the two aren't pointers to
/// compatible types.
fn goes_by_null(world: &World, a: TypeId, b: TypeId, other: &Typed) -> bool
    requires left { a.0 < length world.now.table.terms }
    requires right { b.0 < length world.now.table.terms }
    ensures { result ≡ steps.goes_by_null (type_at world.now.table.terms a.0) (type_at world.now.table.terms b.0) (typed_of world.now.table.terms other.now) }
{
    is_beside_null(world, a, other) && !are_alike(world, a, b)
}

/// The type of branches that are neither two integers nor of type `void`.
fn pointer_chosen(world: &mut World, x: &Typed, y: &Typed) -> Result<TypeId, NoMemory>
    requires left { x.now.ty.0 < length world.old.table.terms }
    requires right { y.now.ty.0 < length world.old.table.terms }
    ensures seen { seen world.new ≡ seen world.old }
    ensures extends { Extends world.old.table world.new.table }
    ensures is { IfOk result (λ r. type_at world.new.table.terms r.0 ≡ steps.pointer_chosen (typed_of world.old.table.terms x.now) (typed_of world.old.table.terms y.now)) }
    ensures valid { IfOk result (λ r. r.0 < length world.new.table.terms) }
{
    let a = world.plain(x.ty);
    let b = world.plain(y.ty);
    if goes_by_null(world, a, b, y) {
        Ok(x.ty)
    } else if null_goes_by(world, a, b, x) {
        Ok(y.ty)
    } else {
        pointer_joined(world, x.ty, y.ty, a, b)
    }
}

/// The same for the second type.
fn null_goes_by(world: &World, a: TypeId, b: TypeId, other: &Typed) -> bool
    requires left { a.0 < length world.now.table.terms }
    requires right { b.0 < length world.now.table.terms }
    ensures { result ≡ steps.null_goes_by (type_at world.now.table.terms a.0) (type_at world.now.table.terms b.0) (typed_of world.now.table.terms other.now) }
{
    is_beside_null(world, b, other) && !are_alike(world, a, b)
}

/// The type of `?:` by its branches, whose types are those of their values as written.
fn type_chosen(world: &mut World, x: &Typed, y: &Typed) -> Result<TypeId, NoMemory>
    requires left { x.now.ty.0 < length world.old.table.terms }
    requires right { y.now.ty.0 < length world.old.table.terms }
    ensures seen { seen world.new ≡ seen world.old }
    ensures extends { Extends world.old.table world.new.table }
    ensures is { IfOk result (λ r. type_at world.new.table.terms r.0 ≡ steps.type_chosen (typed_of world.old.table.terms x.now) (typed_of world.old.table.terms y.now)) }
    ensures valid { IfOk result (λ r. r.0 < length world.new.table.terms) }
{
    let a = world.plain(x.ty);
    let b = world.plain(y.ty);
    if are_integers(world, a, b) {
        common_type(world, a, b)
    } else if is_void(world, a) {
        world.make(Term::Void)
    } else {
        pointer_chosen(world, x, y)
    }
}

/// Whether the condition and both branches are integers.
fn are_all_integers(world: &World, condition: TypeId, a: TypeId, b: TypeId) -> bool
    requires condition { condition.0 < length world.now.table.terms }
    requires left { a.0 < length world.now.table.terms }
    requires right { b.0 < length world.now.table.terms }
    ensures { result ≡ steps.are_all_integers (type_at world.now.table.terms condition.0) (type_at world.now.table.terms a.0) (type_at world.now.table.terms b.0) }
{
    is_integer(world, condition) && are_integers(world, a, b)
}

/// The value of `?:`, by the type and the value of its condition.
fn chosen_value(world: &World, condition: TypeId, value: Constant, x: &Typed, y: &Typed) -> Constant
    requires condition { condition.0 < length world.now.table.terms }
    requires left { x.now.ty.0 < length world.now.table.terms }
    requires right { y.now.ty.0 < length world.now.table.terms }
    ensures { result ≡ steps.chosen_value (type_at world.now.table.terms condition.0) value (typed_of world.now.table.terms x.now) (typed_of world.now.table.terms y.now) }
{
    let a = world.plain(x.ty);
    let b = world.plain(y.ty);
    if are_all_integers(world, condition, a, b) {
        let kind = common(kind_of(world, a), kind_of(world, b));
        Constant::cond(kind, value, x.value, y.value)
    } else {
        Constant::varies()
    }
}

/// What is known of `?:`.
fn cond_done(
    world: &mut World,
    at: At,
    condition: TypeId,
    value: Constant,
    x: &Typed,
    y: &Typed,
) -> Result<Typed, CheckEnd>
    requires condition { condition.0 < length world.old.table.terms }
    requires left { x.now.ty.0 < length world.old.table.terms }
    requires right { y.now.ty.0 < length world.old.table.terms }
    ensures gives { Gives (forms.done at (steps.cond_typed (type_at world.old.table.terms condition.0) value (typed_of world.old.table.terms x.now) (typed_of world.old.table.terms y.now))) (seen world.old) result (typed_of world.new.table.terms) (seen world.new) }
    ensures extends { OnOk result (Extends world.old.table world.new.table) }
    ensures valid { IfOk result (λ r. r.ty.0 < length world.new.table.terms) }
{
    let value = chosen_value(world, condition, value, x, y);
    let ty = type_chosen(world, x, y)?;
    let r = done_constant(world, at, ty, value)?;
    Ok(r)
}

/// The trials of `?:`, where the types of its operands' values are made.
fn cond_decayed(
    world: &mut World,
    at: At,
    condition: TypeId,
    value: Constant,
    x: &Typed,
    y: &Typed,
) -> Result<Typed, CheckEnd>
    requires condition { condition.0 < length world.old.table.terms }
    requires left { x.now.ty.0 < length world.old.table.terms }
    requires right { y.now.ty.0 < length world.old.table.terms }
    ensures gives { Gives (steps.cond_decayed at (type_at world.old.table.terms condition.0) value (typed_of world.old.table.terms x.now) (typed_of world.old.table.terms y.now)) (seen world.old) result (typed_of world.new.table.terms) (seen world.new) }
    ensures extends { OnOk result (Extends world.old.table world.new.table) }
    ensures valid { IfOk result (λ r. r.ty.0 < length world.new.table.terms) }
{
    keep(21, at, is_scalar(world, condition))?;
    keep(22, at, branches_agree(world, x, y))?;
    let r = cond_done(world, at, condition, value, x, y)?;
    Ok(r)
}

/// Rule 22, of branches whose types are those of their values as written.
fn branches_agree(world: &World, x: &Typed, y: &Typed) -> bool
    requires left { x.now.ty.0 < length world.now.table.terms }
    requires right { y.now.ty.0 < length world.now.table.terms }
    ensures { result ≡ steps.branches_agree (typed_of world.now.table.terms x.now) (typed_of world.now.table.terms y.now) }
{
    can_be_chosen(world, world.plain(x.ty), world.plain(y.ty), x, y)
}

/// `c ? x : y`: rules 21 and 22.
pub fn judge_cond(
    world: &mut World,
    at: At,
    c: &Typed,
    x: &Typed,
    y: &Typed,
) -> Result<Typed, CheckEnd>
    requires condition { c.now.ty.0 < length world.old.table.terms }
    requires left { x.now.ty.0 < length world.old.table.terms }
    requires right { y.now.ty.0 < length world.old.table.terms }
    ensures gives { Gives (forms.judge_cond at (typed_of world.old.table.terms c.now) (typed_of world.old.table.terms x.now) (typed_of world.old.table.terms y.now)) (seen world.old) result (typed_of world.new.table.terms) (seen world.new) }
    ensures extends { OnOk result (Extends world.old.table world.new.table) }
    ensures valid { IfOk result (λ r. r.ty.0 < length world.new.table.terms) }
{
    let condition = settled(world, c.ty)?;
    let r = cond_settled(world, at, condition, c.value, x, y)?;
    Ok(r)
}

/// The trials of `?:`, where the type of its condition's value is made.
fn cond_settled(
    world: &mut World,
    at: At,
    condition: TypeId,
    value: Constant,
    x: &Typed,
    y: &Typed,
) -> Result<Typed, CheckEnd>
    requires condition { condition.0 < length world.old.table.terms }
    requires left { x.now.ty.0 < length world.old.table.terms }
    requires right { y.now.ty.0 < length world.old.table.terms }
    ensures gives { Gives (steps.cond_decayed at (type_at world.old.table.terms condition.0) value (steps.as_decayed (typed_of world.old.table.terms x.now)) (steps.as_decayed (typed_of world.old.table.terms y.now))) (seen world.old) result (typed_of world.new.table.terms) (seen world.new) }
    ensures extends { OnOk result (Extends world.old.table world.new.table) }
    ensures valid { IfOk result (λ r. r.ty.0 < length world.new.table.terms) }
{
    let t = decayed(world, x.ty)?;
    let u = decayed(world, y.ty)?;
    let x = with_type(x, t);
    let y = with_type(y, u);
    let r = cond_decayed(world, at, condition, value, &x, &y)?;
    Ok(r)
}

/// An operand with another type.
fn with_type(x: &Typed, ty: TypeId) -> Typed
    ensures { result ≡ record x.now { ty = ty } }
{
    Typed {
        ty,
        is_lvalue: x.is_lvalue,
        value: x.value,
        is_null: x.is_null,
        address: x.address,
        text: x.text,
    }
}
