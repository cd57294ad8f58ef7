//! Rules 23 and 33 at `return` (6.8.6.4).

ghost use Rattle.std.specs.Prelude.{◌≡◌, ◌<◌, length, not, is_some, Some, IfSome, IfOk, OnOk};
ghost use Rattle.c_tree.specs.View.{view, view_maybe_expr};
ghost use Rattle.c_types.specs.Plain as plain;
ghost use Rattle.c_types.specs.Table.{type_at};
ghost use Rattle.c_rules.specs.Types as types;
ghost use Rattle.c_rules.specs.Unit as unit;
ghost use Rattle.c_rules.specs.Walk as walk;
ghost use Rattle.c_world.specs.Extends.{Extends};
ghost use Rattle.c_world.specs.Seen.{seen, Gives};
ghost use Rattle.expression_rules.specs.Typed.{typed_of};
ghost use Rattle.statement_rules.specs.Steps.{maybe_typed};

use body_rules::at_of_expr;
use c_tree::{At, Expr};
use c_types::TypeId;
use c_world::{CheckEnd, World, keep};
use expression_rules::{Typed, converts, is_void};
use tok_base::NoMemory;

/// Whether a function of this result gives nothing back.
fn gives_nothing(world: &World, returned: TypeId) -> bool
    requires { returned.0 < length world.now.table.terms }
    ensures { result ≡ types.is_void (plain.plain (type_at world.now.table.terms returned.0)) }
{
    is_void(world, world.plain(returned))
}

fn returns_value(world: &mut World, returned: TypeId, x: &Typed) -> Result<bool, NoMemory>
    requires returned { returned.0 < length world.old.table.terms }
    requires value { x.now.ty.0 < length world.old.table.terms }
    ensures seen { seen world.new ≡ seen world.old }
    ensures extends { Extends world.old.table world.new.table }
    ensures is { IfOk result (λ b. b ≡ unit.returns (type_at world.old.table.terms returned.0) (Some (typed_of world.old.table.terms x.now))) }
{
    if gives_nothing(world, returned) {
        Ok(true)
    } else {
        converts(world, returned, x)
    }
}

/// 23: whether what is given back is converted to the result of the function.
fn returns(world: &mut World, returned: TypeId, x: &Option<Typed>) -> Result<bool, NoMemory>
    requires returned { returned.0 < length world.old.table.terms }
    requires value { IfSome x.now (λ y. y.ty.0 < length world.old.table.terms) }
    ensures seen { seen world.new ≡ seen world.old }
    ensures extends { Extends world.old.table world.new.table }
    ensures is { IfOk result (λ b. b ≡ unit.returns (type_at world.old.table.terms returned.0) (maybe_typed world.old.table.terms x.now)) }
{
    match x {
        Some(x) => returns_value(world, returned, x),
        None => Ok(true),
    }
}

/// 33: whether a value stands there exactly where the function isn't void.
fn is_wanted(world: &World, returned: TypeId, has_value: bool) -> bool
    requires { returned.0 < length world.now.table.terms }
    ensures { result ≡ unit.is_same_bool has_value (not (types.is_void (plain.plain (type_at world.now.table.terms returned.0)))) }
{
    let has_none = gives_nothing(world, returned);
    if has_value { !has_none } else { has_none }
}

fn note_result_of(world: &mut World, returned: TypeId, e: &Expr)
    requires { returned.0 < length world.old.table.terms }
    ensures seen { seen world.new ≡ unit.note_result (type_at world.old.table.terms returned.0) (view_maybe_expr (Some e.now)) (seen world.old) }
    ensures same { world.new.table ≡ world.old.table }
{
    if !gives_nothing(world, returned) {
        world.note_target(at_of_expr(e).id, returned);
    }
}

/// The type to which the value is converted is noted.
fn note_result(world: &mut World, returned: TypeId, e: &Option<Expr>)
    requires { returned.0 < length world.old.table.terms }
    ensures seen { seen world.new ≡ unit.note_result (type_at world.old.table.terms returned.0) (view_maybe_expr e.now) (seen world.old) }
    ensures same { world.new.table ≡ world.old.table }
{
    match e {
        Some(e) => note_result_of(world, returned, e),
        None => {}
    }
}

/// 23 and 33: an expression stands there exactly where the function isn't void.
pub fn judge_return(
    world: &mut World,
    returned: TypeId,
    at: At,
    e: &Option<Expr>,
    x: &Option<Typed>,
) -> Result<(), CheckEnd>
    requires returned { returned.0 < length world.old.table.terms }
    requires value { IfSome x.now (λ y. y.ty.0 < length world.old.table.terms) }
    ensures gives { Gives (unit.judge_return (type_at world.old.table.terms returned.0) at (view_maybe_expr e.now) (maybe_typed world.old.table.terms x.now)) (seen world.old) result (λ _. tt) (seen world.new) }
    ensures extends { OnOk result (Extends world.old.table world.new.table) }
{
    let converted = returns(world, returned, x)?;
    keep(23, at, converted)?;
    keep(33, at, is_wanted(world, returned, x.is_some()))?;
    note_result(world, returned, e);
    Ok(())
}
