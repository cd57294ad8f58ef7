//! Rule 21 at statements: a condition is a scalar (6.8.4.1, 6.8.5).

ghost use Rattle.std.specs.Prelude.{◌≡◌, ◌<◌, ◌||◌, length, Some, IfSome};
ghost use Rattle.c_types.specs.Table.{type_at};
ghost use Rattle.c_rules.specs.Trials.{keep};
ghost use Rattle.c_rules.specs.Types as types;
ghost use Rattle.c_rules.specs.Unit as unit;
ghost use Rattle.c_world.specs.Seen.{seen, Gives};
ghost use Rattle.expression_rules.specs.Typed.{typed_of};
ghost use Rattle.statement_rules.specs.Steps.{maybe_typed};

use c_tree::At;
use c_types::TypeId;
use c_world::{CheckEnd, World, keep};
use expression_rules::{Typed, is_array, is_function, is_scalar};

/// Whether the value of an expression of this type is a scalar: an array and a function become pointers.
#[tactic(auto, using(crate::proofs::Scalars::settled_is))]
fn has_scalar_value(world: &World, ty: TypeId) -> bool
    requires { ty.0 < length world.now.table.terms }
    ensures { result ≡ types.is_scalar (types.settled (type_at world.now.table.terms ty.0)) }
{
    let plain = world.plain(ty);
    is_scalar(world, plain) || is_array(world, plain) || is_function(world, plain)
}

/// 21: the condition of a selection or a loop.
pub fn judge_condition(world: &World, at: At, x: &Typed) -> Result<(), CheckEnd>
    requires { x.now.ty.0 < length world.now.table.terms }
    ensures { Gives (keep 21 at (unit.is_condition (Some (typed_of world.now.table.terms x.now)))) (seen world.now) result (λ _. tt) (seen world.now) }
{
    keep(21, at, has_scalar_value(world, x.ty))
}

fn is_condition(world: &World, x: &Option<Typed>) -> bool
    requires { IfSome x.now (λ y. y.ty.0 < length world.now.table.terms) }
    ensures { result ≡ unit.is_condition (maybe_typed world.now.table.terms x.now) }
{
    match x {
        Some(x) => has_scalar_value(world, x.ty),
        None => true,
    }
}

/// 21: the condition of a `for`, which may be left out.
pub fn judge_maybe_condition(world: &World, at: At, x: &Option<Typed>) -> Result<(), CheckEnd>
    requires { IfSome x.now (λ y. y.ty.0 < length world.now.table.terms) }
    ensures { Gives (keep 21 at (unit.is_condition (maybe_typed world.now.table.terms x.now))) (seen world.now) result (λ _. tt) (seen world.now) }
{
    keep(21, at, is_condition(world, x))
}
