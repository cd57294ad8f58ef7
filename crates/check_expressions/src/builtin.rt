//! The allocation size that the compiler infers, `__builtin_infer_alloc_token`.

ghost use Rattle.std.specs.Prelude.{◌≡◌, ◌<◌, length, IfOk, OnOk};
ghost use Rattle.c_world.specs.Extends.{Extends};
ghost use Rattle.c_world.specs.Seen.{seen, Gives};
ghost use Rattle.expression_rules.specs.Steps as steps;
ghost use Rattle.expression_rules.specs.Typed.{typed_of};

use crate::noting::done_int;
use c_tree::At;
use c_world::{CheckEnd, World, keep};
use constant_values::Constant;
use expression_rules::Typed;
use num_ops::IntKind;

/// The builtin, by whether it stands in an integer constant expression or in the initialiser of a static
/// object, and whether its arguments hold the body of a struct, union or enumeration: rule 36.
pub fn judge_builtin(
    world: &mut World,
    at: At,
    fixed: bool,
    has_body: bool,
) -> Result<Typed, CheckEnd>
    ensures gives { Gives (steps.judge_unfixed fixed has_body at) (seen world.old) result (typed_of world.new.table.terms) (seen world.new) }
    ensures extends { OnOk result (Extends world.old.table world.new.table) }
    ensures valid { IfOk result (λ r. r.ty.0 < length world.new.table.terms) }
{
    match done_int(world, at, IntKind::ULong, Constant::varies()) {
        Err(end) => Err(end),
        Ok(r) => {
            keep(36, at, is_allowed(fixed, has_body))?;
            Ok(r)
        }
    }
}

fn is_allowed(fixed: bool, has_body: bool) -> bool
    ensures { result ≡ steps.is_unfixed fixed has_body }
{
    !fixed && !has_body
}
