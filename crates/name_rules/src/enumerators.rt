//! Enumerators: rules 2 and 8 (6.7.2.2).

ghost use Rattle.std.specs.Prelude.{◌≡◌, ◌<◌, length, pos, true, false, OnOk};
ghost use Rattle.num_ops.specs.declared.kinds.IntKind.TheVariants as kind;
ghost use Rattle.c_types.specs.CTypes as c;
ghost use Rattle.c_types.specs.Table.{type_at};
ghost use Rattle.c_rules.specs.Names as names;
ghost use Rattle.c_rules.specs.Walk as walk;
ghost use Rattle.c_rules.specs.declared.known.Sort.TheVariants as sort;
ghost use Rattle.c_world.specs.Extends.{Extends};
ghost use Rattle.c_world.specs.Seen.{seen, Gives};

use crate::introducing::{declare, note_other};
use crate::names::may_be_named;
use c_rules::Sort;
use c_tree::At;
use c_types::{Term, TypeId};
use c_world::{CheckEnd, World, keep};
use constant_values::Constant;
use num_ops::IntKind;
use std::alloc::Global;
use tok_base::NoMemory;

/// The enumerator of a value comes into scope.
fn new_enumerator(world: &mut World, alloc: Global, name: &[u8], value: i32) -> Result<(), NoMemory>
    ensures seen { OnOk result (seen world.new ≡ walk.new_enumerator name.now value (seen world.old)) }
    ensures extends { OnOk result (Extends world.old.table world.new.table) }
{
    let ty = world.make(Term::Int(IntKind::Int))?;
    note_other(world, alloc, name)?;
    declare(world, alloc, name, Sort::Enumerator(value), ty)
}

/// An enumerator of a value, or of the next one where it has none: 2 and 8; gives the value that the next one
/// would have.
pub fn judge_enumerator(
    world: &mut World,
    alloc: Global,
    at: At,
    name: &[u8],
    next: i128,
    value: Constant,
) -> Result<i128, CheckEnd>
    ensures gives { Gives (walk.judge_enumerator at name.now next value) (seen world.old) result (λ z. z) (seen world.new) }
    ensures extends { OnOk result (Extends world.old.table world.new.table) }
{
    let int = world.make(Term::Int(IntKind::Int))?;
    keep(2, at, may_be_enumerator(world, name, int))?;
    match value.as_int() {
        None => Err(CheckEnd::Rule(8, at)),
        Some(value) => {
            new_enumerator(world, alloc, name, value)?;
            Ok(value as i128 + 1)
        }
    }
}

/// 2: whether a name may be declared as an enumerator.
fn may_be_enumerator(world: &World, name: &[u8], int: TypeId) -> bool
    requires valid { int.0 < length world.now.table.terms }
    requires int { type_at world.now.table.terms int.0 ≡ c.Int kind.Int }
    ensures { result ≡ names.may_be_named (seen world.now) name.now (sort.Enumerator (pos 0)) (c.Int kind.Int) true false }
{
    may_be_named(world, name, Sort::Enumerator(0), Some(int), false)
}
