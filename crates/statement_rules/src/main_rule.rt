//! Rule 35: `main` is a function with a body of the type `int (void)` (5.1.2.2.1).

ghost use Rattle.std.specs.Prelude.{◌≡◌, ◌<◌, length, IfOk, IfSome, OnOk, option_map};
ghost use Rattle.num_ops.specs.declared.kinds.IntKind.TheVariants as kind;
ghost use Rattle.c_types.specs.CTypes as c;
ghost use Rattle.c_types.specs.Compatible as compatible;
ghost use Rattle.c_types.specs.Table.{type_at};
ghost use Rattle.c_rules.specs.Unit as unit;
ghost use Rattle.c_rules.specs.World.{Entry, find_name};
ghost use Rattle.c_types.specs.declared.terms.TypeId.{TypeId as TypeNumber};
ghost use Rattle.c_world.specs.Extends.{Extends};
ghost use Rattle.c_world.specs.Seen.{seen, Gives};
ghost use Rattle.statement_rules.specs.Steps as steps;

use c_tree::At;
use c_types::{Term, TypeId};
use c_world::{CheckEnd, World, keep};
use num_ops::IntKind;
use std::alloc::Global;
use tok_base::{Items, NoMemory, Span};

/// The type `int (void)`.
fn main_type(world: &mut World, alloc: Global) -> Result<TypeId, NoMemory>
    ensures seen { seen world.new ≡ seen world.old }
    ensures extends { Extends world.old.table world.new.table }
    ensures is { IfOk result (λ r. type_at world.new.table.terms r.0 ≡ c.Function (c.Int kind.Int) c.no_types) }
    ensures valid { IfOk result (λ r. r.0 < length world.new.table.terms) }
{
    let int = world.make(Term::Int(IntKind::Int))?;
    let r = world.make(Term::Function(int, Items::new(alloc)))?;
    Ok(r)
}

fn is_main_type(world: &mut World, alloc: Global, ty: TypeId) -> Result<bool, NoMemory>
    requires { ty.0 < length world.old.table.terms }
    ensures seen { seen world.new ≡ seen world.old }
    ensures extends { Extends world.old.table world.new.table }
    ensures is { IfOk result (λ b. b ≡ compatible.is_same (type_at world.old.table.terms ty.0) (c.Function (c.Int kind.Int) c.no_types)) }
{
    let wanted = main_type(world, alloc)?;
    Ok(world.same(ty, wanted))
}

/// The type of what the name `main` stands for.
fn main_bound(world: &World) -> Option<TypeId>
    ensures is { option_map (λ (t : TypeNumber). type_at world.now.table.terms t.0) result ≡ option_map (λ (e : Entry). e.type) (find_name unit.main (seen world.now)) }
    ensures valid { IfSome result (λ t. t.0 < length world.now.table.terms) }
{
    match world.find(b"main".as_slice()) {
        Some(bound) => Some(bound.ty),
        None => None,
    }
}

fn is_main_entry(world: &mut World, alloc: Global) -> Result<bool, NoMemory>
    ensures seen { seen world.new ≡ seen world.old }
    ensures extends { Extends world.old.table world.new.table }
    ensures is { IfOk result (λ b. b ≡ unit.is_main_entry (find_name unit.main (seen world.old))) }
{
    match main_bound(world) {
        Some(ty) => is_main_type(world, alloc, ty),
        None => Ok(false),
    }
}

fn main_at(at: Option<At>) -> At
    ensures { result ≡ unit.main_at at }
{
    match at {
        Some(at) => at,
        None => At {
            span: Span { start: 0, end: 0 },
            id: 0,
        },
    }
}

fn judge_main_at(
    world: &mut World,
    alloc: Global,
    at: Option<At>,
    has_body: bool,
) -> Result<(), CheckEnd>
    ensures gives { Gives (steps.judge_main_at at has_body) (seen world.old) result (λ _. tt) (seen world.new) }
    ensures extends { OnOk result (Extends world.old.table world.new.table) }
{
    let is_entry = is_main_entry(world, alloc)?;
    keep(35, main_at(at), has_body && is_entry)
}

/// 35, where a program is wanted, by the first declarator of the name `main` and whether it has a body.
pub fn judge_main(
    world: &mut World,
    alloc: Global,
    need_main: bool,
    at: Option<At>,
    has_body: bool,
) -> Result<(), CheckEnd>
    ensures gives { Gives (steps.judge_main_if need_main at has_body) (seen world.old) result (λ _. tt) (seen world.new) }
    ensures extends { OnOk result (Extends world.old.table world.new.table) }
{
    if need_main {
        judge_main_at(world, alloc, at, has_body)
    } else {
        Ok(())
    }
}
