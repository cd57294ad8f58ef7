//! The block that the parameters of a function share with its body (6.2.1, paragraph 4; 6.9.1).

ghost use Rattle.std.specs.Prelude.{◌≡◌, ◌<◌, ◌∷◌, List, ℕ, length, map, IfOk, OnOk};
ghost use Rattle.c_types.specs.Plain as plain;
ghost use Rattle.c_types.specs.Table.{type_at};
ghost use Rattle.c_types.specs.declared.terms.Term.{Term as TypeTerm};
ghost use Rattle.c_rules.specs.Declarators as rules;
ghost use Rattle.c_rules.specs.Unit as unit;
ghost use Rattle.c_rules.specs.World.{with_name};
ghost use Rattle.c_world.specs.Inner.{NamesBelow};
ghost use Rattle.c_world.specs.Seen.{seen, Gives, entry_of};
ghost use Rattle.declarator_rules.specs.Layers.{LayerBelow, LayersBelow, layer_of, layers_of};
ghost use Rattle.statement_rules.specs.Steps as steps;

use c_types::{Term, TypeId};
use c_world::{CheckEnd, NameEntry, World};
use declarator_rules::{Laid, Layer};
use std::alloc::Global;
use tok_base::{Bytes, NoMemory};

/// The result type of a function type, also behind typedef names and qualifiers; of another type the type
/// behind them.
pub fn result_of(world: &World, ty: TypeId) -> TypeId
    requires { ty.0 < length world.now.table.terms }
    ensures is { type_at world.now.table.terms result.0 ≡ plain.result_of (plain.plain (type_at world.now.table.terms ty.0)) }
    ensures valid { result.0 < length world.now.table.terms }
{
    let plain = world.plain(ty);
    match world.term(plain) {
        Term::Function(returned, _) => *returned,
        _ => plain,
    }
}

fn names_in(layer: &Layer) -> &[NameEntry]
    ensures are { (ts : List TypeTerm) (ls : List rules.Layer) → map (entry_of ts) result.now ≡ unit.names_of (layer_of ts layer.now ∷ ls) }
    ensures below { (n : ℕ) → LayerBelow n layer.now → NamesBelow n result.now }
{
    match layer {
        Layer::Function(_, names) => names.as_slice(),
        _ => &[],
    }
}

/// The names between the parentheses of the function that a declarator declares.
pub fn names_of(laid: &Laid) -> &[NameEntry]
    ensures are { (ts : List TypeTerm) → map (entry_of ts) result.now ≡ unit.names_of (layers_of ts laid.now.layers) }
    ensures below { (n : ℕ) → LayersBelow n laid.now.layers → NamesBelow n result.now }
{
    match laid.layers.as_slice().first() {
        Some(layer) => names_in(layer),
        None => &[],
    }
}

fn declare(world: &mut World, alloc: Global, entry: &NameEntry) -> Result<(), NoMemory>
    requires { entry.now.bound.ty.0 < length world.old.table.terms }
    ensures seen { OnOk result (seen world.new ≡ with_name entry.now.name entry.now.bound.sort (type_at world.old.table.terms entry.now.bound.ty.0) (seen world.old)) }
    ensures same { world.new.table ≡ world.old.table }
{
    let name = Bytes::from_slice(alloc, entry.name.as_slice())?;
    world.declare(name, entry.bound.sort, entry.bound.ty)
}

/// These names come into scope, the last one first.
fn declare_names(world: &mut World, alloc: Global, names: &[NameEntry]) -> Result<(), NoMemory>
    requires { NamesBelow (length world.old.table.terms) names.now }
    ensures seen { OnOk result (seen world.new ≡ unit.with_names (map (entry_of world.old.table.terms) names.now) (seen world.old)) }
    ensures same { world.new.table ≡ world.old.table }
{
    let mut left = names.len();
    while left > 0 {
        left -= 1;
        match declare(world, alloc, &names[left]) {
            Ok(()) => {}
            Err(end) => return Err(end),
        }
    }
    Ok(())
}

/// The function has so many parameters.
#[tactic(auto, using(crate::proofs::Counts::count_is))]
fn begin_locals(world: &mut World, ty: TypeId) -> Result<(), NoMemory>
    requires { ty.0 < length world.old.table.terms }
    ensures seen { OnOk result (seen world.new ≡ unit.begin_locals (plain.count_types (plain.parameters_of (plain.plain (type_at world.old.table.terms ty.0)))) (seen world.old)) }
    ensures same { world.new.table ≡ world.old.table }
{
    let count = world.parameters_of(ty).len();
    match u32::try_from(count) {
        Ok(count) => {
            world.set_locals(count);
            Ok(())
        }
        Err(_) => Err(NoMemory),
    }
}

/// The body of a function of this type begins, with these parameters.
pub fn begin_body(
    world: &mut World,
    alloc: Global,
    ty: TypeId,
    names: &[NameEntry],
) -> Result<(), CheckEnd>
    requires ty { ty.0 < length world.old.table.terms }
    requires names { NamesBelow (length world.old.table.terms) names.now }
    ensures gives { Gives (steps.begin_body (type_at world.old.table.terms ty.0) (map (entry_of world.old.table.terms) names.now)) (seen world.old) result (λ _. tt) (seen world.new) }
    ensures same { world.new.table ≡ world.old.table }
{
    world.enter()?;
    declare_names(world, alloc, names)?;
    begin_locals(world, ty)?;
    Ok(())
}
