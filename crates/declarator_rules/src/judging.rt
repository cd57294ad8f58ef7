//! Rules 4, 5, 6 and 8, tried at the outermost node of a declarator.

ghost use Rattle.std.specs.Prelude.{◌≡◌, ◌<◌, List, length, Err, IfOk, OnOk};
ghost use Rattle.c_types.specs.CTypes as c;
ghost use Rattle.c_types.specs.Plain as plain;
ghost use Rattle.c_types.specs.Table.{type_at};
ghost use Rattle.c_types.specs.declared.terms.Term.{Term as TypeTerm};
ghost use Rattle.c_types.specs.declared.terms.TypeId.{TypeId as TypeNumber};
ghost use Rattle.c_rules.specs.Declarators as rules;
ghost use Rattle.c_rules.specs.Unit as unit;
ghost use Rattle.c_rules.specs.Walk as walk;
ghost use Rattle.c_rules.specs.World.{World as Known};
ghost use Rattle.c_world.specs.Extends.{Extends};
ghost use Rattle.c_world.specs.Seen.{seen, Gives};
ghost use Rattle.declarator_rules.specs.Built.{BuiltBelow, IsBuilt, IsOversized, judged_type, made_of};
ghost use Rattle.declarator_rules.specs.Layers.{LayersBelow, laid_of, layer_of, layers_of};

use crate::built::{Built, Made, Oversized};
use crate::layering::build;
use crate::layers::{Laid, Layer};
use crate::members::is_flexible;
use c_rules::Declares;
use c_tree::At;
use c_types::{Term, TypeId};
use c_world::{CheckEnd, World, keep};
use std::alloc::Global;

/// 4: whether something may be declared with a type that is made.
fn made_may_be_declared(world: &World, what: Declares, made: Made) -> bool
    requires { made.ty.0 < length world.now.table.terms }
    ensures { result ≡ rules.may_be_declared (seen world.now) what (made_of world.now.table.terms made) }
{
    match what {
        Declares::Type => true,
        Declares::Function => true,
        Declares::Object => world.is_complete(made.ty),
        Declares::Member => world.is_complete(made.ty) || is_flexible(world, made.ty),
    }
}

/// 4, where rule 5 is broken.
fn oversized_may_be_declared(what: Declares, oversized: Oversized) -> bool
    ensures { (w : Known) (b : rules.Built) → IsOversized w oversized b → result ≡ rules.may_be_declared w what b }
{
    match what {
        Declares::Type => true,
        Declares::Function => true,
        Declares::Object => oversized.has_size,
        Declares::Member => oversized.has_size || oversized.is_flexible,
    }
}

fn judge_made(world: &World, at: At, what: Declares, made: Made) -> Result<TypeId, CheckEnd>
    requires { made.ty.0 < length world.now.table.terms }
    ensures gives { Gives (judged_type at what (made_of world.now.table.terms made)) (seen world.now) result (λ r. type_at world.now.table.terms r.0) (seen world.now) }
    ensures valid { IfOk result (λ r. r.0 < length world.now.table.terms) }
{
    keep(4, at, made_may_be_declared(world, what, made))?;
    keep(6, at, made.is_callable)?;
    keep(8, at, made.is_closed)?;
    Ok(made.ty)
}

/// The rule that a declarator breaks which breaks rule 5: that, or 4.
fn oversized_end(at: At, what: Declares, oversized: Oversized) -> CheckEnd
    ensures { (w : Known) (b : rules.Built) → IsOversized w oversized b → Gives {B = TypeNumber} (judged_type at what b) w (Err result) (λ r. b.type) w }
{
    if oversized_may_be_declared(what, oversized) {
        CheckEnd::Rule(5, at)
    } else {
        CheckEnd::Rule(4, at)
    }
}

/// 4, 5, 6 and 8 at the outermost node of a declarator; the type, which is made where it keeps 4 and 5.
pub fn judge_built(world: &World, at: At, what: Declares, built: Built) -> Result<TypeId, CheckEnd>
    requires { BuiltBelow (length world.now.table.terms) built }
    ensures gives { (b : rules.Built) → IsBuilt (seen world.now) world.now.table.terms built b → Gives (judged_type at what b) (seen world.now) result (λ r. type_at world.now.table.terms r.0) (seen world.now) }
    ensures valid { IfOk result (λ r. r.0 < length world.now.table.terms) }
{
    match built {
        Built::Made(made) => judge_made(world, at, what, made),
        Built::Incomplete => Err(CheckEnd::Rule(4, at)),
        Built::Oversized(oversized) => Err(oversized_end(at, what, oversized)),
    }
}

/// The absent name of an abstract declarator has a type too.
pub fn note_nameless(world: &mut World, laid: &Laid, ty: TypeId)
    requires { ty.0 < length world.old.table.terms }
    ensures seen { seen world.new ≡ walk.note_nameless (laid_of world.old.table.terms laid.now) (type_at world.old.table.terms ty.0) (seen world.old) }
    ensures same { world.new.table ≡ world.old.table }
{
    match laid.layers.as_slice() {
        [] => {}
        [_, ..] => world.note_type(laid.name_at.id, ty),
    }
}

/// The type of a type name.
pub fn judge_type(
    world: &mut World,
    alloc: Global,
    at: At,
    base: TypeId,
    laid: &Laid,
) -> Result<TypeId, CheckEnd>
    requires base { base.0 < length world.old.table.terms }
    requires layers { LayersBelow (length world.old.table.terms) laid.now.layers }
    ensures gives { Gives (walk.judge_type at (type_at world.old.table.terms base.0) (laid_of world.old.table.terms laid.now)) (seen world.old) result (λ r. type_at world.new.table.terms r.0) (seen world.new) }
    ensures extends { OnOk result (Extends world.old.table world.new.table) }
    ensures valid { IfOk result (λ r. r.0 < length world.new.table.terms) }
{
    let built = build(world, alloc, base, laid.layers.as_slice())?;
    match judge_built(world, at, Declares::Type, built) {
        Ok(ty) => {
            note_nameless(world, laid, ty);
            Ok(ty)
        }
        Err(end) => Err(end),
    }
}

/// Whether a declarator declares a function: the layer next to the name is a function's, or there is none
/// and the base type is a function.
pub fn makes_function(world: &World, base: TypeId, layers: &[Layer]) -> bool
    requires { base.0 < length world.now.table.terms }
    ensures { result ≡ rules.makes_function (type_at world.now.table.terms base.0) (layers_of world.now.table.terms layers.now) }
{
    match layers.first() {
        None => is_function(world, world.plain(base)),
        Some(layer) => is_function_layer(layer),
    }
}

fn is_function_layer(layer: &Layer) -> bool
    ensures { (ts : List TypeTerm) → result ≡ rules.is_function_layer (layer_of ts layer.now) }
{
    match layer {
        Layer::Function(_, _) => true,
        _ => false,
    }
}

fn is_function(world: &World, id: TypeId) -> bool
    requires { id.0 < length world.now.table.terms }
    ensures { result ≡ plain.is_function (type_at world.now.table.terms id.0) }
{
    match world.term(id) {
        Term::Function(_, _) => true,
        _ => false,
    }
}

/// What a declaration's declarator declares.
pub fn declares(world: &World, is_typedef: bool, base: TypeId, layers: &[Layer]) -> Declares
    requires { base.0 < length world.now.table.terms }
    ensures { result ≡ unit.declares is_typedef (type_at world.now.table.terms base.0) (layers_of world.now.table.terms layers.now) }
{
    if is_typedef {
        Declares::Type
    } else if makes_function(world, base, layers) {
        Declares::Function
    } else {
        Declares::Object
    }
}
