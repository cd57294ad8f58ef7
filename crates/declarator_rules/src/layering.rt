//! The layers of a declarator, applied to a type from the farthest of the name on (6.7.6, paragraph 5).

ghost use Rattle.std.specs.Prelude.{◌≡◌, ◌<◌, ◌&&◌, [], length, not, false, IfOk};
ghost use Rattle.c_types.specs.Table.{type_at, AllBelow};
ghost use Rattle.c_rules.specs.Declarators as rules;
ghost use Rattle.c_rules.specs.Types as types;
ghost use Rattle.c_world.specs.Extends.{Extends};
ghost use Rattle.c_world.specs.Seen.{seen};
ghost use Rattle.declarator_rules.specs.declared.built.Built.TheVariants as v;
ghost use Rattle.declarator_rules.specs.Built.{BuiltBelow, IsBuilt, made_of};
ghost use Rattle.declarator_rules.specs.Layering.{LayersTo, around};
ghost use Rattle.declarator_rules.specs.Layers.{LayerBelow, LayersBelow, all_types, layer_of, layers_of};

use crate::arrays::{array_made, unsized_made};
use crate::built::{Built, Made, Oversized};
use crate::layers::Layer;
use crate::making::{make_function, make_pointer};
use c_types::{Term, TypeId};
use c_world::World;
use constant_values::Constant;
use std::alloc::Global;
use tok_base::NoMemory;

/// What stands around something oversized.
fn oversized(has_size: bool, is_flexible: bool) -> Built
    ensures { result ≡ v.Oversized (record { has_size = has_size; is_flexible = is_flexible }) }
{
    Built::Oversized(Oversized {
        has_size,
        is_flexible,
    })
}

fn pointer_made(world: &mut World, qualifiers: u8, to: Made) -> Result<Built, NoMemory>
    requires small { qualifiers < 8 }
    requires valid { to.ty.0 < length world.old.table.terms }
    ensures seen { seen world.new ≡ seen world.old }
    ensures extends { Extends world.old.table world.new.table }
    ensures is { IfOk result (λ r. IsBuilt (seen world.new) world.new.table.terms r (rules.layered (seen world.old) (rules.pointer qualifiers) (made_of world.old.table.terms to))) }
    ensures valid { IfOk result (λ r. BuiltBelow (length world.new.table.terms) r) }
{
    let ty = make_pointer(world, qualifiers, to.ty)?;
    Ok(Built::Made(Made { ty, ..to }))
}

/// `*` with qualifiers.
fn pointer_to(world: &mut World, qualifiers: u8, to: Built) -> Result<Built, NoMemory>
    requires small { qualifiers < 8 }
    requires valid { BuiltBelow (length world.old.table.terms) to }
    ensures seen { seen world.new ≡ seen world.old }
    ensures extends { Extends world.old.table world.new.table }
    ensures is { IfOk result (LayersTo (seen world.old) world.old.table.terms world.new.table.terms (rules.pointer qualifiers) to) }
    ensures valid { IfOk result (λ r. BuiltBelow (length world.new.table.terms) r) }
{
    match to {
        Built::Made(made) => pointer_made(world, qualifiers, made),
        Built::Incomplete => Ok(Built::Incomplete),
        Built::Oversized(_) => Ok(oversized(true, false)),
    }
}

/// `[]` with a length.
fn array_of(world: &mut World, count: Constant, element: Built) -> Result<Built, NoMemory>
    requires { BuiltBelow (length world.old.table.terms) element }
    ensures seen { seen world.new ≡ seen world.old }
    ensures extends { Extends world.old.table world.new.table }
    ensures is { IfOk result (LayersTo (seen world.old) world.old.table.terms world.new.table.terms (rules.array count) element) }
    ensures valid { IfOk result (λ r. BuiltBelow (length world.new.table.terms) r) }
{
    match element {
        Built::Made(made) => array_made(world, count, made),
        Built::Incomplete => Ok(Built::Incomplete),
        Built::Oversized(inner) => Ok(array_around(inner, false)),
    }
}

/// `[]` without a length.
fn unsized_of(world: &mut World, element: Built) -> Result<Built, NoMemory>
    requires { BuiltBelow (length world.old.table.terms) element }
    ensures seen { seen world.new ≡ seen world.old }
    ensures extends { Extends world.old.table world.new.table }
    ensures is { IfOk result (LayersTo (seen world.old) world.old.table.terms world.new.table.terms rules.unsized element) }
    ensures valid { IfOk result (λ r. BuiltBelow (length world.new.table.terms) r) }
{
    match element {
        Built::Made(made) => unsized_made(world, made),
        Built::Incomplete => Ok(Built::Incomplete),
        Built::Oversized(inner) => Ok(array_around(inner, true)),
    }
}

/// Brackets around something oversized.
fn array_around(element: Oversized, is_flexible: bool) -> Built
    ensures { result ≡ around element is_flexible }
{
    if element.has_size {
        oversized(!is_flexible, is_flexible)
    } else {
        Built::Incomplete
    }
}

/// 6: whether each of these types is a scalar.
fn all_scalar(world: &World, parameters: &[TypeId]) -> bool
    requires { AllBelow (length world.now.table.terms) parameters.now }
    ensures { result ≡ rules.all_scalar (all_types world.now.table.terms parameters.now) }
{
    for parameter in parameters {
        if !is_scalar(world, world.plain(*parameter)) {
            return false;
        }
    }
    true
}

/// 6: void or a scalar.
fn is_result(world: &World, id: TypeId) -> bool
    requires { id.0 < length world.now.table.terms }
    ensures { result ≡ rules.is_result (type_at world.now.table.terms id.0) }
{
    let plain = world.plain(id);
    is_void(world, plain) || is_scalar(world, plain)
}

fn is_void(world: &World, id: TypeId) -> bool
    requires { id.0 < length world.now.table.terms }
    ensures { result ≡ types.is_void (type_at world.now.table.terms id.0) }
{
    match world.term(id) {
        Term::Void => true,
        _ => false,
    }
}

/// An integer type or a pointer (6.2.5, paragraph 21).
fn is_scalar(world: &World, id: TypeId) -> bool
    requires { id.0 < length world.now.table.terms }
    ensures { result ≡ types.is_scalar (type_at world.now.table.terms id.0) }
{
    match world.term(id) {
        Term::Int(_) => true,
        Term::Enum(_) => true,
        Term::Pointer(_) => true,
        _ => false,
    }
}

#[tactic(auto, using(crate::proofs::Around::types_are))]
fn function_made(
    world: &mut World,
    alloc: Global,
    parameters: &[TypeId],
    returned: Made,
) -> Result<Built, NoMemory>
    requires valid { returned.ty.0 < length world.old.table.terms }
    requires parameters { AllBelow (length world.old.table.terms) parameters.now }
    ensures seen { seen world.new ≡ seen world.old }
    ensures extends { Extends world.old.table world.new.table }
    ensures is { IfOk result (λ r. IsBuilt (seen world.new) world.new.table.terms r (rules.layered (seen world.old) (rules.function (all_types world.old.table.terms parameters.now) []) (made_of world.old.table.terms returned))) }
    ensures valid { IfOk result (λ r. BuiltBelow (length world.new.table.terms) r) }
{
    let is_callable = keeps_call(world, parameters, returned);
    let ty = make_function(world, alloc, returned.ty, parameters)?;
    Ok(Built::Made(Made {
        ty,
        is_callable,
        is_closed: returned.is_closed,
    }))
}

/// Whether a function with these parameters and this result keeps rule 6.
fn keeps_call(world: &World, parameters: &[TypeId], returned: Made) -> bool
    requires valid { returned.ty.0 < length world.now.table.terms }
    requires parameters { AllBelow (length world.now.table.terms) parameters.now }
    ensures { result ≡ (returned.is_callable && rules.is_result (type_at world.now.table.terms returned.ty.0) && rules.all_scalar (all_types world.now.table.terms parameters.now)) }
{
    returned.is_callable && is_result(world, returned.ty) && all_scalar(world, parameters)
}

/// `()` with the types of parameters.
fn function_of(
    world: &mut World,
    alloc: Global,
    parameters: &[TypeId],
    returned: Built,
) -> Result<Built, NoMemory>
    requires valid { BuiltBelow (length world.old.table.terms) returned }
    requires parameters { AllBelow (length world.old.table.terms) parameters.now }
    ensures seen { seen world.new ≡ seen world.old }
    ensures extends { Extends world.old.table world.new.table }
    ensures is { IfOk result (LayersTo (seen world.old) world.old.table.terms world.new.table.terms (rules.function (all_types world.old.table.terms parameters.now) []) returned) }
    ensures valid { IfOk result (λ r. BuiltBelow (length world.new.table.terms) r) }
{
    match returned {
        Built::Made(made) => function_made(world, alloc, parameters, made),
        Built::Incomplete => Ok(Built::Incomplete),
        Built::Oversized(_) => Ok(oversized(false, false)),
    }
}

/// One layer around what the layers farther from the name make.
fn layered(world: &mut World, alloc: Global, layer: &Layer, inner: Built) -> Result<Built, NoMemory>
    requires valid { BuiltBelow (length world.old.table.terms) inner }
    requires layer { LayerBelow (length world.old.table.terms) layer.now }
    ensures seen { seen world.new ≡ seen world.old }
    ensures extends { Extends world.old.table world.new.table }
    ensures is { IfOk result (LayersTo (seen world.old) world.old.table.terms world.new.table.terms (layer_of world.old.table.terms layer.now) inner) }
    ensures valid { IfOk result (λ r. BuiltBelow (length world.new.table.terms) r) }
{
    match layer {
        Layer::Pointer(qualifiers) => pointer_to(world, *qualifiers, inner),
        Layer::Array(count) => array_of(world, *count, inner),
        Layer::Unsized => unsized_of(world, inner),
        Layer::Function(parameters, _) => function_of(world, alloc, parameters.as_slice(), inner),
    }
}

/// What the layers of a declarator make of a base type.
pub fn build(
    world: &mut World,
    alloc: Global,
    base: TypeId,
    layers: &[Layer],
) -> Result<Built, NoMemory>
    requires base { base.0 < length world.old.table.terms }
    requires layers { LayersBelow (length world.old.table.terms) layers.now }
    ensures seen { seen world.new ≡ seen world.old }
    ensures extends { Extends world.old.table world.new.table }
    ensures is { IfOk result (λ r. IsBuilt (seen world.new) world.new.table.terms r (rules.built (seen world.old) (type_at world.old.table.terms base.0) (layers_of world.old.table.terms layers.now))) }
    ensures valid { IfOk result (λ r. BuiltBelow (length world.new.table.terms) r) }
{
    match layers.split_first() {
        None => Ok(Built::Made(Made {
            ty: base,
            is_callable: true,
            is_closed: true,
        })),
        Some((layer, more)) => {
            let inner = build(world, alloc, base, more)?;
            let r = layered(world, alloc, layer, inner)?;
            Ok(r)
        }
    }
}
