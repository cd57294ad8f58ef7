//! The type of a parameter as it is used (6.7.6.3, paragraphs 7 and 8).

ghost use Rattle.std.specs.Prelude.{◌≡◌, ◌<◌, true, false, length, IfOk};
ghost use Rattle.c_types.specs.CTypes as c;
ghost use Rattle.c_types.specs.Canonical as canonical;
ghost use Rattle.c_types.specs.Table.{type_at};
ghost use Rattle.c_rules.specs.Declarators as rules;
ghost use Rattle.c_rules.specs.Types as types;
ghost use Rattle.c_rules.specs.Walk.{used};
ghost use Rattle.c_world.specs.Extends.{Extends};
ghost use Rattle.c_world.specs.Seen.{seen};
ghost use Rattle.declarator_rules.specs.declared.built.Built.TheVariants as v;
ghost use Rattle.declarator_rules.specs.Layers.{LayersBelow, layers_of};
ghost use Rattle.declarator_rules.specs.Built.{BuiltBelow, IsBuilt, made_of};
ghost use Rattle.declarator_rules.specs.Used.{decayed_by};

use crate::built::{Built, Made, Oversized};
use crate::layering::build;
use crate::layers::Layer;
use crate::making::{make_pointer, with_qualifiers};
use c_types::{Term, TypeId};
use c_world::World;
use std::alloc::Global;
use tok_base::NoMemory;

/// The pointer to a type with these qualifiers.
fn pointer_to(world: &mut World, qualifiers: u8, id: TypeId) -> Result<TypeId, NoMemory>
    requires small { qualifiers < 8 }
    requires valid { id.0 < length world.old.table.terms }
    ensures seen { seen world.new ≡ seen world.old }
    ensures extends { Extends world.old.table world.new.table }
    ensures is { IfOk result (λ r. type_at world.new.table.terms r.0 ≡ c.Pointer (canonical.with_qualifiers qualifiers (type_at world.old.table.terms id.0))) }
    ensures valid { IfOk result (λ r. r.0 < length world.new.table.terms) }
{
    let to = with_qualifiers(world, qualifiers, id)?;
    let r = world.make(Term::Pointer(to))?;
    Ok(r)
}

/// A type as a value has it, by its plain type and the qualifiers on the way to it.
fn decayed_by(
    world: &mut World,
    whole: TypeId,
    plain: TypeId,
    qualifiers: u8,
) -> Result<TypeId, NoMemory>
    requires whole { whole.0 < length world.old.table.terms }
    requires plain { plain.0 < length world.old.table.terms }
    requires small { qualifiers < 8 }
    ensures seen { seen world.new ≡ seen world.old }
    ensures extends { Extends world.old.table world.new.table }
    ensures is { IfOk result (λ r. type_at world.new.table.terms r.0 ≡ decayed_by (type_at world.old.table.terms whole.0) (type_at world.old.table.terms plain.0) qualifiers) }
    ensures valid { IfOk result (λ r. r.0 < length world.new.table.terms) }
{
    match world.term(plain) {
        Term::Array(element, _) => {
            let element = *element;
            pointer_to(world, qualifiers, element)
        }
        Term::Flexible(element) => {
            let element = *element;
            pointer_to(world, qualifiers, element)
        }
        Term::Function(_, _) => world.make(Term::Pointer(whole)),
        _ => Ok(whole),
    }
}

/// The type of a value as written: an array becomes the pointer to its first element, a function the
/// pointer to it (6.3.2.1).
#[tactic(auto, using(crate::proofs::Decay::decayed_is))]
fn decayed(world: &mut World, id: TypeId) -> Result<TypeId, NoMemory>
    requires { id.0 < length world.old.table.terms }
    ensures seen { seen world.new ≡ seen world.old }
    ensures extends { Extends world.old.table world.new.table }
    ensures is { IfOk result (λ r. type_at world.new.table.terms r.0 ≡ types.decayed (type_at world.old.table.terms id.0)) }
    ensures valid { IfOk result (λ r. r.0 < length world.new.table.terms) }
{
    let plain = world.plain(id);
    let qualifiers = world.qualifiers_met(id);
    let r = decayed_by(world, id, plain, qualifiers)?;
    Ok(r)
}

fn used_made(world: &mut World, made: Made) -> Result<Built, NoMemory>
    requires { made.ty.0 < length world.old.table.terms }
    ensures seen { seen world.new ≡ seen world.old }
    ensures extends { Extends world.old.table world.new.table }
    ensures is { IfOk result (λ r. IsBuilt (seen world.new) world.new.table.terms r (used (made_of world.old.table.terms made))) }
    ensures valid { IfOk result (λ r. BuiltBelow (length world.new.table.terms) r) }
{
    let ty = decayed(world, made.ty)?;
    Ok(Built::Made(Made { ty, ..made }))
}

/// What the layers of a parameter's declarator make of a base type, as it is used.
pub fn build_used(
    world: &mut World,
    alloc: Global,
    base: TypeId,
    layers: &[Layer],
) -> Result<Built, NoMemory>
    requires base { base.0 < length world.old.table.terms }
    requires layers { LayersBelow (length world.old.table.terms) layers.now }
    ensures seen { seen world.new ≡ seen world.old }
    ensures extends { Extends world.old.table world.new.table }
    ensures is { IfOk result (λ r. IsBuilt (seen world.new) world.new.table.terms r (used (rules.built (seen world.old) (type_at world.old.table.terms base.0) (layers_of world.old.table.terms layers.now)))) }
    ensures valid { IfOk result (λ r. BuiltBelow (length world.new.table.terms) r) }
{
    let built = build(world, alloc, base, layers)?;
    match built {
        Built::Made(made) => used_made(world, made),
        Built::Incomplete => Ok(Built::Incomplete),
        Built::Oversized(_) => Ok(used_oversized()),
    }
}

/// What is oversized is used as a pointer.
fn used_oversized() -> Built
    ensures { result ≡ v.Oversized (record { has_size = true; is_flexible = false }) }
{
    Built::Oversized(Oversized {
        has_size: true,
        is_flexible: false,
    })
}
