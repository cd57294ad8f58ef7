//! An array whose length its initialiser gives (6.7.9, paragraph 22).

ghost use Rattle.std.specs.Prelude.{◌≡◌, ◌<◌, List, Some, true, false, All, length, IfOk, IfSome, OnOk};
ghost use Rattle.c_types.specs.CTypes as c;
ghost use Rattle.c_types.specs.Records.{limit};
ghost use Rattle.c_types.specs.Table.{type_at};
ghost use Rattle.c_rules.specs.Declarators as rules;
ghost use Rattle.c_rules.specs.Unit as unit;
ghost use Rattle.c_rules.specs.World.{size_in};
ghost use Rattle.c_world.specs.Extends.{Extends};
ghost use Rattle.c_world.specs.Seen.{seen};
ghost use Rattle.declarator_rules.specs.Built.{BuiltBelow, IsBuilt, made_of};
ghost use Rattle.declarator_rules.specs.Lengths.{FitsLength, IsAround, IsUnwrapped, qualified, wrapped};
ghost use Rattle.declarator_rules.specs.declared.built.Built.TheVariants as v;

use crate::arrays::stays_below;
use crate::built::{Built, Made, Oversized};
use crate::making::make_array;
use c_types::{Term, TypeId};
use c_world::World;
use std::alloc::Global;
use tok_base::{Items, NoMemory};

/// What a typedef name or qualifiers stand around.
#[derive(Clone, Copy)]
struct Inner {
    /// The qualifiers; a name has none.
    qualifiers: Option<u8>,
    ty: TypeId,
}

/// An array type without its length: the qualifiers around it, the outermost first, and the array itself.
#[derive(Drop)]
struct Unwrapped {
    qualifiers: Items<u8>,
    array: TypeId,
}

/// What the type stands around, if it is a typedef name or qualified.
fn behind(world: &World, id: TypeId) -> Option<Inner>
    requires { id.0 < length world.now.table.terms }
    ensures around { IfSome result (λ x. IsAround (type_at world.now.table.terms id.0) x.qualifiers (type_at world.now.table.terms x.ty.0)) }
    ensures before { IfSome result (λ x. x.ty.0 < id.0) }
    ensures small { IfSome result (λ x. IfSome x.qualifiers (λ q. q < 8)) }
{
    match world.term(id) {
        Term::Named(_, ty) => Some(Inner {
            qualifiers: None,
            ty: *ty,
        }),
        Term::Qualified(qualifiers, ty) => Some(Inner {
            qualifiers: Some(*qualifiers),
            ty: *ty,
        }),
        _ => None,
    }
}

/// One more among the qualifiers.
#[tactic(auto, using(crate::proofs::Wrapping::wrapped_more))]
fn put(qualifiers: &mut Items<u8>, more: Option<u8>) -> Result<(), NoMemory>
    requires all { All (λ q. q < 8) qualifiers.old }
    requires one { IfSome more (λ q. q < 8) }
    ensures is { OnOk result ((t : c.CType) → wrapped qualifiers.new t ≡ wrapped qualifiers.old (qualified more t)) }
    ensures small { OnOk result (All (λ q. q < 8) qualifiers.new) }
{
    match more {
        None => Ok(()),
        Some(more) => {
            qualifiers.push(more)?;
            Ok(())
        }
    }
}

/// The qualifiers around an array without a length, and the array behind them and typedef names.
fn unwrap(world: &World, alloc: Global, ty: TypeId) -> Result<Unwrapped, NoMemory>
    requires { ty.0 < length world.now.table.terms }
    ensures is { IfOk result (λ u. IsUnwrapped (type_at world.now.table.terms ty.0) u.qualifiers (type_at world.now.table.terms u.array.0)) }
    ensures small { IfOk result (λ u. All (λ q. q < 8) u.qualifiers) }
    ensures valid { IfOk result (λ u. u.array.0 < length world.now.table.terms) }
{
    let mut qualifiers = Items::new(alloc);
    let mut array = ty;
    while let Some(inner) = behind(world, array) {
        match put(&mut qualifiers, inner.qualifiers) {
            Ok(()) => array = inner.ty,
            Err(end) => return Err(end),
        }
    }
    Ok(Unwrapped { qualifiers, array })
}

/// These qualifiers around a type, the outermost first.
#[tactic(auto, using(crate::proofs::Wrapping::wrapped_more))]
fn wrap(world: &mut World, mut qualifiers: Items<u8>, inner: TypeId) -> Result<TypeId, NoMemory>
    requires valid { inner.0 < length world.old.table.terms }
    requires small { All (λ q. q < 8) qualifiers }
    ensures seen { seen world.new ≡ seen world.old }
    ensures extends { Extends world.old.table world.new.table }
    ensures is { IfOk result (λ r. type_at world.new.table.terms r.0 ≡ wrapped qualifiers (type_at world.old.table.terms inner.0)) }
    ensures valid { IfOk result (λ r. r.0 < length world.new.table.terms) }
{
    let mut ty = inner;
    while let Some(outer) = qualifiers.pop() {
        match world.make(Term::Qualified(outer, ty)) {
            Ok(around) => ty = around,
            Err(end) => return Err(end),
        }
    }
    Ok(ty)
}

/// The elements of an array without a length.
fn unsized_element(world: &World, id: TypeId) -> Option<TypeId>
    requires { id.0 < length world.now.table.terms }
    ensures is { IfSome result (λ e. type_at world.now.table.terms id.0 ≡ c.Flexible (type_at world.now.table.terms e.0)) }
    ensures valid { IfSome result (λ e. e.0 < length world.now.table.terms) }
{
    match world.term(id) {
        Term::Flexible(element) => Some(*element),
        _ => None,
    }
}

/// What is made of an array with this length; `size` is that of its elements.
fn array_with(
    world: &mut World,
    count: u64,
    size: u32,
    made: Made,
    qualifiers: Items<u8>,
    element: TypeId,
) -> Result<Built, NoMemory>
    requires valid { element.0 < length world.old.table.terms }
    requires array { IsUnwrapped (type_at world.old.table.terms made.ty.0) qualifiers (c.Flexible (type_at world.old.table.terms element.0)) }
    requires small { All (λ q. q < 8) qualifiers }
    requires size { size_in (seen world.old) (type_at world.old.table.terms element.0) ≡ Some size }
    requires low { size < limit }
    ensures seen { seen world.new ≡ seen world.old }
    ensures extends { Extends world.old.table world.new.table }
    ensures is { IfOk result (λ r. IsBuilt (seen world.new) world.new.table.terms r (unit.sized (seen world.old) (Some count) (made_of world.old.table.terms made))) }
    ensures valid { IfOk result (λ r. BuiltBelow (length world.new.table.terms) r) }
{
    if !stays_below(count, size) {
        return Ok(oversized());
    }
    let array = make_array(world, element, count as u32, size)?;
    let ty = wrap(world, qualifiers, array)?;
    Ok(Built::Made(Made { ty, ..made }))
}

/// What is made of an array whose length breaks rule 5.
fn oversized() -> Built
    ensures { result ≡ v.Oversized (record { has_size = true; is_flexible = false }) }
{
    Built::Oversized(Oversized {
        has_size: true,
        is_flexible: false,
    })
}

/// A type that is made, with this length. A table has no array of elements without a size, so that the two
/// answers of no memory beside want of memory are never given.
fn made_with(world: &mut World, alloc: Global, count: u64, made: Made) -> Result<Built, NoMemory>
    requires { made.ty.0 < length world.old.table.terms }
    ensures seen { seen world.new ≡ seen world.old }
    ensures extends { Extends world.old.table world.new.table }
    ensures is { IfOk result (λ r. IsBuilt (seen world.new) world.new.table.terms r (unit.sized (seen world.old) (Some count) (made_of world.old.table.terms made))) }
    ensures valid { IfOk result (λ r. BuiltBelow (length world.new.table.terms) r) }
{
    let unwrapped = unwrap(world, alloc, made.ty)?;
    match unsized_element(world, unwrapped.array) {
        None => Err(NoMemory),
        Some(element) => match world.size_of(element) {
            None => Err(NoMemory),
            Some(size) => { array_with(world, count, size, made, unwrapped.qualifiers, element) }
        },
    }
}

/// What a declarator makes, with the length that its initialiser gives; an initialiser gives one to an array
/// without a length.
pub fn sized(
    world: &mut World,
    alloc: Global,
    count: Option<u64>,
    built: Built,
) -> Result<Built, NoMemory>
    requires { BuiltBelow (length world.old.table.terms) built }
    ensures seen { seen world.new ≡ seen world.old }
    ensures extends { Extends world.old.table world.new.table }
    ensures is { IfOk result (λ r. (base : c.CType) (ls : List rules.Layer) → IsBuilt (seen world.old) world.old.table.terms built (rules.built (seen world.old) base ls) → FitsLength count (rules.built (seen world.old) base ls).type → IsBuilt (seen world.new) world.new.table.terms r (unit.sized (seen world.old) count (rules.built (seen world.old) base ls))) }
    ensures valid { IfOk result (λ r. BuiltBelow (length world.new.table.terms) r) }
{
    match count {
        None => Ok(built),
        Some(count) => built_with(world, alloc, count, built),
    }
}

fn built_with(world: &mut World, alloc: Global, count: u64, built: Built) -> Result<Built, NoMemory>
    requires { BuiltBelow (length world.old.table.terms) built }
    ensures seen { seen world.new ≡ seen world.old }
    ensures extends { Extends world.old.table world.new.table }
    ensures is { IfOk result (λ r. (base : c.CType) (ls : List rules.Layer) → IsBuilt (seen world.old) world.old.table.terms built (rules.built (seen world.old) base ls) → c.is_flexible (rules.built (seen world.old) base ls).type ≡ true → IsBuilt (seen world.new) world.new.table.terms r (unit.sized (seen world.old) (Some count) (rules.built (seen world.old) base ls))) }
    ensures valid { IfOk result (λ r. BuiltBelow (length world.new.table.terms) r) }
{
    match built {
        Built::Made(made) => made_with(world, alloc, count, made),
        Built::Incomplete => Ok(Built::Incomplete),
        Built::Oversized(_) => Ok(oversized()),
    }
}
