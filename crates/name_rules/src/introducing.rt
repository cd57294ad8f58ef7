//! Names come into scope (6.2.1, paragraph 7).

ghost use Rattle.std.specs.Prelude.{◌≡◌, ◌<◌, ◌∷◌, length, IfOk, OnOk};
ghost use Rattle.c_types.specs.Table.{type_at};
ghost use Rattle.c_rules.specs.Forms as forms;
ghost use Rattle.c_rules.specs.Unit as unit;
ghost use Rattle.c_rules.specs.Walk as walk;
ghost use Rattle.c_rules.specs.World.{is_listed, with_name};
ghost use Rattle.c_world.specs.Extends.{Extends};
ghost use Rattle.c_world.specs.Seen.{seen};
ghost use Rattle.name_rules.specs.Introducing.{function_added, introduced, named, named_once};

use crate::declared::Declared;
use crate::library::function_binding;
use c_rules::{Binding, Declares, Sort};
use c_tree::At;
use c_types::{Term, TypeId};
use c_world::World;
use std::alloc::Global;
use tok_base::{Bytes, NoMemory};

fn copied(alloc: Global, name: &[u8]) -> Result<Bytes, NoMemory>
    ensures { IfOk result (λ n. n ≡ name.now) }
{
    let copy = Bytes::from_slice(alloc, name)?;
    Ok(copy)
}

/// A typedef name.
fn new_alias(world: &mut World, alloc: Global, name: &[u8], ty: TypeId) -> Result<(), NoMemory>
    requires { ty.0 < length world.old.table.terms }
    ensures seen { OnOk result (seen world.new ≡ unit.new_alias name.now (type_at world.old.table.terms ty.0) (seen world.old)) }
    ensures extends { OnOk result (Extends world.old.table world.new.table) }
{
    let spelled = copied(alloc, name)?;
    let named = world.make(Term::Named(spelled, ty))?;
    let key = copied(alloc, name)?;
    world.declare(key, Sort::Alias, named)
}

/// An object or a parameter.
pub(crate) fn new_object(
    world: &mut World,
    alloc: Global,
    number: u32,
    at: At,
    name: &[u8],
    ty: TypeId,
    is_fixed: bool,
) -> Result<(), NoMemory>
    requires { ty.0 < length world.old.table.terms }
    ensures seen { OnOk result (seen world.new ≡ walk.new_object number at name.now (type_at world.old.table.terms ty.0) is_fixed (seen world.old)) }
    ensures same { OnOk result (world.new.table ≡ world.old.table) }
{
    note_other(world, alloc, name)?;
    world.note_object(number, ty, is_fixed);
    declare(world, alloc, name, Sort::Object(number, is_fixed), ty)?;
    world.note_binding(at.id, Binding::Object(number));
    Ok(())
}

pub(crate) fn note_other(world: &mut World, alloc: Global, name: &[u8]) -> Result<(), NoMemory>
    ensures seen { OnOk result (seen world.new ≡ record (seen world.old) { others = name.now ∷ (seen world.old).others }) }
    ensures same { world.new.table ≡ world.old.table }
{
    let copy = copied(alloc, name)?;
    world.note_other(copy)
}

pub(crate) fn declare(
    world: &mut World,
    alloc: Global,
    name: &[u8],
    sort: Sort,
    ty: TypeId,
) -> Result<(), NoMemory>
    requires { ty.0 < length world.old.table.terms }
    ensures seen { OnOk result (seen world.new ≡ with_name name.now sort (type_at world.old.table.terms ty.0) (seen world.old)) }
    ensures same { world.new.table ≡ world.old.table }
{
    let copy = copied(alloc, name)?;
    world.declare(copy, sort, ty)
}

/// A function, by whether the unit has a body for it.
fn new_function(
    world: &mut World,
    alloc: Global,
    has_body: bool,
    name: &[u8],
    ty: TypeId,
) -> Result<(), NoMemory>
    requires { ty.0 < length world.old.table.terms }
    ensures seen { OnOk result (seen world.new ≡ function_added has_body name.now (type_at world.old.table.terms ty.0) (seen world.old)) }
    ensures same { OnOk result (world.new.table ≡ world.old.table) }
{
    let number = world.next_function()?;
    let copy = copied(alloc, name)?;
    world.add_function(copy, ty, has_body)?;
    note_other(world, alloc, name)?;
    declare(world, alloc, name, Sort::Function(number), ty)
}

/// What is declared, unless file scope has it.
fn named(world: &mut World, alloc: Global, declared: &Declared, ty: TypeId) -> Result<(), NoMemory>
    requires { ty.0 < length world.old.table.terms }
    ensures seen { OnOk result (seen world.new ≡ named declared.now (type_at world.old.table.terms ty.0) (seen world.old)) }
    ensures extends { OnOk result (Extends world.old.table world.new.table) }
{
    match declared.what {
        Declares::Type => new_alias(world, alloc, declared.name, ty),
        Declares::Object => new_object(
            world,
            alloc,
            declared.number,
            declared.at,
            declared.name,
            ty,
            declared.is_fixed,
        ),
        Declares::Function => { new_function(world, alloc, declared.has_body, declared.name, ty) }
        Declares::Member => Ok(()),
    }
}

/// Whether file scope declares the name again.
pub fn is_again(world: &World, name: &[u8]) -> bool
    ensures { result ≡ unit.is_again (seen world.now) name.now }
{
    world.is_file_scope() && world.find(name).is_some()
}

fn named_once(
    world: &mut World,
    alloc: Global,
    declared: &Declared,
    ty: TypeId,
) -> Result<(), NoMemory>
    requires { ty.0 < length world.old.table.terms }
    ensures seen { OnOk result (seen world.new ≡ named_once declared.now (type_at world.old.table.terms ty.0) (seen world.old)) }
    ensures extends { OnOk result (Extends world.old.table world.new.table) }
{
    if is_again(world, declared.name) {
        Ok(())
    } else {
        named(world, alloc, declared, ty)
    }
}

/// What a sort of names is bound to.
fn bound(has_body: bool, name: &[u8], sort: Sort) -> Option<Binding>
    ensures { (whole : forms.Whole) → is_listed name.now whole.bodies ≡ has_body → result ≡ forms.bound whole name.now sort }
{
    match sort {
        Sort::Object(number, _) => Some(Binding::Object(number)),
        Sort::Function(number) => Some(function_binding(has_body, name, number)),
        Sort::Enumerator(value) => Some(Binding::Enumerator(value)),
        Sort::Alias => None,
    }
}

/// What the declared name is bound to is noted.
fn note_entry(world: &mut World, declared: &Declared)
    ensures seen { (whole : forms.Whole) → is_listed declared.now.name.now whole.bodies ≡ declared.now.has_body → seen world.new ≡ unit.note_entry whole declared.now.at declared.now.name.now (walk.newest (seen world.old) declared.now.name.now) (seen world.old) }
    ensures same { world.new.table ≡ world.old.table }
{
    if let Some(found) = world.find(declared.name) {
        note_bound(
            world,
            declared.at,
            bound(declared.has_body, declared.name, found.sort),
        );
    }
}

fn note_bound(world: &mut World, at: At, binding: Option<Binding>)
    ensures seen { seen world.new ≡ forms.note_bound at.id binding (seen world.old) }
    ensures same { world.new.table ≡ world.old.table }
{
    if let Some(binding) = binding {
        world.note_binding(at.id, binding);
    }
}

/// A body or an initialiser at file scope is noted.
fn complete(world: &mut World, alloc: Global, completes: bool, name: &[u8]) -> Result<(), NoMemory>
    ensures seen { OnOk result (seen world.new ≡ unit.complete completes name.now (seen world.old)) }
    ensures same { world.new.table ≡ world.old.table }
{
    if completes && world.is_file_scope() {
        let copy = copied(alloc, name)?;
        world.note_completed(copy)
    } else {
        Ok(())
    }
}

/// The name is in scope from here on.
pub fn introduce(
    world: &mut World,
    alloc: Global,
    declared: &Declared,
    ty: TypeId,
) -> Result<(), NoMemory>
    requires { ty.0 < length world.old.table.terms }
    ensures seen { OnOk result ((whole : forms.Whole) → is_listed declared.now.name.now whole.bodies ≡ declared.now.has_body → seen world.new ≡ introduced whole declared.now (type_at world.old.table.terms ty.0) (seen world.old)) }
    ensures extends { OnOk result (Extends world.old.table world.new.table) }
{
    world.note_type(declared.at.id, ty);
    named_once(world, alloc, declared, ty)?;
    note_entry(world, declared);
    complete(world, alloc, declared.completes, declared.name)
}
