//! What a unit has, seen before it is read.

ghost use Rattle.std.specs.Prelude.{◌≡◌, ◌++◌, ◌∷◌, [], List, Option, Some, map, OnOk, IfOk, if◌then◌else◌};
ghost use Rattle.c_tree.specs.Marked as tree;
ghost use Rattle.c_tree.specs.Text.{same_text};
ghost use Rattle.c_tree.specs.View.{view_declarator, view_external, view_item};
ghost use Rattle.c_rules.specs.Unit as rules;
ghost use Rattle.c_rules.specs.Walk as walk;
ghost use Rattle.c_rules.specs.World as world;

use crate::declarators::{at_of, declared_name};
use crate::items::has_init;
use crate::specifiers::is_extern_specs;
use c_tree::{At, Declarator, External, Item};
use std::alloc::Global;
use tok_base::{Bytes, Items, NoMemory};

/// The name that a declarator declares; an absent one is empty.
fn name_of(alloc: Global, declarator: &Declarator) -> Result<Bytes, NoMemory>
    ensures { IfOk result (λ n. n ≡ rules.name_of (view_declarator declarator.now)) }
{
    match declared_name(declarator) {
        Some(name) => {
            let copy = Bytes::from_slice(alloc, name)?;
            Ok(copy)
        }
        None => Ok(Items::new(alloc)),
    }
}

/// The name is noted.
fn put(alloc: Global, names: &mut Items<Bytes>, declarator: &Declarator) -> Result<(), NoMemory>
    ensures { OnOk result (names.new ≡ names.old ++ rules.name_of (view_declarator declarator.now) ∷ []) }
{
    let name = name_of(alloc, declarator)?;
    names.push(name)?;
    Ok(())
}

fn put_body(alloc: Global, names: &mut Items<Bytes>, x: &External) -> Result<(), NoMemory>
    ensures { OnOk result ((more : List tree.External) → names.new ++ rules.bodies_in more ≡ names.old ++ rules.bodies_in (view_external x.now ∷ more)) }
{
    match x {
        External::Declaration(_) => Ok(()),
        External::Definition(definition) => put(alloc, names, &definition.declarator),
    }
}

/// The functions that have a body in the unit, by their names.
pub fn bodies_in(alloc: Global, externals: &[External]) -> Result<Items<Bytes>, NoMemory>
    ensures { IfOk result (λ ns. ns ≡ rules.bodies_in (map view_external externals.now)) }
{
    let mut names = Items::new(alloc);
    for x in externals {
        put_body(alloc, &mut names, x)?;
    }
    Ok(names)
}

fn put_object(
    alloc: Global,
    names: &mut Items<Bytes>,
    is_external: bool,
    item: &Item,
) -> Result<(), NoMemory>
    ensures { OnOk result ((more : List tree.Item) → names.new ++ rules.objects_among is_external more ≡ names.old ++ rules.objects_among is_external (view_item item.now ∷ more)) }
{
    if is_external && !has_init(&item.init) {
        Ok(())
    } else {
        put(alloc, names, &item.declarator)
    }
}

fn put_objects(
    alloc: Global,
    names: &mut Items<Bytes>,
    is_external: bool,
    items: &[Item],
) -> Result<(), NoMemory>
    ensures { OnOk result (names.new ≡ names.old ++ rules.objects_among is_external (map view_item items.now)) }
{
    for item in items {
        put_object(alloc, names, is_external, item)?;
    }
    Ok(())
}

fn put_defined(alloc: Global, names: &mut Items<Bytes>, x: &External) -> Result<(), NoMemory>
    ensures { OnOk result ((more : List tree.External) → names.new ++ rules.objects_in more ≡ names.old ++ rules.objects_in (view_external x.now ∷ more)) }
{
    match x {
        External::Declaration(d) => {
            let is_external = is_extern_specs(&d.specs);
            put_objects(alloc, names, is_external, d.items.as_slice())
        }
        External::Definition(_) => Ok(()),
    }
}

/// The names that file scope defines objects for: without `extern`, or with an initialiser (6.9.2).
pub fn objects_in(alloc: Global, externals: &[External]) -> Result<Items<Bytes>, NoMemory>
    ensures { IfOk result (λ ns. ns ≡ rules.objects_in (map view_external externals.now)) }
{
    let mut names = Items::new(alloc);
    for x in externals {
        put_defined(alloc, &mut names, x)?;
    }
    Ok(names)
}

fn is_main(declarator: &Declarator) -> bool
    ensures { result ≡ same_text (rules.name_of (view_declarator declarator.now)) rules.main }
{
    match declared_name(declarator) {
        Some(name) => is_main_name(name),
        None => false,
    }
}

#[tactic(auto, using(crate::proofs::Texts::same))]
fn is_main_name(name: &[u8]) -> bool
    ensures { result ≡ same_text name.now rules.main }
{
    name == b"main".as_slice()
}

fn main_among(items: &[Item]) -> Option<At>
    ensures { result ≡ rules.main_among (map view_item items.now) }
{
    for item in items {
        if is_main(&item.declarator) {
            return Some(at_of(&item.declarator));
        }
    }
    None
}

fn main_of(declarator: &Declarator) -> Option<At>
    ensures { (more : Option At) → (if same_text (rules.name_of (view_declarator declarator.now)) rules.main then Some (walk.at_of (view_declarator declarator.now)) else more) ≡ world.or_else result more }
{
    if is_main(declarator) {
        Some(at_of(declarator))
    } else {
        None
    }
}

fn main_in(x: &External) -> Option<At>
    ensures { (more : List tree.External) → rules.first_main (view_external x.now ∷ more) ≡ world.or_else result (rules.first_main more) }
{
    match x {
        External::Declaration(d) => main_among(d.items.as_slice()),
        External::Definition(definition) => main_of(&definition.declarator),
    }
}

/// The first declarator of the name `main`, by its outermost node.
pub fn first_main(externals: &[External]) -> Option<At>
    ensures { result ≡ rules.first_main (map view_external externals.now) }
{
    for x in externals {
        let main = main_in(x);
        if main.is_some() {
            return main;
        }
    }
    None
}
