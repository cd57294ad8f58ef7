//! What is known before a unit.

ghost use Rattle.std.specs.Prelude.{◌≡◌, IfOk};
ghost use Rattle.c_rules.specs.World.{start};
ghost use Rattle.c_world.specs.Seen.{seen};
ghost use Rattle.c_world.specs.Start.{HasNoTypes, HasNoNames, HasNoNotes};

use super::World;
use super::notes::{no_bindings, no_constants, no_types};
use crate::names::Names;
use crate::sets::NameSet;
use crate::tags::Tags;
use c_rules::{Binding, ConstantValue};
use c_types::{TypeId, TypeTable};
use std::alloc::Global;
use tok_base::{Items, NoMemory, Reserved};

/// A table of types with what goes by the numbers of its records and enumerations.
#[derive(Drop)]
struct Types {
    table: TypeTable,
    record_types: Reserved<TypeId>,
    defined: Reserved<bool>,
}

#[derive(Drop)]
struct NamesOnly {
    tags: Tags,
    completed: NameSet,
    others: NameSet,
}

#[derive(Drop)]
struct Notes {
    types: Items<Option<TypeId>>,
    targets: Items<Option<TypeId>>,
    bindings: Items<Option<Binding>>,
    constants: Items<Option<ConstantValue>>,
}

fn no_table(alloc: Global) -> Result<Types, NoMemory>
    ensures { IfOk result HasNoTypes }
{
    let record_types = Reserved::with_room(alloc, 0)?;
    let defined = Reserved::with_room(alloc, 0)?;
    let table = TypeTable::new(alloc)?;
    Ok(Types {
        table,
        record_types,
        defined,
    })
}

fn no_names(alloc: Global) -> Result<NamesOnly, NoMemory>
    ensures { IfOk result HasNoNames }
{
    let tags = Tags::new(alloc)?;
    let completed = NameSet::new(alloc)?;
    let others = NameSet::new(alloc)?;
    Ok(NamesOnly {
        tags,
        completed,
        others,
    })
}

fn no_notes(alloc: Global, nodes: u32) -> Result<Notes, NoMemory>
    ensures { IfOk result (HasNoNotes nodes) }
{
    let types = no_types(alloc, nodes)?;
    let targets = no_types(alloc, nodes)?;
    let bindings = no_bindings(alloc, nodes)?;
    let constants = no_constants(alloc, nodes)?;
    Ok(Notes {
        types,
        targets,
        bindings,
        constants,
    })
}

impl World {
    /// What is known before a unit of so many nodes.
    pub fn new(alloc: Global, nodes: u32) -> Result<World, NoMemory>
        ensures { IfOk result (λ w. seen w ≡ start nodes) }
    {
        let notes = no_notes(alloc, nodes)?;
        let names = no_names(alloc)?;
        let types = no_table(alloc)?;
        Ok(World::of(alloc, nodes, types, names, notes))
    }

    fn of(alloc: Global, _nodes: u32, types: Types, names: NamesOnly, notes: Notes) -> World
        requires types { HasNoTypes types }
        requires names { HasNoNames names }
        requires notes { HasNoNotes _nodes notes }
        ensures { seen result ≡ start _nodes }
    {
        let world = World {
            alloc,
            table: types.table,
            names: Names::new(alloc),
            depth: 0,
            tags: names.tags,
            record_types: types.record_types,
            defined: types.defined,
            unnamed: 0,
            objects: Items::new(alloc),
            functions: Items::new(alloc),
            locals: 0,
            completed: names.completed,
            others: names.others,
            types: notes.types,
            targets: notes.targets,
            bindings: notes.bindings,
            constants: notes.constants,
        };
        world
    }
}
