//! The state of a check.

mod blocks;
mod findings;
mod notes;
mod objects;
mod records;
mod start;
mod types;

use crate::names::Names;
use crate::sets::NameSet;
use crate::tags::Tags;
use c_rules::{Binding, ConstantValue};
use c_types::{TypeId, TypeTable};
pub use findings::Findings;
use std::alloc::Global;
use std::marker::Model;
use tok_base::{Bytes, Items, Reserved};

/// An object or a parameter, by its number.
#[derive(Clone, Copy, Debug)]
pub struct ObjectEntry {
    pub ty: TypeId,
    /// Its place among those of its function; none where it has static storage.
    pub local: Option<u32>,
    pub is_defined: bool,
}

/// A function, by its number.
#[derive(Drop)]
pub struct FunctionEntry {
    pub name: Bytes,
    pub ty: TypeId,
    pub has_body: bool,
}

/// What is known at a point of a unit.
#[derive(Drop)]
pub struct World {
    alloc: Global,
    table: TypeTable,
    names: Names,
    depth: u32,
    tags: Tags,
    /// The types of the records, by their numbers.
    record_types: Reserved<TypeId>,
    /// Which enumerations are defined.
    defined: Reserved<bool>,
    unnamed: u32,
    objects: Items<ObjectEntry>,
    functions: Items<FunctionEntry>,
    locals: u32,
    completed: NameSet,
    others: NameSet,
    types: Items<Option<TypeId>>,
    targets: Items<Option<TypeId>>,
    bindings: Items<Option<Binding>>,
    constants: Items<Option<ConstantValue>>,
}

impl Model for World {
    ghost use Rattle.c_world.specs.Inner.{Inner, IsSound};

    ghost Value = { Inner };

    ghost view = { λ w. record { table = w.table; names = w.names; depth = w.depth; tags = w.tags; record_types = w.record_types.items; defined = w.defined.items; unnamed = w.unnamed; objects = w.objects; functions = w.functions; locals = w.locals; completed = w.completed; others = w.others; types = w.types; targets = w.targets; bindings = w.bindings; constants = w.constants } };

    ghost invariant = { λ w. IsSound (record { table = w.table; names = w.names; depth = w.depth; tags = w.tags; record_types = w.record_types.items; defined = w.defined.items; unnamed = w.unnamed; objects = w.objects; functions = w.functions; locals = w.locals; completed = w.completed; others = w.others; types = w.types; targets = w.targets; bindings = w.bindings; constants = w.constants }) };
}
