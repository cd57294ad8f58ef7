//! What is known of a unit, by the numbers of types.

ghost use Rattle.std.specs.Prelude.{◌≡◌, ◌<◌, length, map, option_map, IfSome};
ghost use Rattle.std.specs.Option.{option_copied};
ghost use Rattle.c_types.specs.Table.{type_at};
ghost use Rattle.c_rules.specs.Known as known;
ghost use Rattle.c_world.specs.Seen.{seen, object_of, function_of};
ghost use Rattle.c_world.specs.Findings.{AreBelow};
ghost use Rattle.c_checked.specs.Found.{known_of, Holds};
ghost use Rattle.c_checked.specs.Told.{type_of, target_of, binding_of, constant_of, object_at, function_at};

use c_rules::{Binding, ConstantValue};
use c_types::{TypeId, TypeTable};
use c_world::{Findings, FunctionEntry, ObjectEntry, World};
use std::marker::Model;
use tok_base::Items;

/// What is known of a unit.
#[derive(Drop)]
pub struct Notes {
    table: TypeTable,
    defined: Items<bool>,
    objects: Items<ObjectEntry>,
    functions: Items<FunctionEntry>,
    types: Items<Option<TypeId>>,
    targets: Items<Option<TypeId>>,
    bindings: Items<Option<Binding>>,
    constants: Items<Option<ConstantValue>>,
}

impl Model for Notes {
    ghost use Rattle.c_checked.specs.Found.{Found, AreBelow};

    ghost Value = { Found };

    ghost view = { λ n. record { table = n.table; defined = n.defined; objects = n.objects; functions = n.functions; types = n.types; targets = n.targets; bindings = n.bindings; constants = n.constants } };

    ghost invariant = { λ n. AreBelow (record { table = n.table; defined = n.defined; objects = n.objects; functions = n.functions; types = n.types; targets = n.targets; bindings = n.bindings; constants = n.constants }) };
}

impl Notes {
    /// What is known where the check ends.
    pub fn new(world: World) -> Notes
        ensures { known_of result ≡ known.known (seen world) }
    {
        Notes::of(world.findings())
    }

    fn of(found: Findings) -> Notes
        requires { AreBelow found }
        ensures { Holds found result }
    {
        Notes {
            table: found.table,
            defined: found.defined,
            objects: found.objects,
            functions: found.functions,
            types: found.types,
            targets: found.targets,
            bindings: found.bindings,
            constants: found.constants,
        }
    }

    /// The types of the unit.
    pub fn table(&self) -> &TypeTable
        ensures { result.now ≡ self.now.table }
    {
        let _ = &self.defined;
        &self.table
    }

    /// The type of an expression as written, a type name or a declared name.
    pub fn type_of(&self, node: u32) -> Option<TypeId>
        ensures is { option_map (λ t. type_at self.now.table.terms t.0) result ≡ type_of (known_of self.now) node }
        ensures valid { IfSome result (λ t. t.0 < length self.now.table.terms) }
    {
        match self.types.get(node as usize) {
            None => None,
            Some(note) => *note,
        }
    }

    /// The type to which an expression is converted as by assignment.
    pub fn target_of(&self, node: u32) -> Option<TypeId>
        ensures is { option_map (λ t. type_at self.now.table.terms t.0) result ≡ target_of (known_of self.now) node }
        ensures valid { IfSome result (λ t. t.0 < length self.now.table.terms) }
    {
        match self.targets.get(node as usize) {
            None => None,
            Some(note) => *note,
        }
    }

    /// What a name in an expression, or the declared name of an object or a function, is bound to.
    pub fn binding_of(&self, node: u32) -> Option<Binding>
        ensures { result ≡ binding_of (known_of self.now) node }
    {
        match self.bindings.get(node as usize) {
            None => None,
            Some(note) => *note,
        }
    }

    /// The value of a constant, or of an expression that initialises a static scalar.
    pub fn constant_of(&self, node: u32) -> Option<ConstantValue>
        ensures { result ≡ constant_of (known_of self.now) node }
    {
        match self.constants.get(node as usize) {
            None => None,
            Some(note) => *note,
        }
    }

    /// How many objects and parameters the unit declares; their numbers are below it.
    pub fn object_count(&self) -> usize
        ensures { result ≡ length (known_of self.now).objects }
    {
        self.objects.len()
    }

    /// An object or a parameter.
    pub fn object(&self, number: u32) -> Option<ObjectEntry>
        ensures is { option_map (object_of self.now.table.terms) result ≡ object_at (known_of self.now) number }
        ensures valid { IfSome result (λ o. o.ty.0 < length self.now.table.terms) }
    {
        match self.objects.get(number as usize) {
            None => None,
            Some(object) => Some(*object),
        }
    }

    /// How many functions the unit declares; their numbers are below it.
    pub fn function_count(&self) -> usize
        ensures { result ≡ length (known_of self.now).functions }
    {
        self.functions.len()
    }

    /// A function.
    pub fn function(&self, number: u32) -> Option<&FunctionEntry>
        ensures is { option_map (function_of self.now.table.terms) (option_copied result) ≡ function_at (known_of self.now) number }
        ensures valid { IfSome result (λ f. f.now.ty.0 < length self.now.table.terms) }
    {
        self.functions.get(number as usize)
    }
}
