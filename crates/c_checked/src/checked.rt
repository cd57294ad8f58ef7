//! A checked unit.

ghost use Rattle.std.specs.Prelude.{◌≡◌, ◌<◌, length, option_map, IfSome, IsSome, Some};
ghost use Rattle.std.specs.Option.{option_copied};
ghost use Rattle.c_types.specs.Table.{type_at};
ghost use Rattle.c_rules.specs.Known as known;
ghost use Rattle.c_world.specs.Seen.{seen, object_of, function_of};
ghost use Rattle.c_checked.specs.Found.{known_of};
ghost use Rattle.c_checked.specs.Told.{type_of, target_of, binding_of, constant_of, object_at, function_at};

use crate::notes::Notes;
use c_held as held;
use c_rules::{Binding, ConstantValue};
use c_types::{TypeId, TypeTable};
use c_world::{FunctionEntry, ObjectEntry, World};

/// A unit that keeps all rules, and what is known of it.
#[derive(Drop)]
pub struct Checked {
    unit: held::Unit,
    notes: Notes,
}

impl Checked {
    /// A unit with what is known where its check ends.
    pub fn new(unit: held::Unit, world: World) -> Checked
        ensures unit { result.unit ≡ unit }
        ensures known { known_of result.notes ≡ known.known (seen world) }
    {
        Checked {
            unit,
            notes: Notes::new(world),
        }
    }

    pub fn unit(&self) -> &c_tree::Unit
        ensures { result.now ≡ self.now.unit }
    {
        self.unit.get()
    }

    /// The types of the unit.
    pub fn table(&self) -> &TypeTable
        ensures { result.now ≡ self.now.notes.table }
    {
        self.notes.table()
    }

    /// The type of an expression as written, a type name or a declared name.
    pub fn type_of(&self, node: u32) -> TypeId
        requires { IsSome (type_of (known_of self.now.notes) node) }
        ensures is { type_of (known_of self.now.notes) node ≡ Some (type_at self.now.notes.table.terms result.0) }
        ensures valid { result.0 < length self.now.notes.table.terms }
    {
        self.noted_type(node).unwrap()
    }

    /// What a name in an expression, or the declared name of an object, a parameter or a function, is bound to.
    pub fn binding_of(&self, node: u32) -> Binding
        requires { IsSome (binding_of (known_of self.now.notes) node) }
        ensures { binding_of (known_of self.now.notes) node ≡ Some result }
    {
        self.noted_binding(node).unwrap()
    }

    /// The type to which an expression is converted as by assignment; none where it isn't.
    pub fn target_of(&self, node: u32) -> Option<TypeId>
        ensures is { option_map (λ t. type_at self.now.notes.table.terms t.0) result ≡ target_of (known_of self.now.notes) node }
        ensures valid { IfSome result (λ t. t.0 < length self.now.notes.table.terms) }
    {
        self.notes.target_of(node)
    }

    /// The type of a node, if it has one.
    pub fn noted_type(&self, node: u32) -> Option<TypeId>
        ensures is { option_map (λ t. type_at self.now.notes.table.terms t.0) result ≡ type_of (known_of self.now.notes) node }
        ensures valid { IfSome result (λ t. t.0 < length self.now.notes.table.terms) }
    {
        self.notes.type_of(node)
    }

    /// What a node is bound to, if it is a name that is bound.
    pub fn noted_binding(&self, node: u32) -> Option<Binding>
        ensures { result ≡ binding_of (known_of self.now.notes) node }
    {
        self.notes.binding_of(node)
    }

    /// The value of a constant, or of an expression that initialises a static scalar.
    pub fn constant_of(&self, node: u32) -> Option<ConstantValue>
        ensures { result ≡ constant_of (known_of self.now.notes) node }
    {
        self.notes.constant_of(node)
    }

    /// How many objects and parameters the unit declares; their numbers are below it.
    pub fn object_count(&self) -> usize
        ensures { result ≡ length (known_of self.now.notes).objects }
    {
        self.notes.object_count()
    }

    /// An object or a parameter: its type, its place among those of its function, whether it is defined.
    pub fn object(&self, number: u32) -> Option<ObjectEntry>
        ensures is { option_map (object_of self.now.notes.table.terms) result ≡ object_at (known_of self.now.notes) number }
        ensures valid { IfSome result (λ o. o.ty.0 < length self.now.notes.table.terms) }
    {
        self.notes.object(number)
    }

    /// How many functions the unit declares; their numbers are below it.
    pub fn function_count(&self) -> usize
        ensures { result ≡ length (known_of self.now.notes).functions }
    {
        self.notes.function_count()
    }

    /// A function: its name, the type of its first declaration, whether it has a body in the unit.
    pub fn function(&self, number: u32) -> Option<&FunctionEntry>
        ensures is { option_map (function_of self.now.notes.table.terms) (option_copied result) ≡ function_at (known_of self.now.notes) number }
        ensures valid { IfSome result (λ f. f.now.ty.0 < length self.now.notes.table.terms) }
    {
        self.notes.function(number)
    }
}
