//! What is kept of a state when the check is over.

ghost use Rattle.c_world.specs.Findings.{AreBelow, Keeps};

use super::{FunctionEntry, ObjectEntry, World};
use c_rules::{Binding, ConstantValue};
use c_types::{TypeId, TypeTable};
use tok_base::Items;

/// What was found of a unit: its types, and what goes by the numbers of enumerations, objects, functions
/// and nodes.
#[derive(Drop)]
pub struct Findings {
    pub table: TypeTable,
    /// Which enumerations are defined.
    pub defined: Items<bool>,
    pub objects: Items<ObjectEntry>,
    pub functions: Items<FunctionEntry>,
    pub types: Items<Option<TypeId>>,
    pub targets: Items<Option<TypeId>>,
    pub bindings: Items<Option<Binding>>,
    pub constants: Items<Option<ConstantValue>>,
}

impl World {
    /// What was found, without the names in scope.
    pub fn findings(self) -> Findings
        ensures keeps { Keeps self result }
        ensures valid { AreBelow result }
    {
        Findings {
            table: self.table,
            defined: self.defined.into_items(),
            objects: self.objects,
            functions: self.functions,
            types: self.types,
            targets: self.targets,
            bindings: self.bindings,
            constants: self.constants,
        }
    }
}
