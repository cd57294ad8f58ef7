//! What is found of nodes.

ghost use Rattle.std.specs.Prelude.{◌≡◌, ◌<◌, length, IfOk, replicate, None};
ghost use Rattle.c_types.specs.Table.{type_at};
ghost use Rattle.c_rules.specs.World.{note_type, note_target, note_binding, note_constant};
ghost use Rattle.c_world.specs.Seen.{seen};

use super::World;
use c_rules::{Binding, ConstantValue};
use c_types::TypeId;
use std::alloc::Global;
use tok_base::{Items, NoMemory};

impl World {
    /// The type of an expression, a type name or a declared name.
    pub fn note_type(&mut self, node: u32, ty: TypeId)
        requires { ty.0 < length self.old.table.terms }
        ensures seen { seen self.new ≡ note_type node (type_at self.old.table.terms ty.0) (seen self.old) }
        ensures same { self.new.table ≡ self.old.table }
    {
        let node = node as usize;
        if node < self.types.len() {
            self.types.set(node, Some(ty));
        }
    }

    /// The type to which an expression is converted as by assignment.
    pub fn note_target(&mut self, node: u32, ty: TypeId)
        requires { ty.0 < length self.old.table.terms }
        ensures seen { seen self.new ≡ note_target node (type_at self.old.table.terms ty.0) (seen self.old) }
        ensures same { self.new.table ≡ self.old.table }
    {
        let node = node as usize;
        if node < self.targets.len() {
            self.targets.set(node, Some(ty));
        }
    }

    /// What a name is bound to.
    pub fn note_binding(&mut self, node: u32, binding: Binding)
        ensures seen { seen self.new ≡ note_binding node binding (seen self.old) }
        ensures same { self.new.table ≡ self.old.table }
    {
        let node = node as usize;
        if node < self.bindings.len() {
            self.bindings.set(node, Some(binding));
        }
    }

    /// The value of a constant, or of an expression that initialises a static scalar.
    pub fn note_constant(&mut self, node: u32, value: Option<ConstantValue>)
        ensures seen { seen self.new ≡ note_constant node value (seen self.old) }
        ensures same { self.new.table ≡ self.old.table }
    {
        let node = node as usize;
        if node < self.constants.len() {
            self.constants.set(node, value);
        }
    }
}

pub(super) fn no_types(alloc: Global, nodes: u32) -> Result<Items<Option<TypeId>>, NoMemory>
    ensures { IfOk result (λ ts. ts ≡ replicate nodes None) }
{
    let list = vec![in alloc; None; nodes as usize]?;
    Ok(Items::from_vec(list))
}

pub(super) fn no_bindings(alloc: Global, nodes: u32) -> Result<Items<Option<Binding>>, NoMemory>
    ensures { IfOk result (λ ts. ts ≡ replicate nodes None) }
{
    let list = vec![in alloc; None; nodes as usize]?;
    Ok(Items::from_vec(list))
}

pub(super) fn no_constants(
    alloc: Global,
    nodes: u32,
) -> Result<Items<Option<ConstantValue>>, NoMemory>
    ensures { IfOk result (λ ts. ts ≡ replicate nodes None) }
{
    let list = vec![in alloc; None; nodes as usize]?;
    Ok(Items::from_vec(list))
}
