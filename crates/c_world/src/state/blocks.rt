//! Blocks and the names in scope.

ghost use Rattle.std.specs.Prelude.{◌≡◌, ◌<◌, ◌∷◌, length, map, Option, option_map, OnOk, OnErr, IfOk, IfSome, All};
ghost use Rattle.c_types.specs.Table.{type_at};
ghost use Rattle.c_rules.specs.World.{enter, leave, find_name, is_here, is_file_scope, names_at, with_name, is_listed};
ghost use Rattle.c_world.specs.Inner.{NamesBelow};
ghost use Rattle.c_world.specs.Seen.{seen, entry_named, entry_of};

use super::World;
use crate::names::{Bound, NameEntry};
use c_rules::Sort;
use c_types::TypeId;
use tok_base::{Bytes, Items, NoMemory};

impl World {
    /// A block begins.
    pub fn enter(&mut self) -> Result<(), NoMemory>
        ensures seen { OnOk result (seen self.new ≡ enter (seen self.old)) }
        ensures same { self.new.table ≡ self.old.table }
    {
        if self.depth == u32::MAX {
            return Err(NoMemory);
        }
        self.depth += 1;
        Ok(())
    }

    /// A block ends; the names that it declared are gone.
    pub fn leave(&mut self)
        ensures seen { seen self.new ≡ leave (seen self.old) }
        ensures same { self.new.table ≡ self.old.table }
    {
        self.names.leave(self.depth);
        self.depth = self.depth.saturating_sub(1);
    }

    /// A block ends, and gives the names that it declared, the newest first.
    pub fn leave_with(&mut self) -> Result<Items<NameEntry>, NoMemory>
        ensures seen { OnOk result (seen self.new ≡ leave (seen self.old)) }
        ensures names { IfOk result (λ es. map (entry_of self.old.table.terms) es ≡ names_at (seen self.old).depth (seen self.old).names) }
        ensures valid { IfOk result (λ es. NamesBelow (length self.old.table.terms) es) }
        ensures same { self.new.table ≡ self.old.table }
    {
        let names = self.names.leave_with(self.depth)?;
        self.depth = self.depth.saturating_sub(1);
        Ok(names)
    }

    /// Whether no block is open but the file scope.
    pub fn is_file_scope(&self) -> bool
        ensures { result ≡ is_file_scope (seen self.now) }
    {
        self.depth == 0
    }

    /// What the name stands for.
    pub fn find(&self, name: &[u8]) -> Option<Bound>
        ensures is { option_map (entry_named self.now.table.terms name.now) result ≡ find_name name.now (seen self.now) }
        ensures valid { IfSome result (λ b. b.ty.0 < length self.now.table.terms) }
    {
        self.names.find(name)
    }

    /// Whether the innermost block declares the name.
    pub fn is_here(&self, name: &[u8]) -> bool
        ensures { result ≡ is_here (seen self.now) name.now }
    {
        match self.find(name) {
            None => false,
            Some(bound) => bound.depth == self.depth,
        }
    }

    /// The name is in scope from here on (ISO/IEC 9899:2018, 6.2.1, paragraph 7).
    pub fn declare(&mut self, name: Bytes, sort: Sort, ty: TypeId) -> Result<(), NoMemory>
        requires { ty.0 < length self.old.table.terms }
        ensures seen { OnOk result (seen self.new ≡ with_name name sort (type_at self.old.table.terms ty.0) (seen self.old)) }
        ensures same { self.new.table ≡ self.old.table }
    {
        let depth = self.depth;
        self.names.declare(name, Bound { sort, ty, depth })?;
        Ok(())
    }

    /// Whether the name was declared as something else than a type, in whatever scope.
    pub fn is_other(&self, name: &[u8]) -> bool
        ensures { result ≡ is_listed name.now (seen self.now).others }
    {
        self.others.contains(name)
    }

    /// The name is declared as something else than a type.
    pub fn note_other(&mut self, name: Bytes) -> Result<(), NoMemory>
        ensures seen { OnOk result (seen self.new ≡ record (seen self.old) { others = name ∷ (seen self.old).others }) }
        ensures same { self.new.table ≡ self.old.table }
    {
        self.others.put(name)?;
        Ok(())
    }

    /// Whether file scope has had a body or an initialiser for the name.
    pub fn is_completed(&self, name: &[u8]) -> bool
        ensures { result ≡ is_listed name.now (seen self.now).completed }
    {
        self.completed.contains(name)
    }

    /// File scope has a body or an initialiser for the name.
    pub fn note_completed(&mut self, name: Bytes) -> Result<(), NoMemory>
        ensures seen { OnOk result (seen self.new ≡ record (seen self.old) { completed = name ∷ (seen self.old).completed }) }
        ensures same { self.new.table ≡ self.old.table }
    {
        self.completed.put(name)?;
        Ok(())
    }
}
