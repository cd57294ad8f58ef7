//! Objects and functions by their numbers.

ghost use Rattle.std.specs.Prelude.{◌≡◌, ◌<◌, ◌∷◌, [], ◌++◌, length, OnOk, IfOk, suc, is_some, ◌||◌};
ghost use Rattle.c_types.specs.Table.{type_at};
ghost use Rattle.c_rules.specs.World.{World as Known, note_object, without_type};
ghost use Rattle.c_world.specs.Seen.{seen};
ghost use Rattle.c_world.specs.Extends.{Extends};

use super::{FunctionEntry, ObjectEntry, World};
use c_types::{Term, TypeId};
use tok_base::{Bytes, NoMemory};

impl World {
    /// The number that the next object has.
    pub fn next_object(&self) -> Result<u32, NoMemory>
        ensures { IfOk result (λ n. n ≡ length (seen self.now).objects) }
    {
        number(self.objects.len())
    }

    /// An object takes the next number; its type isn't known yet.
    pub fn add_object(&mut self, local: Option<u32>) -> Result<(), NoMemory>
        ensures seen { OnOk result (seen self.new ≡ record (seen self.old) { objects = (seen self.old).objects ++ without_type local ∷ [] }) }
        ensures extends { Extends self.old.table self.new.table }
    {
        let ty = self.make(Term::Void)?;
        self.objects.push(ObjectEntry {
            ty,
            local,
            is_defined: false,
        })?;
        Ok(())
    }

    /// The type of an object, and whether it has static storage and is defined in the unit.
    pub fn note_object(&mut self, number: u32, ty: TypeId, is_fixed: bool)
        requires { ty.0 < length self.old.table.terms }
        ensures seen { seen self.new ≡ note_object number (type_at self.old.table.terms ty.0) is_fixed (seen self.old) }
        ensures same { self.new.table ≡ self.old.table }
    {
        let at = number as usize;
        match self.objects.get(at) {
            None => {}
            Some(object) => {
                let local = object.local;
                let is_defined = is_defined(is_fixed, local);
                self.objects.set(
                    at,
                    ObjectEntry {
                        ty,
                        local,
                        is_defined,
                    },
                );
            }
        }
    }

    /// The number that the next function has.
    pub fn next_function(&self) -> Result<u32, NoMemory>
        ensures { IfOk result (λ n. n ≡ length (seen self.now).functions) }
    {
        number(self.functions.len())
    }

    /// A function takes the next number.
    pub fn add_function(&mut self, name: Bytes, ty: TypeId, has_body: bool) -> Result<(), NoMemory>
        requires { ty.0 < length self.old.table.terms }
        ensures seen { OnOk result (seen self.new ≡ record (seen self.old) { functions = (seen self.old).functions ++ record { name = name; type = type_at self.old.table.terms ty.0; has_body = has_body } ∷ [] }) }
        ensures same { self.new.table ≡ self.old.table }
    {
        self.functions.push(FunctionEntry { name, ty, has_body })?;
        Ok(())
    }

    /// How many parameters and automatic objects the function has so far.
    pub fn locals(&self) -> u32
        ensures { result ≡ (seen self.now).locals }
    {
        self.locals
    }

    /// The function has so many parameters and automatic objects.
    pub fn set_locals(&mut self, count: u32)
        ensures seen { seen self.new ≡ record (seen self.old) { locals = count } }
        ensures same { self.new.table ≡ self.old.table }
    {
        self.locals = count;
    }
}

/// Whether an object is defined in the unit: one that isn't static is.
fn is_defined(is_fixed: bool, local: Option<u32>) -> bool
    ensures { result ≡ (is_fixed || is_some local) }
{
    is_fixed || local.is_some()
}

/// A number below 2^32, if a count is one.
fn number(count: usize) -> Result<u32, NoMemory>
    ensures { IfOk result (λ n. n ≡ count) }
{
    match u32::try_from(count) {
        Ok(number) => Ok(number),
        Err(_) => Err(NoMemory),
    }
}
