//! What the unit has, wherever it stands.

ghost use Rattle.std.specs.Prelude.{◌≡◌, ◌∷◌, [], OnOk, IfOk};
ghost use Rattle.c_rules.specs.World.{is_listed};

use c_world::NameSet;
use std::alloc::Global;
use std::marker::Model;
use tok_base::{Bytes, NoMemory};

/// The functions that have a body in the unit, and the objects that file scope defines, by their names.
#[derive(Drop)]
pub struct Whole {
    bodies: NameSet,
    objects: NameSet,
}

impl Model for Whole {
    ghost use Rattle.c_rules.specs.Forms as forms;

    ghost Value = { forms.Whole };

    ghost view = { λ w. record { bodies = w.bodies; objects = w.objects } };
}

impl Whole {
    /// A unit with no function and no object.
    pub fn new(alloc: Global) -> Result<Whole, NoMemory>
        ensures { IfOk result (λ w. w ≡ record { bodies = []; objects = [] }) }
    {
        Ok(Whole {
            bodies: NameSet::new(alloc)?,
            objects: NameSet::new(alloc)?,
        })
    }

    /// Whether a function of this name has a body.
    pub fn has_body(&self, name: &[u8]) -> bool
        ensures { result ≡ is_listed name.now self.now.bodies }
    {
        self.bodies.contains(name)
    }

    /// Whether file scope defines an object of this name.
    pub fn has_object(&self, name: &[u8]) -> bool
        ensures { result ≡ is_listed name.now self.now.objects }
    {
        self.objects.contains(name)
    }

    /// A function of this name has a body.
    pub fn put_body(&mut self, name: Bytes) -> Result<(), NoMemory>
        ensures { OnOk result (self.new ≡ record self.old { bodies = name ∷ self.old.bodies }) }
    {
        self.bodies.put(name)
    }

    /// File scope defines an object of this name.
    pub fn put_object(&mut self, name: Bytes) -> Result<(), NoMemory>
        ensures { OnOk result (self.new ≡ record self.old { objects = name ∷ self.old.objects }) }
    {
        self.objects.put(name)
    }
}
