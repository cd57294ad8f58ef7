//! Sets of names.

ghost use Rattle.std.specs.Prelude.{◌≡◌, [], ◌∷◌, OnOk, IfOk};
ghost use Rattle.c_rules.specs.World.{is_listed};

use name_places::NamePlaces;
use std::alloc::Global;
use std::marker::Model;
use tok_base::{Bytes, NoMemory, Reserved};

/// A set of names, seen as the list of those that were put in, the newest first.
#[derive(Drop)]
pub struct NameSet {
    alloc: Global,
    list: Reserved<Bytes>,
    places: NamePlaces,
}

impl Model for NameSet {
    ghost use Rattle.std.specs.Prelude.{List, ℕ, reverse};
    ghost use Rattle.c_world.specs.Sets.{Indexes};

    ghost Value = { List (List ℕ) };

    ghost view = { λ s. reverse s.list.items };

    ghost invariant = { λ s. Indexes s.places (reverse s.list.items) };
}

impl NameSet {
    pub fn new(alloc: Global) -> Result<NameSet, NoMemory>
        ensures { IfOk result (λ s. s ≡ []) }
    {
        Ok(NameSet {
            alloc,
            list: Reserved::with_room(alloc, 0)?,
            places: NamePlaces::new(alloc),
        })
    }

    pub fn contains(&self, name: &[u8]) -> bool
        ensures { result ≡ is_listed name.now self.now }
    {
        self.places.find(name).is_some()
    }

    pub fn put(&mut self, name: Bytes) -> Result<(), NoMemory>
        ensures { OnOk result (self.new ≡ name ∷ self.old) }
    {
        self.list.reserve(1)?;
        self.places.note(self.alloc, name.as_slice(), 0)?;
        self.list.push(name);
        Ok(())
    }
}
