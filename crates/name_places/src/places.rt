//! Names and their places.

ghost use Rattle.std.specs.Prelude.{◌≡◌, ℕ, List, None, OnOk, OnErr};
ghost use Rattle.name_places.specs.Placed.{placed, with_place};

use indexmap::IndexMap;
use std::alloc::Global;
use tok_base::NoMemory;

/// The places of names.
#[derive(Drop)]
pub struct NamePlaces {
    index: IndexMap<Vec<u8>, u64>,
}

impl NamePlaces {
    /// No name has a place.
    pub fn new(alloc: Global) -> NamePlaces
        ensures { (name : List ℕ) → placed result name ≡ None }
    {
        NamePlaces {
            index: IndexMap::new(alloc),
        }
    }

    /// The place of a name.
    pub fn find(&self, name: &[u8]) -> Option<u64>
        ensures { result ≡ placed self.now name.now }
    {
        self.index.get(name).copied()
    }

    /// Gives a name its place, unless it has one.
    pub fn note(&mut self, alloc: Global, name: &[u8], place: u64) -> Result<(), NoMemory>
        ensures noted { OnOk result ((other : List ℕ) → placed self.new other ≡ with_place (placed self.old) name.now place other) }
        ensures same { OnErr result ((other : List ℕ) → placed self.new other ≡ placed self.old other) }
    {
        match self.find(name) {
            Some(_was) => Ok(()),
            None => self.insert(alloc, name, place),
        }
    }

    fn insert(&mut self, alloc: Global, name: &[u8], place: u64) -> Result<(), NoMemory>
        requires { placed self.old name.now ≡ None }
        ensures noted { OnOk result ((other : List ℕ) → placed self.new other ≡ with_place (placed self.old) name.now place other) }
        ensures same { OnErr result ((other : List ℕ) → placed self.new other ≡ placed self.old other) }
    {
        let key = Vec::from_slice(alloc, name)?;
        match self.index.insert(key, place) {
            Ok(_) => Ok(()),
            Err(_) => Err(NoMemory),
        }
    }
}
