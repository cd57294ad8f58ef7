//! Tags, found by an index.

ghost use Rattle.std.specs.Prelude.{◌≡◌, [], ◌∷◌, OnOk, OnErr, IfOk, None, option_map};
ghost use Rattle.c_rules.specs.World.{find_tag};
ghost use Rattle.c_world.specs.Tags.{tag_named, entry_of};

use c_rules::TagSort;
use name_places::NamePlaces;
use std::alloc::Global;
use std::marker::Model;
use tok_base::{Bytes, NoMemory, Reserved};

/// What a tag names: a struct or union, or an enumeration, by its number.
#[derive(Clone, Copy, Debug)]
pub struct TagEntry {
    pub sort: TagSort,
    pub number: u64,
}

#[derive(Drop)]
struct Named {
    name: Bytes,
    tag: TagEntry,
}

/// The tags of a unit, the newest first.
#[derive(Drop)]
pub struct Tags {
    alloc: Global,
    list: Reserved<Named>,
    places: NamePlaces,
}

impl Model for Tags {
    ghost use Rattle.std.specs.Prelude.{List, reverse, map};
    ghost use Rattle.c_rules.specs.World.{Tag};
    ghost use Rattle.c_world.specs.Tags.{Indexes, tag_of};

    ghost Value = { List Tag };

    ghost view = { λ t. map tag_of (reverse t.list.items) };

    ghost invariant = { λ t. Indexes t.places t.list.items (map tag_of (reverse t.list.items)) };
}

impl Tags {
    pub fn new(alloc: Global) -> Result<Tags, NoMemory>
        ensures { IfOk result (λ t. t ≡ []) }
    {
        Ok(Tags {
            alloc,
            list: Reserved::with_room(alloc, 0)?,
            places: NamePlaces::new(alloc),
        })
    }

    pub fn find(&self, name: &[u8]) -> Option<TagEntry>
        ensures { result ≡ option_map entry_of (find_tag name.now self.now) }
    {
        match self.places.find(name) {
            None => None,
            Some(place) => match self.list.get(place as usize) {
                None => None,
                Some(named) => Some(named.tag),
            },
        }
    }

    /// A tag whose name has none yet.
    pub fn put(&mut self, name: Bytes, tag: TagEntry) -> Result<(), NoMemory>
        requires { find_tag name self.old ≡ None }
        ensures put { OnOk result (self.new ≡ tag_named name tag ∷ self.old) }
        ensures same { OnErr result (self.new ≡ self.old) }
    {
        self.list.reserve(1)?;
        let place = self.list.len() as u64;
        self.places.note(self.alloc, name.as_slice(), place)?;
        self.list.push(Named { name, tag });
        Ok(())
    }
}
