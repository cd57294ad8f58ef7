//! The names in scope, found by an index.

ghost use Rattle.std.specs.Prelude.{◌≡◌, [], ◌∷◌, ◌++◌, OnOk, OnErr, IfOk, IfSome, drop, Some, option_map, take, slice_get};
ghost use Rattle.c_world.specs.Names.{find_in, names_left, names_at, stands_at};

use c_rules::Sort;
use c_types::TypeId;
use indexmap::IndexMap;
use std::alloc::{AllocError, Global};
use std::marker::Model;
use tok_base::{Bytes, Items};

/// What a name stands for, and how many blocks hold its declaration.
#[derive(Clone, Copy, Debug)]
pub struct Bound {
    pub sort: Sort,
    pub ty: TypeId,
    pub depth: u32,
}

/// A name with what it stands for.
#[derive(Drop)]
pub struct NameEntry {
    pub name: Bytes,
    pub bound: Bound,
}

/// A declaration, and what its name stood for before.
#[derive(Drop)]
struct Undo {
    entry: NameEntry,
    before: Option<Bound>,
}

/// The names in scope, the newest first.
#[derive(Drop)]
pub struct Names {
    alloc: Global,
    heads: IndexMap<Vec<u8>, Option<Bound>>,
    log: Items<Undo>,
}

impl Model for Names {
    ghost use Rattle.std.specs.Prelude.{List, reverse, map};
    ghost use Rattle.c_world.specs.Names.{entry_of, Follows, head_in};
    ghost use Rattle.c_world.specs.declared.names.NameEntry.{NameEntry};

    ghost Value = { List NameEntry };

    ghost view = { λ n. map entry_of (reverse n.log) };

    ghost invariant = { λ n. Follows (head_in (λ k. k.items) n.heads.entries) (reverse n.log) };
}

impl Names {
    /// No names yet.
    pub fn new(alloc: Global) -> Names
        ensures { result ≡ [] }
    {
        Names {
            alloc,
            heads: IndexMap::new(alloc),
            log: Items::new(alloc),
        }
    }

    /// What the name stands for.
    pub fn find(&self, name: &[u8]) -> Option<Bound>
        ensures { result ≡ option_map (λ e. e.bound) (find_in name.now self.now) }
    {
        match self.heads.get(name) {
            Some(bound) => *bound,
            None => None,
        }
    }

    /// The name stands for this from now on.
    pub fn declare(&mut self, name: Bytes, bound: Bound) -> Result<(), AllocError>
        ensures declared { OnOk result (self.new ≡ record { name = name; bound = bound } ∷ self.old) }
        ensures same { OnErr result (self.new ≡ self.old) }
    {
        let before = self.find(name.as_slice());
        let key = Vec::from_slice(self.alloc, name.as_slice())?;
        self.log.push(Undo {
            entry: NameEntry { name, bound },
            before,
        })?;
        match self.heads.insert(key, Some(bound)) {
            Ok(_) => Ok(()),
            Err(failed) => {
                self.log.pop();
                Err(AllocError::from(failed))
            }
        }
    }

    /// The newest declaration is taken back.
    fn undo(&mut self) -> Option<NameEntry>
        ensures left { self.new ≡ drop 1 self.old }
        ensures taken { result ≡ slice_get self.old 0 }
    {
        match self.log.pop() {
            Some(undo) => match self.heads.get_mut(undo.entry.name.as_slice()) {
                Some(head) => {
                    *head = undo.before;
                    Some(undo.entry)
                }
                None => Some(undo.entry),
            },
            None => None,
        }
    }

    /// Whether the newest declaration stands in the block at this depth.
    fn ends_at(&self, depth: u32) -> bool
        ensures { result ≡ stands_at depth self.now }
    {
        match self.log.as_slice().last() {
            Some(undo) => undo.entry.bound.depth == depth,
            None => false,
        }
    }

    /// The block at this depth ends.
    pub fn leave(&mut self, depth: u32)
        ensures { self.new ≡ names_left depth self.old }
    {
        while self.ends_at(depth) {
            let _gone = self.undo();
        }
    }

    /// The block at this depth ends, and gives its names, the newest first.
    pub fn leave_with(&mut self, depth: u32) -> Result<Items<NameEntry>, AllocError>
        ensures left { self.new ≡ names_left depth self.old }
        ensures names { IfOk result (λ es. es ≡ names_at depth self.old) }
    {
        let mut names = Items::new(self.alloc);
        while self.ends_at(depth) {
            match self.undo() {
                Some(entry) => match names.push(entry) {
                    Ok(()) => {}
                    Err(end) => {
                        self.leave(depth);
                        return Err(end);
                    }
                },
                None => {}
            }
        }
        Ok(names)
    }
}
