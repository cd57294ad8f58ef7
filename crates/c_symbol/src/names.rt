//! The typedef names so far.

ghost use Rattle.std.specs.Prelude.{◌≡◌, [], ◌∷◌, OnOk};
ghost use Rattle.c_tree.specs.Wf.{Env, is_type};

use indexmap::IndexSet;
use std::alloc::{AllocError, Global};
use std::marker::Model;
use tok_base::{Bytes, Items};

/// The typedef names so far, seen as their list, the newest first. An index finds a name.
pub struct Names {
    alloc: Global,
    list: Items<Bytes>,
    index: IndexSet<Vec<u8>>,
}

impl Model for Names {
    ghost use Rattle.std.specs.Prelude.{reverse};
    ghost use Rattle.c_tree.specs.Wf.{Env};
    ghost use Rattle.c_symbol.specs.Index.{Indexes};

    ghost Value = { Env };

    ghost view = { λ n. reverse n.list };

    ghost invariant = { λ n. Indexes (λ k. k.items) n.index.keys (reverse n.list) };
}

impl Drop for Names {
    fn drop(self) {
        let Names {
            alloc: _,
            list: _,
            index: _,
        } = self;
    }
}

impl Names {
    /// No names yet.
    pub fn new(alloc: Global) -> Names
        ensures { result ≡ [] }
    {
        Names {
            alloc,
            list: Items::new(alloc),
            index: IndexSet::new(alloc),
        }
    }

    /// Whether it is one of them.
    pub fn has(&self, name: &[u8]) -> bool
        ensures { result ≡ is_type self.now name.now }
    {
        self.index.contains(name)
    }

    /// One name more.
    pub fn add(&mut self, name: Bytes) -> Result<(), AllocError>
        ensures { OnOk result (self.new ≡ name ∷ self.old) }
    {
        let key = Vec::from_slice(self.alloc, name.as_slice())?;
        self.list.push(name)?;
        match self.index.insert(key) {
            Ok(_) => Ok(()),
            Err(failed) => {
                self.list.pop();
                Err(AllocError::from(failed))
            }
        }
    }
}
