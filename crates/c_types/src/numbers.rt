//! Numbers by keys, which are lists of numbers.

ghost use Rattle.std.specs.Prelude.{◌≡◌, ◌≢◌, ℕ, List, None, Some, IfOk, OnOk, OnErr};
ghost use Rattle.c_types.specs.Found.{found};

use std::alloc::Global;
use std::collections::BTreeMap;
use tok_base::NoMemory;

/// Which number a key has.
#[derive(Drop)]
pub struct Numbers {
    by_key: BTreeMap<Vec<u64>, u64>,
}

impl Numbers {
    /// No key has a number.
    pub fn new(alloc: Global) -> Numbers
        ensures { (key : List ℕ) → found result key ≡ None }
    {
        Numbers {
            by_key: BTreeMap::new(alloc),
        }
    }

    /// The number of a key.
    pub fn find(&self, key: &[u64]) -> Option<u64>
        ensures { result ≡ found self.now key.now }
    {
        self.by_key.get(key).copied()
    }

    /// Gives a key a number, in place of the one that it had.
    pub fn insert(&mut self, key: Vec<u64>, number: u64) -> Result<(), NoMemory>
        ensures here { OnOk result (found self.new key.items ≡ Some number) }
        ensures others { OnOk result ((other : List ℕ) → other ≢ key.items → found self.new other ≡ found self.old other) }
        ensures err { OnErr result ((other : List ℕ) → found self.new other ≡ found self.old other) }
    {
        match self.by_key.insert(key, number) {
            Ok(_) => Ok(()),
            Err(_) => Err(NoMemory),
        }
    }
}
