//! Where files are read from.

ghost use Rattle.std.specs.Prelude.{◌≡◌, ℕ, ◌≤◌, List, Option, length, IfOk, IfSome};
ghost use Rattle.tok_base.specs.Files.{Contents, Finds, Tally, Marks};

use crate::list::Bytes;
use std::alloc::{AllocError, Global};
use thiserror::Error;

/// Why a file was not read.
#[derive(Clone, Copy, Debug, PartialEq, Eq, Error)]
pub enum ReadEnd {
    #[error("a read failed")]
    Fault,
    #[error("the bytes are more than the limit")]
    TooLong,
    #[error("there was no memory")]
    NoMemory,
}

impl From<AllocError> for ReadEnd {
    ghost use Rattle.tok_base.specs.declared.files.ReadEnd.TheVariants.{NoMemory};

    ghost from_gives = { λ _ e. e ≡ NoMemory };

    fn from(_: AllocError) -> ReadEnd {
        ReadEnd::NoMemory
    }
}

/// Files by name.
pub trait Files {
    /// The bytes of each name, where they are told. They never change.
    ghost contents: { Self → Option Contents };

    /// How often a read has failed, which never falls, and the name of the last read that failed.
    ghost tally: { Self → Tally };

    /// All bytes of the file of this name, if they are at most `limit`. A missing file is a fault.
    fn read(&mut self, alloc: Global, name: &[u8], limit: u64) -> Result<Bytes, ReadEnd>
        ensures limit { IfOk result (λ bytes. length bytes ≤ limit) }
        ensures bytes { IfSome (contents self.old) (λ all. Finds all name.now limit result) }
        ensures same { contents self.new ≡ contents self.old }
        ensures later { (tally self.old).faults ≤ (tally self.new).faults }
        ensures marks { Marks (tally self.old) (tally self.new) name.now result };
}
