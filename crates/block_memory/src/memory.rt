//! What every form of memory does.

ghost use Rattle.std.specs.Prelude.{◌≡◌, ℕ, ◌+◌, ◌<◌, ◌≤◌, ◌^◌, List, [], ◌∷◌, ◌++◌, length, slice_get, slice_index, IsTrue, IfOk, IfErr, OnOk, OnErr};
ghost use Rattle.c_core.specs.Blocks as access;
ghost use Rattle.c_core.specs.Blocks.{Blocks};
ghost use Rattle.c_core.specs.Values as values;
ghost use Rattle.block_memory.specs.Given.{IsGiven, IsGivenValue, IsGivenCell};
ghost use Rattle.block_memory.specs.Rooms.{room, IsFree};
ghost use Rattle.block_memory.specs.Shape.{Tells, sizes_of};

use c_core::{BlockKind, Cell, Fault, Pointer, Scalar, Value};
use tok_base::NoMemory;

/// What is told of a block: its kind, its size and start in bytes, and whether it lives.
#[derive(Clone, Copy, Debug, PartialEq, Eq)]
pub struct BlockInfo {
    pub kind: BlockKind,
    pub size: u64,
    pub at: u64,
    pub live: bool,
}

/// Storage in blocks that have numbers. Each pointer that is handed in, also inside a value or a cell,
/// names a block that was given, and has an offset of at most its size; so does each that a load gives.
pub trait Memory {
    /// All blocks that were given, in the order of their numbers; the dead ones have no cells.
    ghost blocks: { Self → Blocks };

    /// The size of each block, in bytes.
    ghost sizes: { Self → List ℕ };

    /// The address at which each block starts. No access sees it.
    ghost starts: { Self → List ℕ };

    /// The end of all addresses.
    ghost top: { Self → ℕ };

    /// Makes a live block with the next number and undefined cells. Its addresses are free.
    fn place(&mut self, kind: BlockKind, size: u64, at: u64) -> Result<u32, NoMemory>
        requires inside { at + room kind size ≤ top self.old }
        requires free { IsFree (blocks self.old) (starts self.old) at (room kind size) }
        requires few { length (blocks self.old) < 2 ^ 32 }
        ensures number { IfOk result (λ n. n ≡ length (blocks self.old)) }
        ensures placed { OnOk result (blocks self.new ≡ access.placed (blocks self.old) kind size) }
        ensures sizes { OnOk result (sizes self.new ≡ sizes self.old ++ size ∷ []) }
        ensures starts { OnOk result (starts self.new ≡ starts self.old ++ at ∷ []) }
        ensures unchanged { OnErr result ((blocks self.new ≡ blocks self.old) × (sizes self.new ≡ sizes self.old) × (starts self.new ≡ starts self.old)) }
        ensures top { top self.new ≡ top self.old };

    /// The value that is stored at a place, or the first fault.
    fn load(&self, p: Pointer, kind: Scalar) -> Result<Value, Fault>
        requires { IsGiven (sizes self.now) p }
        ensures value { result ≡ access.load (blocks self.now) p kind }
        ensures given { IfOk result (λ v. IsGivenValue (sizes self.now) v) };

    /// Stores a value of a kind. After a fault nothing has changed.
    fn store(&mut self, p: Pointer, kind: Scalar, v: Value) -> Result<(), Fault>
        requires pointer { IsGiven (sizes self.old) p }
        requires kind { values.kind_of v ≡ kind }
        requires value { IsGivenValue (sizes self.old) v }
        ensures ok { OnOk result (access.store (blocks self.old) p kind v ≡ Ok (blocks self.new)) }
        ensures fault { IfErr result (λ f. access.store (blocks self.old) p kind v ≡ Err f) }
        ensures unchanged { OnErr result (blocks self.new ≡ blocks self.old) }
        ensures sizes { sizes self.new ≡ sizes self.old }
        ensures starts { starts self.new ≡ starts self.old }
        ensures top { top self.new ≡ top self.old };

    /// Copies `n` cells as they are. After a fault nothing has changed.
    fn copy(&mut self, to: Pointer, from: Pointer, n: u64, may_overlap: bool) -> Result<(), Fault>
        requires to { IsGiven (sizes self.old) to }
        requires from { IsGiven (sizes self.old) from }
        ensures ok { OnOk result (access.copy (blocks self.old) to from n may_overlap ≡ Ok (blocks self.new)) }
        ensures fault { IfErr result (λ f. access.copy (blocks self.old) to from n may_overlap ≡ Err f) }
        ensures unchanged { OnErr result (blocks self.new ≡ blocks self.old) }
        ensures sizes { sizes self.new ≡ sizes self.old }
        ensures starts { starts self.new ≡ starts self.old }
        ensures top { top self.new ≡ top self.old };

    /// Writes `n` bytes of one value. After a fault nothing has changed.
    fn fill(&mut self, to: Pointer, byte: u8, n: u64) -> Result<(), Fault>
        requires { IsGiven (sizes self.old) to }
        ensures ok { OnOk result (access.fill (blocks self.old) to byte n ≡ Ok (blocks self.new)) }
        ensures fault { IfErr result (λ f. access.fill (blocks self.old) to byte n ≡ Err f) }
        ensures unchanged { OnErr result (blocks self.new ≡ blocks self.old) }
        ensures sizes { sizes self.new ≡ sizes self.old }
        ensures starts { starts self.new ≡ starts self.old }
        ensures top { top self.new ≡ top self.old };

    /// Ends the life of a block; a dead one stays as it is.
    fn kill(&mut self, block: u32)
        requires { block < length (blocks self.old) }
        ensures killed { blocks self.new ≡ access.killed (blocks self.old) block }
        ensures sizes { sizes self.new ≡ sizes self.old }
        ensures starts { starts self.new ≡ starts self.old }
        ensures top { top self.new ≡ top self.old };

    /// What is known of a block that was given.
    fn block(&self, n: u32) -> BlockInfo
        requires { n < length (blocks self.now) }
        ensures told { Tells (slice_get (blocks self.now) n) result }
        ensures start { slice_get (starts self.now) n ≡ Some result.at };

    /// Writes one cell inside a live block of any kind.
    fn init(&mut self, block: u32, offset: u64, c: Cell)
        requires live { IsTrue (access.is_live (blocks self.old) block) }
        requires inside { offset < slice_index (sizes self.old) block }
        requires cell { IsGivenCell (sizes self.old) c }
        ensures written { blocks self.new ≡ access.initialised (blocks self.old) block offset c }
        ensures sizes { sizes self.new ≡ sizes self.old }
        ensures starts { starts self.new ≡ starts self.old }
        ensures top { top self.new ≡ top self.old };

    /// Each size is its block's.
    ghost sizes_are: { (m : Self) → sizes m ≡ sizes_of (blocks m) };
}
