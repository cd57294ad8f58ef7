//! All blocks in one row of cells.

ghost use Rattle.std.specs.Prelude.{◌≡◌, ◌+◌, ◌<◌, ◌≤◌, ◌^◌, [], ◌∷◌, ◌++◌, length, slice_get, IfOk, OnOk, OnErr};
ghost use Rattle.c_core.specs.Blocks.{reached};
ghost use Rattle.block_memory.specs.Given.{IsGiven};
ghost use Rattle.block_memory.specs.Shape.{sizes_of, place_of, Tells};

use crate::cells::PackedCells;
use block_memory::access::{Place, clashes, test};
use block_memory::{BlockInfo, Memory, room};
use c_core::{BlockKind, Cell, Fault, Pointer, Scalar, Value, size_of};
use std::alloc::{AllocError, Global};
use std::marker::Model;
use tok_base::NoMemory;

/// A block, whose cells stand in the row from `at` on while it lives. It is small, since one is kept for
/// each block that ever was.
#[derive(Clone, Copy, Debug)]
struct PackedBlock {
    kind: BlockKind,
    live: bool,
    size: u32,
    at: u32,
}

/// Memory in nine bytes for each address.
#[derive(Drop)]
pub struct PackedMemory {
    cells: PackedCells,
    blocks: Vec<PackedBlock>,
}

impl Model for PackedMemory {
    ghost use Rattle.block_memory.specs.Shape.{Stored};

    ghost Value = { Stored };

    ghost use Rattle.packed_memory.specs.Form.{stored_over, IsPacked};

    ghost view = { stored_over };

    ghost invariant = { IsPacked };
}

fn append(blocks: &mut Vec<PackedBlock>, block: PackedBlock) -> Result<(), NoMemory>
    ensures ok { OnOk result (blocks.new.items ≡ blocks.old.items ++ block ∷ []) }
    ensures err { OnErr result (blocks.new.items ≡ blocks.old.items) }
{
    blocks.push(block).map_err(AllocError::from)?;
    Ok(())
}

impl PackedMemory {
    /// A memory without blocks, with so many addresses from 0 on.
    pub fn new(alloc: Global, bytes: u64) -> Result<PackedMemory, NoMemory>
        requires { bytes < 2 ^ 30 }
        ensures { IfOk result (λ m. m ≡ record { blocks = []; starts = []; top = bytes }) }
    {
        let cells = PackedCells::new(alloc, bytes as usize)?;
        Ok(PackedMemory {
            cells,
            blocks: Vec::new(alloc),
        })
    }

    fn info(&self, number: u32) -> BlockInfo
        requires { number < length self.now.blocks }
        ensures told { Tells (slice_get self.now.blocks number) result }
        ensures start { slice_get self.now.starts number ≡ Some result.at }
    {
        let block = self.blocks[number as usize];
        BlockInfo {
            kind: block.kind,
            size: block.size as u64,
            at: block.at as u64,
            live: block.live,
        }
    }

    /// Where an access is, or its first fault.
    fn reach(&self, p: Pointer, count: u64, align: u64, writes: bool) -> Result<Place, Fault>
        requires pointer { IsGiven (sizes_of self.now.blocks) p }
        requires align { 0 < align }
        ensures { result ≡ place_of (reached self.now.blocks p count align writes) }
    {
        match p {
            Pointer::Object(number, offset) => {
                test(self.info(number), offset, count, align, writes)?;
                Ok(Place { number, offset })
            }
            Pointer::Null | Pointer::Function(_) => Err(Fault::Null),
        }
    }
}

impl Memory for PackedMemory {
    ghost use Rattle.std.specs.Prelude.{refl};
    ghost use Rattle.block_memory.specs.Shape.{sizes_of};

    ghost blocks = { λ m. m.blocks };

    ghost sizes = { λ m. sizes_of m.blocks };

    ghost starts = { λ m. m.starts };

    ghost top = { λ m. m.top };

    ghost sizes_are = { λ m. refl };

    fn place(&mut self, kind: BlockKind, size: u64, at: u64) -> Result<u32, NoMemory> {
        let number = self.blocks.len() as u32;
        let count = room(kind, size) as usize;
        let block = PackedBlock {
            kind,
            live: true,
            size: size as u32,
            at: at as u32,
        };
        append(&mut self.blocks, block)?;
        self.cells.clear(at as usize, count);
        Ok(number)
    }

    fn load(&self, p: Pointer, kind: Scalar) -> Result<Value, Fault> {
        let size = size_of(kind);
        let place = self.reach(p, size, size, false)?;
        let block = self.blocks[place.number as usize];
        self.cells
            .load((block.at as u64 + place.offset) as usize, kind)
    }

    fn store(&mut self, p: Pointer, kind: Scalar, v: Value) -> Result<(), Fault> {
        let size = size_of(kind);
        let place = self.reach(p, size, size, true)?;
        let block = self.blocks[place.number as usize];
        self.cells
            .store((block.at as u64 + place.offset) as usize, v);
        Ok(())
    }

    fn copy(&mut self, to: Pointer, from: Pointer, n: u64, may_overlap: bool) -> Result<(), Fault> {
        let target = self.reach(to, n, 1, true)?;
        let source = self.reach(from, n, 1, false)?;
        if clashes(may_overlap, target, source, n) {
            return Err(Fault::Overlap);
        }
        let block = self.blocks[target.number as usize];
        let other = self.blocks[source.number as usize];
        let start = (block.at as u64 + target.offset) as usize;
        self.cells.copy(
            start,
            (other.at as u64 + source.offset) as usize,
            n as usize,
        );
        Ok(())
    }

    fn fill(&mut self, to: Pointer, byte: u8, n: u64) -> Result<(), Fault> {
        let place = self.reach(to, n, 1, true)?;
        let block = self.blocks[place.number as usize];
        self.cells.fill((block.at as u64 + place.offset) as usize, n as usize, byte);
        Ok(())
    }

    fn kill(&mut self, block: u32) {
        let block = &mut self.blocks[block as usize];
        block.live = false;
    }

    fn block(&self, n: u32) -> BlockInfo {
        self.info(n)
    }

    fn init(&mut self, block: u32, offset: u64, c: Cell) {
        let block = self.blocks[block as usize];
        self.cells.set((block.at as u64 + offset) as usize, c);
    }
}
