//! A list of cells for each block.

ghost use Rattle.std.specs.Prelude.{◌≡◌, ◌+◌, ◌<◌, ◌≤◌, ◌^◌, [], ◌∷◌, ◌++◌, OnOk, OnErr, length, take, drop, replicate, slice_get, slice_set, vec_len, IfOk};
ghost use Rattle.c_core.specs.Blocks.{reached, replaced};
ghost use Rattle.c_core.specs.Values.{scalar_size, value_in as value_of};
ghost use Rattle.c_core.specs.declared.values.Cell.TheVariants.{Byte as AByte};
ghost use Rattle.block_memory.specs.Given.{IsGiven};
ghost use Rattle.block_memory.specs.Shape.{sizes_of, place_of, Tells};

use crate::access::{Place, clashes, test};
use crate::memory::{BlockInfo, Memory};
use crate::scalar::{cells_of, value_in};
use c_core::{BlockKind, Cell, Fault, Pointer, Scalar, Value, size_of};
use std::alloc::{AllocError, Global};
use std::marker::Model;
use std::mem;
use tok_base::NoMemory;

/// A block: its cells are there while it lives.
#[derive(Drop)]
struct CellBlock {
    kind: BlockKind,
    size: u64,
    at: u64,
    live: bool,
    cells: Vec<Cell>,
}

/// The plain form of memory, with addresses below 2^62.
#[derive(Drop)]
pub struct CellMemory {
    alloc: Global,
    blocks: Vec<CellBlock>,
}

impl Model for CellMemory {
    ghost use Rattle.block_memory.specs.Shape.{Stored};

    ghost Value = { Stored };

    ghost use Rattle.block_memory.specs.CellForm.{stored_in, IsSound};

    ghost view = { stored_in };

    ghost invariant = { IsSound };
}

/// Replaces cells from a place on.
fn put(cells: &mut Vec<Cell>, at: usize, new: &[Cell])
    requires { at + length new.now ≤ vec_len cells.old }
    ensures { cells.new.items ≡ replaced cells.old.items at new.now }
{
    cells.as_mut_slice()[at..at + new.len()].copy_from_slice(new);
}

/// Writes one cell.
fn set_cell(cells: &mut Vec<Cell>, at: usize, cell: Cell)
    requires { at < vec_len cells.old }
    ensures { cells.new.items ≡ slice_set cells.old.items at cell }
{
    cells[at] = cell;
}

/// Copies a part of other cells.
fn put_part(cells: &mut Vec<Cell>, at: usize, other: &[Cell], start: usize, count: usize)
    requires room { at + count ≤ vec_len cells.old }
    requires part { start + count ≤ length other.now }
    ensures { cells.new.items ≡ replaced cells.old.items at (take count (drop start other.now)) }
{
    put(cells, at, &other[start..start + count]);
}

/// Copies a part of the cells within them.
fn shift(cells: &mut Vec<Cell>, at: usize, start: usize, count: usize)
    requires room { at + count ≤ vec_len cells.old }
    requires part { start + count ≤ vec_len cells.old }
    ensures { cells.new.items ≡ replaced cells.old.items at (take count (drop start cells.old.items)) }
{
    cells.copy_within(start..start + count, at);
}

/// The value that cells hold from a place on.
fn read(kind: Scalar, cells: &[Cell], at: usize) -> Result<Value, Fault>
    requires { at + scalar_size kind ≤ length cells.now }
    ensures { result ≡ value_of kind (take (scalar_size kind) (drop at cells.now)) }
{
    let size = size_of(kind);
    value_in(kind, &cells[at..at + size as usize])
}

/// Writes one byte to `count` cells.
fn put_bytes(cells: &mut Vec<Cell>, at: usize, byte: u8, count: usize)
    requires { at + count ≤ vec_len cells.old }
    ensures { cells.new.items ≡ replaced cells.old.items at (replicate count (AByte byte)) }
{
    cells.as_mut_slice()[at..at + count].fill(Cell::Byte(byte));
}

/// The cells of a new block.
fn undefined_cells(alloc: Global, count: usize) -> Result<Vec<Cell>, NoMemory>
    ensures { IfOk result (λ cells. cells.items ≡ replicate count Cell.Undefined) }
{
    let cells = Vec::from_elem(alloc, Cell::Undefined, count)?;
    Ok(cells)
}

fn append(blocks: &mut Vec<CellBlock>, block: CellBlock) -> Result<(), NoMemory>
    ensures ok { OnOk result (blocks.new.items ≡ blocks.old.items ++ block ∷ []) }
    ensures err { OnErr result (blocks.new.items ≡ blocks.old.items) }
{
    blocks.push(block).map_err(AllocError::from)?;
    Ok(())
}

impl CellMemory {
    /// A memory without blocks.
    pub fn new(alloc: Global) -> Result<CellMemory, NoMemory>
        ensures { IfOk result (λ m. m ≡ record { blocks = []; starts = []; top = 2 ^ 62 }) }
    {
        Ok(CellMemory {
            alloc,
            blocks: Vec::new(alloc),
        })
    }

    fn info(&self, number: u32) -> BlockInfo
        requires { number < length self.now.blocks }
        ensures told { Tells (slice_get self.now.blocks number) result }
        ensures start { slice_get self.now.starts number ≡ Some result.at }
    {
        let block = &self.blocks[number as usize];
        BlockInfo {
            kind: block.kind,
            size: block.size,
            at: block.at,
            live: block.live,
        }
    }

    /// Where an access is, or its first fault.
    fn reach(&self, p: Pointer, count: u64, align: u64, writes: bool) -> Result<Place, Fault>
        requires pointer { IsGiven (sizes_of self.now.blocks) p }
        requires align { 0 < align }
        ensures { result ≡ place_of (reached self.now.blocks p count align writes) }
    {
        match p {
            Pointer::Object(number, offset) => {
                test(self.info(number), offset, count, align, writes)?;
                Ok(Place { number, offset })
            }
            Pointer::Null | Pointer::Function(_) => Err(Fault::Null),
        }
    }
}

impl Memory for CellMemory {
    ghost use Rattle.std.specs.Prelude.{refl};
    ghost use Rattle.block_memory.specs.Shape.{sizes_of};

    ghost blocks = { λ m. m.blocks };

    ghost sizes = { λ m. sizes_of m.blocks };

    ghost starts = { λ m. m.starts };

    ghost top = { λ m. m.top };

    ghost sizes_are = { λ m. refl };

    fn place(&mut self, kind: BlockKind, size: u64, at: u64) -> Result<u32, NoMemory> {
        let number = self.blocks.len() as u32;
        let cells = undefined_cells(self.alloc, size as usize)?;
        let block = CellBlock {
            kind,
            size,
            at,
            live: true,
            cells,
        };
        append(&mut self.blocks, block)?;
        Ok(number)
    }

    fn load(&self, p: Pointer, kind: Scalar) -> Result<Value, Fault> {
        let size = size_of(kind);
        let place = self.reach(p, size, size, false)?;
        let block = &self.blocks[place.number as usize];
        read(kind, block.cells.as_slice(), place.offset as usize)
    }

    fn store(&mut self, p: Pointer, kind: Scalar, v: Value) -> Result<(), Fault> {
        let size = size_of(kind);
        let place = self.reach(p, size, size, true)?;
        let cells = cells_of(v);
        let block = &mut self.blocks[place.number as usize];
        put(
            &mut block.cells,
            place.offset as usize,
            &cells[..size as usize],
        );
        Ok(())
    }

    fn copy(&mut self, to: Pointer, from: Pointer, n: u64, may_overlap: bool) -> Result<(), Fault> {
        let target = self.reach(to, n, 1, true)?;
        let source = self.reach(from, n, 1, false)?;
        if clashes(may_overlap, target, source, n) {
            return Err(Fault::Overlap);
        }
        let (start, count) = (source.offset as usize, n as usize);
        let at = target.offset as usize;
        if target.number == source.number {
            let block = &mut self.blocks[target.number as usize];
            shift(&mut block.cells, at, start, count);
            return Ok(());
        }
        let empty = Vec::new(self.alloc);
        let block = &mut self.blocks[target.number as usize];
        let mut cells = mem::replace(&mut block.cells, empty);
        let other = &self.blocks[source.number as usize];
        put_part(&mut cells, at, other.cells.as_slice(), start, count);
        let block = &mut self.blocks[target.number as usize];
        block.cells = cells;
        Ok(())
    }

    fn fill(&mut self, to: Pointer, byte: u8, n: u64) -> Result<(), Fault> {
        let place = self.reach(to, n, 1, true)?;
        let block = &mut self.blocks[place.number as usize];
        put_bytes(&mut block.cells, place.offset as usize, byte, n as usize);
        Ok(())
    }

    fn kill(&mut self, block: u32) {
        let empty = Vec::new(self.alloc);
        let block = &mut self.blocks[block as usize];
        block.live = false;
        block.cells = empty;
    }

    fn block(&self, n: u32) -> BlockInfo {
        self.info(n)
    }

    fn init(&mut self, block: u32, offset: u64, c: Cell) {
        let block = &mut self.blocks[block as usize];
        set_cell(&mut block.cells, offset as usize, c);
    }
}
