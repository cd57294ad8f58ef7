//! Both forms of memory, side by side.

ghost use Rattle.std.specs.Prelude.{◌≡◌, ◌≤◌, ◌^◌, length};
ghost use Rattle.block_memory.specs.Shape.{sizes_of};
ghost use Rattle.memory_checks.specs.Counts.{counted};

use crate::ask::ask;
use crate::call::{Answer, Call};
use block_memory::CellMemory;
use packed_memory::PackedMemory;
use std::alloc::Global;
use tok_base::NoMemory;

/// The end of all addresses.
const TOP: u64 = 4096;

/// The two forms, and how many blocks each has.
#[derive(Drop)]
pub struct Forms {
    cells: CellMemory,
    packed: PackedMemory,
    in_cells: u32,
    in_packed: u32,
    ghost cells_counted: { in_cells ≡ length (sizes_of cells.blocks) },
    ghost packed_counted: { in_packed ≡ length (sizes_of packed.blocks) },
    ghost cells_few: { in_cells ≤ 1000 },
    ghost packed_few: { in_packed ≤ 1000 },
    ghost cells_top: { 4096 ≤ cells.top },
    ghost packed_top: { 4096 ≤ packed.top },
}

/// How many blocks there are after an answer.
fn after(count: u32, answer: &Answer) -> u32
    requires { counted count answer.now ≤ 1000 }
    ensures { result ≡ counted count answer.now }
{
    match answer {
        Answer::Placed(_) => count + 1,
        _ => count,
    }
}

impl Forms {
    /// Both forms without blocks.
    pub fn new(alloc: Global) -> Result<Forms, NoMemory> {
        let cells = CellMemory::new(alloc)?;
        let packed = PackedMemory::new(alloc, TOP)?;
        Ok(Forms {
            cells,
            packed,
            in_cells: 0,
            in_packed: 0,
        })
    }

    /// Makes a call on both, and gives their answer, if they answer alike.
    pub fn ask(&mut self, call: Call) -> Option<Answer> {
        let (in_cells, in_packed) = (self.in_cells, self.in_packed);
        let first = ask(&mut self.cells, in_cells, TOP, call);
        let second = ask(&mut self.packed, in_packed, TOP, call);
        self.in_cells = after(in_cells, &first);
        self.in_packed = after(in_packed, &second);
        if first == second { Some(first) } else { None }
    }
}
