//! Whether a call's conditions hold, as far as a memory tells.

ghost use Rattle.std.specs.Prelude.{◌≡◌, ◌+◌, ◌<◌, ◌≤◌, ◌^◌, true, length, slice_index, IsTrue};
ghost use Rattle.c_core.specs.Blocks.{is_live};
ghost use Rattle.block_memory.specs.Given.{IsGiven, IsGivenCell};
ghost use Rattle.block_memory.specs.Rooms.{room as room_for, IsFree, AreApart};

use block_memory::{BlockInfo, Memory, room};
use c_core::{Cell, Pointer};

/// Sizes and starts of blocks are below this.
pub const LIMIT: u64 = 1 << 40;

/// Whether one of the `count` blocks has this number, and at least so many bytes.
pub fn holds<M: Memory>(memory: &M, count: u32, number: u32, offset: u64) -> bool
    requires { count ≡ length (M.sizes memory.now) }
    ensures { result ≡ true → (number < length (M.sizes memory.now)) × (offset ≤ slice_index (M.sizes memory.now) number) }
{
    if number >= count {
        return false;
    }
    let block = memory.block(number);
    offset <= block.size
}

/// Whether a pointer names one of the `count` blocks, and lies in it or at its end.
pub fn is_given<M: Memory>(memory: &M, count: u32, p: Pointer) -> bool
    requires { count ≡ length (M.sizes memory.now) }
    ensures { result ≡ true → IsGiven (M.sizes memory.now) p }
{
    match p {
        Pointer::Object(number, offset) => holds(memory, count, number, offset),
        Pointer::Null | Pointer::Function(_) => true,
    }
}

pub fn is_given_cell<M: Memory>(memory: &M, count: u32, c: Cell) -> bool
    requires { count ≡ length (M.sizes memory.now) }
    ensures { result ≡ true → IsGivenCell (M.sizes memory.now) c }
{
    match c {
        Cell::Undefined | Cell::Byte(_) => true,
        Cell::Part(Pointer::Null, _) => false,
        Cell::Part(p, i) => i < 8 && is_given(memory, count, p),
    }
}

/// Whether one of the `count` blocks lives.
pub fn lives<M: Memory>(memory: &M, count: u32, number: u32) -> bool
    requires { count ≡ length (M.sizes memory.now) }
    ensures { result ≡ true → IsTrue (is_live (M.blocks memory.now) number) }
{
    if number >= count {
        return false;
    }
    let block = memory.block(number);
    block.live
}

/// Whether two intervals have no address in common.
fn are_apart(at: u64, count: u64, other: u64, more: u64) -> bool
    requires first { at + count < 2 ^ 64 }
    requires second { other + more < 2 ^ 64 }
    ensures { result ≡ true → AreApart at count other more }
{
    count == 0 || more == 0 || at + count <= other || other + more <= at
}

/// Whether a block keeps off an interval of addresses: it is dead, or has no address in it.
fn keeps_off(block: BlockInfo, at: u64, more: u64) -> bool
    requires { at + more < 2 ^ 64 }
    ensures { result ≡ true → block.live ≡ true → AreApart block.at (room_for block.kind block.size) at more }
{
    if !block.live {
        return true;
    }
    if block.size >= LIMIT || block.at >= LIMIT {
        return false;
    }
    are_apart(block.at, room(block.kind, block.size), at, more)
}

/// Whether an interval of addresses meets none of the `count` blocks.
pub fn is_free<M: Memory>(memory: &M, count: u32, at: u64, more: u64) -> bool
    requires count { count ≡ length (M.sizes memory.now) }
    requires small { at + more < 2 ^ 64 }
    ensures { result ≡ true → IsFree (M.blocks memory.now) (M.starts memory.now) at more }
{
    for number in 0..count {
        let block = memory.block(number);
        if !keeps_off(block, at, more) {
            return false;
        }
    }
    true
}
