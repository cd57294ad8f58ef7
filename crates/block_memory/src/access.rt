//! Where an access is, and which fault it has first.

ghost use Rattle.std.specs.Prelude.{◌≡◌, ◌<◌, not, ◌&&◌};
ghost use Rattle.block_memory.specs.Shape.{tested, are_over};

use crate::memory::BlockInfo;
use c_core::{BlockKind, Fault};

/// A place in a block: its number, and the offset in bytes.
#[derive(Clone, Copy, Debug, PartialEq, Eq)]
pub struct Place {
    pub number: u32,
    pub offset: u64,
}

/// Whether two places of `count` bytes have a byte in common.
fn overlap(a: Place, b: Place, count: u64) -> bool
    ensures { result ≡ are_over a b count }
{
    a.number == b.number && a.offset.abs_diff(b.offset) < count
}

/// Whether a copy is undefined because its places overlap.
pub fn clashes(may_overlap: bool, to: Place, from: Place, count: u64) -> bool
    ensures { result ≡ (not may_overlap && are_over to from count) }
{
    !may_overlap && overlap(to, from, count)
}

/// The first fault of an access of `count` bytes to a block.
#[inline]
pub fn test(
    block: BlockInfo,
    offset: u64,
    count: u64,
    align: u64,
    writes: bool,
) -> Result<(), Fault>
    requires { 0 < align }
    ensures { result ≡ tested block offset count align writes }
{
    if !block.live {
        return Err(Fault::Dead);
    }
    if offset > block.size || count > block.size - offset {
        return Err(Fault::Bounds);
    }
    if offset % align != 0 {
        return Err(Fault::Misaligned);
    }
    if writes && block.kind == BlockKind::ReadOnly {
        return Err(Fault::ReadOnly);
    }
    Ok(())
}
