//! Copies of records.

ghost use Rattle.std.specs.Prelude.{◌≡◌, true, false, Ok, OnErr};
ghost use Rattle.block_memory.specs.Given.{IsGiven};
ghost use Rattle.c_core.specs.Blocks as blocks;
ghost use Rattle.c_meaning.specs.Storage as storage;
ghost use Rattle.c_meaning.specs.World.{World};
ghost use Rattle.machine_access.specs.Acts.{acted_of, over_blocks};
ghost use Rattle.machine_access.specs.Reach.{fault_of, tested_bytes};

use block_memory::{BlockInfo, Memory};
use c_core::{BlockKind, End, Fault, Pointer, reason_of};
use machine_values::same_pointer;
use tok_base::Span;

/// A copy of a record: its span, those of the two places, and its size.
#[derive(Clone, Copy, Debug, PartialEq, Eq)]
pub struct RecordCopy {
    pub span: Span,
    pub to_at: Span,
    pub from_at: Span,
    pub size: u64,
}

/// The first fault of an access of bytes in a block.
#[inline]
fn test(block: BlockInfo, offset: u64, size: u64, writes: bool) -> Result<(), Fault>
    ensures { result ≡ tested_bytes block offset size writes }
{
    if !block.live {
        return Err(Fault::Dead);
    }
    if offset > block.size || size > block.size - offset {
        return Err(Fault::Bounds);
    }
    if writes && block.kind == BlockKind::ReadOnly {
        return Err(Fault::ReadOnly);
    }
    Ok(())
}

/// The first fault of an access of bytes at a place.
#[inline]
fn reach<M: Memory>(memory: &M, p: Pointer, size: u64, writes: bool) -> Result<(), Fault>
    requires { IsGiven (M.sizes memory.now) p }
    ensures { result ≡ fault_of (blocks.reached (M.blocks memory.now) p size 1 writes) }
{
    match p {
        Pointer::Object(number, offset) => test(memory.block(number), offset, size, writes),
        Pointer::Null | Pointer::Function(_) => Err(Fault::Null),
    }
}

/// A record is copied; the two places may be equal, but not overlap otherwise (6.5.16.1, paragraph 3). The target
/// is tested first, then the source, each with its own span, then overlap.
pub fn copy_record<M: Memory>(
    memory: &mut M,
    copy: RecordCopy,
    to: Pointer,
    from: Pointer,
) -> Result<(), End>
    requires to { IsGiven (M.sizes memory.old) to }
    requires from { IsGiven (M.sizes memory.old) from }
    ensures value { (w : World) → storage.copy_record copy.span to copy.to_at from copy.from_at copy.size (over_blocks (M.blocks memory.old) w) ≡ acted_of result (over_blocks (M.blocks memory.new) w) }
    ensures sizes { M.sizes memory.new ≡ M.sizes memory.old }
    ensures starts { M.starts memory.new ≡ M.starts memory.old }
    ensures top { M.top memory.new ≡ M.top memory.old }
    ensures unchanged { OnErr result (M.blocks memory.new ≡ M.blocks memory.old) }
{
    match reach(memory, to, copy.size, true) {
        Ok(()) => copy_to(memory, copy, to, from),
        Err(fault) => Err(End::Trap(reason_of(fault), copy.to_at)),
    }
}

/// A copy whose target can be written.
fn copy_to<M: Memory>(
    memory: &mut M,
    copy: RecordCopy,
    to: Pointer,
    from: Pointer,
) -> Result<(), End>
    requires to { IsGiven (M.sizes memory.old) to }
    requires from { IsGiven (M.sizes memory.old) from }
    requires reached { fault_of (blocks.reached (M.blocks memory.old) to copy.size 1 true) ≡ Ok tt }
    ensures value { (w : World) → storage.copy_record copy.span to copy.to_at from copy.from_at copy.size (over_blocks (M.blocks memory.old) w) ≡ acted_of result (over_blocks (M.blocks memory.new) w) }
    ensures sizes { M.sizes memory.new ≡ M.sizes memory.old }
    ensures starts { M.starts memory.new ≡ M.starts memory.old }
    ensures top { M.top memory.new ≡ M.top memory.old }
    ensures unchanged { OnErr result (M.blocks memory.new ≡ M.blocks memory.old) }
{
    match reach(memory, from, copy.size, false) {
        Ok(()) => copy_over(memory, copy, to, from),
        Err(fault) => Err(End::Trap(reason_of(fault), copy.from_at)),
    }
}

/// A copy whose target can be written, and whose source can be read.
fn copy_over<M: Memory>(
    memory: &mut M,
    copy: RecordCopy,
    to: Pointer,
    from: Pointer,
) -> Result<(), End>
    requires to { IsGiven (M.sizes memory.old) to }
    requires from { IsGiven (M.sizes memory.old) from }
    requires target { fault_of (blocks.reached (M.blocks memory.old) to copy.size 1 true) ≡ Ok tt }
    requires source { fault_of (blocks.reached (M.blocks memory.old) from copy.size 1 false) ≡ Ok tt }
    ensures value { (w : World) → storage.copy_record copy.span to copy.to_at from copy.from_at copy.size (over_blocks (M.blocks memory.old) w) ≡ acted_of result (over_blocks (M.blocks memory.new) w) }
    ensures sizes { M.sizes memory.new ≡ M.sizes memory.old }
    ensures starts { M.starts memory.new ≡ M.starts memory.old }
    ensures top { M.top memory.new ≡ M.top memory.old }
    ensures unchanged { OnErr result (M.blocks memory.new ≡ M.blocks memory.old) }
{
    match memory.copy(to, from, copy.size, same_pointer(to, from)) {
        Ok(()) => Ok(()),
        Err(fault) => Err(End::Trap(reason_of(fault), copy.span)),
    }
}
