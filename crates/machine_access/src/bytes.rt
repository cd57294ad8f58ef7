//! What the library does to bytes: copies and fills (7.24.2, 7.24.6).

ghost use Rattle.std.specs.Prelude.{◌≡◌, OnErr};
ghost use Rattle.block_memory.specs.Given.{IsGiven, IsGivenValue};
ghost use Rattle.c_core.specs.declared.values.Pointer.TheVariants as APointer;
ghost use Rattle.c_meaning.specs.Storage as storage;
ghost use Rattle.c_meaning.specs.World.{World};
ghost use Rattle.machine_access.specs.Acts.{acted_of, acted_with, over_blocks};

use crate::access::copied;
use block_memory::Memory;
use c_core::{End, Pointer, Value, reason_of};
use c_meaning::pointer_in;
use machine_values::{byte_in, natural_in};
use tok_base::Span;

/// `memcpy`, or `memmove` where places may overlap; gives the first argument.
pub fn copy_bytes<M: Memory>(
    memory: &mut M,
    span: Span,
    may_overlap: bool,
    to: &Value,
    from: Value,
    count: Value,
) -> Result<(), End>
    requires to { IsGivenValue (M.sizes memory.old) to.now }
    requires from { IsGivenValue (M.sizes memory.old) from }
    ensures value { (w : World) → storage.copy_bytes span may_overlap to.now from count (over_blocks (M.blocks memory.old) w) ≡ acted_with to.now result (over_blocks (M.blocks memory.new) w) }
    ensures sizes { M.sizes memory.new ≡ M.sizes memory.old }
    ensures starts { M.starts memory.new ≡ M.starts memory.old }
    ensures top { M.top memory.new ≡ M.top memory.old }
    ensures unchanged { OnErr result (M.blocks memory.new ≡ M.blocks memory.old) }
{
    let (target, source) = (pointer_in(copied(to)), pointer_in(from));
    match memory.copy(target, source, natural_in(count), may_overlap) {
        Ok(()) => Ok(()),
        Err(fault) => Err(End::Trap(reason_of(fault), span)),
    }
}

/// `memset`; gives the first argument.
pub fn set_bytes<M: Memory>(
    memory: &mut M,
    span: Span,
    to: &Value,
    byte: Value,
    count: Value,
) -> Result<(), End>
    requires to { IsGivenValue (M.sizes memory.old) to.now }
    ensures value { (w : World) → storage.set_bytes span to.now byte count (over_blocks (M.blocks memory.old) w) ≡ acted_with to.now result (over_blocks (M.blocks memory.new) w) }
    ensures sizes { M.sizes memory.new ≡ M.sizes memory.old }
    ensures starts { M.starts memory.new ≡ M.starts memory.old }
    ensures top { M.top memory.new ≡ M.top memory.old }
    ensures unchanged { OnErr result (M.blocks memory.new ≡ M.blocks memory.old) }
{
    let target = pointer_in(copied(to));
    match memory.fill(target, byte_in(byte), natural_in(count)) {
        Ok(()) => Ok(()),
        Err(fault) => Err(End::Trap(reason_of(fault), span)),
    }
}

/// All bytes of a block zero, from its beginning (7.22.3.2).
pub fn zeroed<M: Memory>(memory: &mut M, span: Span, block: u32, size: u64) -> Result<(), End>
    requires { IsGiven (M.sizes memory.old) (APointer.Object block 0) }
    ensures value { (w : World) → storage.zeroed span block size (over_blocks (M.blocks memory.old) w) ≡ acted_of result (over_blocks (M.blocks memory.new) w) }
    ensures sizes { M.sizes memory.new ≡ M.sizes memory.old }
    ensures starts { M.starts memory.new ≡ M.starts memory.old }
    ensures top { M.top memory.new ≡ M.top memory.old }
    ensures unchanged { OnErr result (M.blocks memory.new ≡ M.blocks memory.old) }
{
    match memory.fill(Pointer::Object(block, 0), 0, size) {
        Ok(()) => Ok(()),
        Err(fault) => Err(End::Trap(reason_of(fault), span)),
    }
}
