//! Comparisons, texts, and the contents of a block that gets another size.

ghost use Rattle.std.specs.Prelude.{◌≡◌, IfOk};
ghost use Rattle.block_memory.specs.Given.{IsGiven, IsGivenValue};
ghost use Rattle.c_core.specs.declared.values.Pointer.TheVariants as APointer;
ghost use Rattle.c_meaning.specs.Storage as storage;
ghost use Rattle.c_meaning.specs.World.{World};
ghost use Rattle.machine_access.specs.Acts.{acted_of, over_blocks};
ghost use Rattle.machine_values.specs.Small.{AreSmall};

use crate::reading::{compared, text_length};
use block_memory::Memory;
use c_core::{End, Pointer, Value, reason_of};
use c_meaning::pointer_in;
use machine_values::natural_in;
use num_ops::{Int, IntKind};
use tok_base::Span;

/// `memcmp`: by the first bytes that differ (7.24.4.1).
pub fn compare_bytes<M: Memory>(
    memory: &M,
    span: Span,
    p: Value,
    q: Value,
    count: Value,
) -> Result<Value, End>
    requires left { IsGivenValue (M.sizes memory.now) p }
    requires right { IsGivenValue (M.sizes memory.now) q }
    requires small { AreSmall (M.blocks memory.now) }
    ensures value { (w : World) → storage.compare_bytes span p q count (over_blocks (M.blocks memory.now) w) ≡ acted_of result (over_blocks (M.blocks memory.now) w) }
    ensures given { IfOk result (λ v. IsGivenValue (M.sizes memory.now) v) }
{
    let (left, right) = (pointer_in(p), pointer_in(q));
    match compared(memory, left, right, natural_in(count)) {
        Ok(order) => Ok(Value::Int(Int {
            kind: IntKind::Int,
            value: i128::from(order),
        })),
        Err(fault) => Err(End::Trap(reason_of(fault), span)),
    }
}

/// `strlen`: how many bytes stand before the first zero byte (7.24.6.3).
pub fn string_length<M: Memory>(memory: &M, span: Span, p: Value) -> Result<Value, End>
    requires given { IsGivenValue (M.sizes memory.now) p }
    requires small { AreSmall (M.blocks memory.now) }
    ensures value { (w : World) → storage.string_length span p (over_blocks (M.blocks memory.now) w) ≡ acted_of result (over_blocks (M.blocks memory.now) w) }
    ensures given { IfOk result (λ v. IsGivenValue (M.sizes memory.now) v) }
{
    match text_length(memory, pointer_in(p)) {
        Ok(length) => Ok(Value::Int(Int {
            kind: IntKind::ULong,
            value: i128::from(length),
        })),
        Err(fault) => Err(End::Trap(reason_of(fault), span)),
    }
}

/// The contents of an allocated block, up to the lesser of the sizes, in a new one (7.22.3.5).
pub fn resized<M: Memory>(
    memory: &mut M,
    span: Span,
    new: u32,
    old: u32,
    size: u64,
) -> Result<(), End>
    requires new { IsGiven (M.sizes memory.old) (APointer.Object new 0) }
    requires old { IsGiven (M.sizes memory.old) (APointer.Object old 0) }
    ensures value { (w : World) → storage.resized span new old size (over_blocks (M.blocks memory.old) w) ≡ acted_of result (over_blocks (M.blocks memory.new) w) }
    ensures sizes { M.sizes memory.new ≡ M.sizes memory.old }
    ensures starts { M.starts memory.new ≡ M.starts memory.old }
    ensures top { M.top memory.new ≡ M.top memory.old }
{
    let count = size.min(memory.block(old).size);
    let (target, source) = (Pointer::Object(new, 0), Pointer::Object(old, 0));
    match memory.copy(target, source, count, false) {
        Ok(()) => Ok(()),
        Err(fault) => Err(End::Trap(reason_of(fault), span)),
    }
}
