//! Allocated storage (ISO/IEC 9899:2018, 7.22.3).

ghost use Rattle.std.specs.Prelude.{◌≡◌, ℕ, ◌<◌, ◌≤◌, ◌^◌, length, Some, IfOk, OnOk};
ghost use Rattle.block_memory.specs.Given.{IsGiven, IsGivenValue};
ghost use Rattle.c_core.specs.declared.values.Pointer.TheVariants as APointer;
ghost use Rattle.c_core.specs.declared.values.Value.{Value};
ghost use Rattle.c_meaning.specs.Meaning as meaning;
ghost use Rattle.c_meaning.specs.Meaning.{Tokens, token_of};
ghost use Rattle.c_meaning.specs.Run.{Label, Run};
ghost use Rattle.c_meaning.specs.Storage as storage;
ghost use Rattle.c_meaning.specs.World as world;
ghost use Rattle.c_meaning.specs.World.{State};
ghost use Rattle.machine_library.specs.Leads.{Runs, valued, continued, Called, moving, moved};
ghost use Rattle.machine_state.specs.State.{IsSound, state_in};

use crate::requests::{release, request};
use block_memory::Memory;
use c_core::{BlockKind, End, Pointer, Value};
use machine_access::zeroed;
use machine_bytes::resized;
use machine_state::Ledger;
use machine_values::no_value;
use tok_base::{NoMemory, Reason, Span};

/// A block of undefined cells, or null (7.22.3.4).
pub(crate) fn allocate<M: Memory>(
    memory: &mut M,
    ledger: &mut Ledger,
    token: u64,
    size: u128,
) -> Result<Value, NoMemory>
    requires sound { IsSound (M.blocks memory.old) (M.starts memory.old) (M.top memory.old) ledger.old }
    ensures run { (tok : Tokens) (label : Label) → token ≡ token_of tok label → Runs Value tok (meaning.allocate label size) (M.blocks memory.old) ledger.old (M.blocks memory.new) ledger.new (valued result) }
    ensures sound { OnOk result (IsSound (M.blocks memory.new) (M.starts memory.new) (M.top memory.new) ledger.new) }
    ensures called { OnOk result (Called (M.sizes memory.old) ledger.old (M.sizes memory.new) ledger.new) }
    ensures given { IfOk result (λ v. IsGivenValue (M.sizes memory.new) v) }
{
    match request(memory, ledger, token, size)? {
        Some(number) => Ok(Value::Ptr(Pointer::Object(number, 0))),
        None => Ok(Value::Ptr(Pointer::Null)),
    }
}

/// A new block becomes zero.
fn zero_new<M: Memory>(
    memory: &mut M,
    ledger: &Ledger,
    span: Span,
    number: u32,
    size: u64,
) -> Result<Value, End>
    requires sound { IsSound (M.blocks memory.old) (M.starts memory.old) (M.top memory.old) ledger.now }
    requires given { IsGiven (M.sizes memory.old) (APointer.Object number 0) }
    ensures run { (k : Value → State → Run) → meaning.if_granted (Some number) (λ n. world.act (storage.zeroed span n size)) k (state_in (M.blocks memory.old) ledger.now) ≡ continued result k (state_in (M.blocks memory.new) ledger.now) }
    ensures sound { OnOk result (IsSound (M.blocks memory.new) (M.starts memory.new) (M.top memory.new) ledger.now) }
    ensures sizes { M.sizes memory.new ≡ M.sizes memory.old }
    ensures given { IfOk result (λ v. IsGivenValue (M.sizes memory.new) v) }
{
    match zeroed(memory, span, number, size) {
        Ok(()) => Ok(Value::Ptr(Pointer::Object(number, 0))),
        Err(end) => Err(end),
    }
}

/// A block of zero bytes, or null (7.22.3.2).
pub(crate) fn allocate_zeroed<M: Memory>(
    memory: &mut M,
    ledger: &mut Ledger,
    span: Span,
    token: u64,
    size: u128,
) -> Result<Result<Value, End>, NoMemory>
    requires sound { IsSound (M.blocks memory.old) (M.starts memory.old) (M.top memory.old) ledger.old }
    ensures run { (tok : Tokens) (label : Label) → token ≡ token_of tok label → Runs Value tok (meaning.allocate_zeroed span label size) (M.blocks memory.old) ledger.old (M.blocks memory.new) ledger.new result }
    ensures sound { IfOk result (λ r. OnOk r (IsSound (M.blocks memory.new) (M.starts memory.new) (M.top memory.new) ledger.new)) }
    ensures called { IfOk result (λ r. OnOk r (Called (M.sizes memory.old) ledger.old (M.sizes memory.new) ledger.new)) }
    ensures given { IfOk result (λ r. IfOk r (λ v. IsGivenValue (M.sizes memory.new) v)) }
{
    match request(memory, ledger, token, size)? {
        Some(number) => Ok(zero_new(memory, ledger, span, number, size as u64)),
        None => Ok(Ok(Value::Ptr(Pointer::Null))),
    }
}

/// The number of the live allocated block that begins at a place of a block.
fn allocated<M: Memory>(memory: &M, number: u32, offset: u64) -> Result<u32, Reason>
    requires { number < length (M.blocks memory.now) }
    ensures allocated { result ≡ storage.allocated (M.blocks memory.now) (APointer.Object number offset) }
    ensures same { IfOk result (λ n. n ≡ number) }
{
    let info = memory.block(number);
    if offset == 0 && info.live && info.kind == BlockKind::Heap {
        Ok(number)
    } else {
        Err(Reason::BadFree)
    }
}

/// A new block has the contents of the old one, which is given back.
fn fill_moved<M: Memory>(
    memory: &mut M,
    ledger: &mut Ledger,
    span: Span,
    old: u32,
    new: u32,
    size: u64,
) -> Result<Result<Value, End>, NoMemory>
    requires sound { IsSound (M.blocks memory.old) (M.starts memory.old) (M.top memory.old) ledger.old }
    requires old { IsGiven (M.sizes memory.old) (APointer.Object old 0) }
    requires new { IsGiven (M.sizes memory.old) (APointer.Object new 0) }
    ensures run { (tok : Tokens) → Runs Value tok (meaning.if_granted (Some new) (moving span old size)) (M.blocks memory.old) ledger.old (M.blocks memory.new) ledger.new result }
    ensures sound { IfOk result (λ r. OnOk r (IsSound (M.blocks memory.new) (M.starts memory.new) (M.top memory.new) ledger.new)) }
    ensures called { IfOk result (λ r. OnOk r (Called (M.sizes memory.old) ledger.old (M.sizes memory.new) ledger.new)) }
    ensures given { IfOk result (λ r. IfOk r (λ v. IsGivenValue (M.sizes memory.new) v)) }
{
    match resized(memory, span, new, old, size) {
        Ok(()) => {
            release(memory, ledger, old)?;
            Ok(Ok(Value::Ptr(Pointer::Object(new, 0))))
        }
        Err(end) => Ok(Err(end)),
    }
}

/// A live allocated block gets another size.
fn move_block<M: Memory>(
    memory: &mut M,
    ledger: &mut Ledger,
    span: Span,
    token: u64,
    old: u32,
    size: u64,
) -> Result<Result<Value, End>, NoMemory>
    requires sound { IsSound (M.blocks memory.old) (M.starts memory.old) (M.top memory.old) ledger.old }
    requires old { IsGiven (M.sizes memory.old) (APointer.Object old 0) }
    ensures run { (tok : Tokens) (label : Label) → token ≡ token_of tok label → Runs Value tok (moved span label old size) (M.blocks memory.old) ledger.old (M.blocks memory.new) ledger.new result }
    ensures sound { IfOk result (λ r. OnOk r (IsSound (M.blocks memory.new) (M.starts memory.new) (M.top memory.new) ledger.new)) }
    ensures called { IfOk result (λ r. OnOk r (Called (M.sizes memory.old) ledger.old (M.sizes memory.new) ledger.new)) }
    ensures given { IfOk result (λ r. IfOk r (λ v. IsGivenValue (M.sizes memory.new) v)) }
{
    match request(memory, ledger, token, u128::from(size))? {
        Some(new) => fill_moved(memory, ledger, span, old, new, size),
        None => Ok(Ok(Value::Ptr(Pointer::Null))),
    }
}

/// A block that begins at a place gets another size.
fn reallocate_block<M: Memory>(
    memory: &mut M,
    ledger: &mut Ledger,
    span: Span,
    token: u64,
    place: (u32, u64),
    size: u64,
) -> Result<Result<Value, End>, NoMemory>
    requires sound { IsSound (M.blocks memory.old) (M.starts memory.old) (M.top memory.old) ledger.old }
    requires given { IsGiven (M.sizes memory.old) (APointer.Object place.0 place.1) }
    ensures run { (tok : Tokens) (label : Label) → token ≡ token_of tok label → Runs Value tok (meaning.reallocate span label (APointer.Object place.0 place.1) size) (M.blocks memory.old) ledger.old (M.blocks memory.new) ledger.new result }
    ensures sound { IfOk result (λ r. OnOk r (IsSound (M.blocks memory.new) (M.starts memory.new) (M.top memory.new) ledger.new)) }
    ensures called { IfOk result (λ r. OnOk r (Called (M.sizes memory.old) ledger.old (M.sizes memory.new) ledger.new)) }
    ensures given { IfOk result (λ r. IfOk r (λ v. IsGivenValue (M.sizes memory.new) v)) }
{
    match allocated(memory, place.0, place.1) {
        Ok(old) => move_block(memory, ledger, span, token, old, size),
        Err(reason) => Ok(Err(End::Trap(reason, span))),
    }
}

/// A new block is asked for first; the old one is given back only where it was granted (7.22.3.5).
pub(crate) fn reallocate<M: Memory>(
    memory: &mut M,
    ledger: &mut Ledger,
    span: Span,
    token: u64,
    p: Pointer,
    size: u64,
) -> Result<Result<Value, End>, NoMemory>
    requires sound { IsSound (M.blocks memory.old) (M.starts memory.old) (M.top memory.old) ledger.old }
    requires given { IsGiven (M.sizes memory.old) p }
    ensures run { (tok : Tokens) (label : Label) → token ≡ token_of tok label → Runs Value tok (meaning.reallocate span label p size) (M.blocks memory.old) ledger.old (M.blocks memory.new) ledger.new result }
    ensures sound { IfOk result (λ r. OnOk r (IsSound (M.blocks memory.new) (M.starts memory.new) (M.top memory.new) ledger.new)) }
    ensures called { IfOk result (λ r. OnOk r (Called (M.sizes memory.old) ledger.old (M.sizes memory.new) ledger.new)) }
    ensures given { IfOk result (λ r. IfOk r (λ v. IsGivenValue (M.sizes memory.new) v)) }
{
    match p {
        Pointer::Null => {
            let value = allocate(memory, ledger, token, u128::from(size))?;
            Ok(Ok(value))
        }
        Pointer::Object(number, offset) => {
            reallocate_block(memory, ledger, span, token, (number, offset), size)
        }
        Pointer::Function(_) => Ok(Err(End::Trap(Reason::BadFree, span))),
    }
}

/// A block that begins at a place is given back.
fn free_block<M: Memory>(
    memory: &mut M,
    ledger: &mut Ledger,
    span: Span,
    number: u32,
    offset: u64,
) -> Result<Result<Value, End>, NoMemory>
    requires sound { IsSound (M.blocks memory.old) (M.starts memory.old) (M.top memory.old) ledger.old }
    requires given { IsGiven (M.sizes memory.old) (APointer.Object number offset) }
    ensures run { (tok : Tokens) → Runs Value tok (meaning.free span (APointer.Object number offset)) (M.blocks memory.old) ledger.old (M.blocks memory.new) ledger.new result }
    ensures sound { IfOk result (λ r. OnOk r (IsSound (M.blocks memory.new) (M.starts memory.new) (M.top memory.new) ledger.new)) }
    ensures called { IfOk result (λ r. OnOk r (Called (M.sizes memory.old) ledger.old (M.sizes memory.new) ledger.new)) }
    ensures given { IfOk result (λ r. IfOk r (λ v. IsGivenValue (M.sizes memory.new) v)) }
{
    match allocated(memory, number, offset) {
        Ok(old) => {
            release(memory, ledger, old)?;
            Ok(Ok(no_value()))
        }
        Err(reason) => Ok(Err(End::Trap(reason, span))),
    }
}

/// A block is given back; null is none (7.22.3.3).
pub(crate) fn free<M: Memory>(
    memory: &mut M,
    ledger: &mut Ledger,
    span: Span,
    p: Pointer,
) -> Result<Result<Value, End>, NoMemory>
    requires sound { IsSound (M.blocks memory.old) (M.starts memory.old) (M.top memory.old) ledger.old }
    requires given { IsGiven (M.sizes memory.old) p }
    ensures run { (tok : Tokens) → Runs Value tok (meaning.free span p) (M.blocks memory.old) ledger.old (M.blocks memory.new) ledger.new result }
    ensures sound { IfOk result (λ r. OnOk r (IsSound (M.blocks memory.new) (M.starts memory.new) (M.top memory.new) ledger.new)) }
    ensures called { IfOk result (λ r. OnOk r (Called (M.sizes memory.old) ledger.old (M.sizes memory.new) ledger.new)) }
    ensures given { IfOk result (λ r. IfOk r (λ v. IsGivenValue (M.sizes memory.new) v)) }
{
    match p {
        Pointer::Null => Ok(Ok(no_value())),
        Pointer::Object(number, offset) => free_block(memory, ledger, span, number, offset),
        Pointer::Function(_) => Ok(Err(End::Trap(Reason::BadFree, span))),
    }
}
