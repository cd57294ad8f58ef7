//! Requests for storage, and releases (ISO/IEC 9899:2018, 7.22.3).

ghost use Rattle.std.specs.Prelude.{◌≡◌, ℕ, ◌<◌, ◌≤◌, ◌^◌, true, length, Option, IsTrue, IfOk, IfSome, OnOk};
ghost use Rattle.block_memory.specs.Given.{IsGiven};
ghost use Rattle.c_core.specs.declared.values.Pointer.TheVariants as APointer;
ghost use Rattle.c_meaning.specs.Meaning.{Tokens, token_of};
ghost use Rattle.c_meaning.specs.Run.{Label};
ghost use Rattle.c_meaning.specs.World as world;
ghost use Rattle.machine_library.specs.Leads.{Runs, valued, Called};
ghost use Rattle.machine_state.specs.State.{IsSound};

use crate::heap::{ask, give_back};
use block_memory::{BlockInfo, Memory};
use c_core::BlockKind;
use machine_state::Ledger;
use tok_base::NoMemory;

/// Asks for storage; gives the number of the new block where it was granted.
pub(crate) fn request<M: Memory>(
    memory: &mut M,
    ledger: &mut Ledger,
    token: u64,
    size: u128,
) -> Result<Option<u32>, NoMemory>
    requires sound { IsSound (M.blocks memory.old) (M.starts memory.old) (M.top memory.old) ledger.old }
    ensures run { (tok : Tokens) (label : Label) → token ≡ token_of tok label → Runs (Option ℕ) tok (world.request label size) (M.blocks memory.old) ledger.old (M.blocks memory.new) ledger.new (valued result) }
    ensures sound { OnOk result (IsSound (M.blocks memory.new) (M.starts memory.new) (M.top memory.new) ledger.new) }
    ensures called { OnOk result (Called (M.sizes memory.old) ledger.old (M.sizes memory.new) ledger.new) }
    ensures given { IfOk result (λ o. IfSome o (λ n. IsGiven (M.sizes memory.new) (APointer.Object n 0) × (size < 2 ^ 32))) }
{
    let Some(place) = ask(ledger, token, size)? else {
        return Ok(None);
    };
    if size > u128::from(u32::MAX) || ledger.count == u32::MAX {
        return Err(NoMemory);
    }
    let number = memory.place(BlockKind::Heap, size as u64, place)?;
    ledger.count += 1;
    Ok(Some(number))
}

/// Whether a block is a live allocated one.
fn is_live_heap(info: BlockInfo) -> bool
    ensures { IsTrue result → (info.live ≡ true) × (world.is_heap info.kind ≡ true) }
{
    match info.kind {
        BlockKind::Heap => info.live,
        BlockKind::Fixed | BlockKind::ReadOnly | BlockKind::Auto => false,
    }
}

/// Gives a block back.
pub(crate) fn release<M: Memory>(
    memory: &mut M,
    ledger: &mut Ledger,
    number: u32,
) -> Result<(), NoMemory>
    requires sound { IsSound (M.blocks memory.old) (M.starts memory.old) (M.top memory.old) ledger.old }
    requires number { number < length (M.blocks memory.old) }
    ensures run { (tok : Tokens) → Runs (Unit {0}) tok (world.release number) (M.blocks memory.old) ledger.old (M.blocks memory.new) ledger.new (valued result) }
    ensures sound { OnOk result (IsSound (M.blocks memory.new) (M.starts memory.new) (M.top memory.new) ledger.new) }
    ensures called { OnOk result (Called (M.sizes memory.old) ledger.old (M.sizes memory.new) ledger.new) }
{
    let info = memory.block(number);
    if !is_live_heap(info) {
        return Err(NoMemory);
    }
    let Some(token) = ledger.ranges.range_of(info.at) else {
        return Err(NoMemory);
    };
    give_back(ledger, token, info.at)?;
    memory.kill(number);
    Ok(())
}
